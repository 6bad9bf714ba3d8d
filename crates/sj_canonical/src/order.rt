//! The order of texts by their units in UTF-16 (RFC 8785, section 3.2.3).

ghost use Rattle.std.specs.Prelude.{◌≡◌, ℕ, List, ◌++◌, ◌≢◌, length};
ghost use Rattle.std.specs.Char.Escape.{encode_utf16};
ghost use Rattle.std.specs.Cmp.Lexicographic.{slice_cmp};
ghost use Rattle.std.specs.Ordering.{nat_cmp};
ghost use Rattle.sj_canonical.specs.Canonical.{units};
ghost use Rattle.sj_canonical.specs.inner.Ranks.{rank};

use std::cmp::Ordering;

/// The rank of a character among all: those of two units stand in front of the last ones of one unit.
fn rank_of(character: char) -> u32
    ensures { result ≡ rank character }
{
    let code = character as u32;
    if 0xE000 <= code && code <= 0xFFFF {
        code + 0x110000
    } else {
        code
    }
}

/// The order of two texts that begin with these characters, which differ.
fn compare_characters(left: char, right: char) -> Ordering
    requires { left ≢ right }
    ensures { (b c : List ℕ) → slice_cmp nat_cmp (encode_utf16 left ++ b) (encode_utf16 right ++ c) ≡ result }
{
    rank_of(left).cmp(&rank_of(right))
}

/// The order of two texts by their units.
pub(crate) fn compare_units(left: &str, right: &str) -> Ordering
    ensures { result ≡ slice_cmp nat_cmp (units left.now) (units right.now) }
{
    let mut first = left.chars();
    let mut second = right.chars();
    while let Some(one) = first.next() {
        let Some(other) = second.next() else {
            return Ordering::Greater;
        };
        if one != other {
            return compare_characters(one, other);
        }
    }
    match second.next() {
        Some(_) => Ordering::Less,
        None => Ordering::Equal,
    }
}
