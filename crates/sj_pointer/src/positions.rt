//! Tokens as positions.

ghost use Rattle.std.specs.Prelude.{◌≡◌, ◌^◌, ◌&&◌, nat_lt, if◌then◌else◌, Some, None};
ghost use Rattle.std.specs.Char.{is_ascii_digit};
ghost use Rattle.std.specs.List.{list_all};
ghost use Rattle.sj_text_core.specs.Grammar.{value_of};
ghost use Rattle.sj_text_core.specs.Places.{position_of};

/// The number that digits write; None where one is no digit, or the number is past `usize::MAX`.
fn number(digits: &[u8]) -> Option<usize>
    ensures { result ≡ (if list_all is_ascii_digit digits.now && nat_lt (value_of digits.now) (2 ^ 64) then Some (value_of digits.now) else None) }
{
    let mut value: usize = 0;
    for digit in digits {
        if !digit.is_ascii_digit() {
            return None;
        }
        value = value
            .checked_mul(10)?
            .checked_add(usize::from(*digit - b'0'))?;
    }
    Some(value)
}

/// The position, counted from 0, that a token names on an array: `0`, or digits of which the first
/// is no 0 (RFC 6901, section 4). None for any other token, `-` and the empty one too, and for a
/// number past `usize::MAX`.
pub fn position(token: &str) -> Option<usize>
    ensures { result ≡ position_of token.now }
{
    match token.as_bytes() {
        [b'0'] => Some(0),
        [b'0', ..] | [] => None,
        digits => number(digits),
    }
}
