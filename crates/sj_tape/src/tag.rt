//! Tags of texts: sixteen bits, by which most texts that differ are told apart.

ghost use Rattle.std.specs.Prelude.{◌≡◌, ◌+◌, ◌≤◌, ◌%◌, ◌^◌, length};
ghost use Rattle.sj_text_core.specs.Hash.{hash};
ghost use Rattle.sj_tape.specs.inner.Tags.{half_word, has_tag, mixed, tag, word};

/// 2^64 over the golden ratio.
const GOLDEN: u64 = 0x9e37_79b9_7f4a_7c15;

/// The eight bytes at a position, as one word.
#[inline]
fn word_at(bytes: &[u8], at: usize) -> u64
    requires { at + 8 ≤ length bytes.now }
    ensures { result ≡ word at bytes.now }
{
    let Some((word, _)) = bytes[at..].split_first_chunk::<8>() else {
        unreachable!();
    };
    u64::from_le_bytes(*word)
}

/// The four bytes at a position, as one word.
#[inline]
fn half_word_at(bytes: &[u8], at: usize) -> u64
    requires { at + 4 ≤ length bytes.now }
    ensures { result ≡ half_word at bytes.now }
{
    let Some((word, _)) = bytes[at..].split_first_chunk::<4>() else {
        unreachable!();
    };
    u64::from(u32::from_le_bytes(*word))
}

/// The tag of a text below four bytes.
fn tag_of_few(text: &[u8]) -> u16
    ensures { result ≡ hash text.now % 2 ^ 16 }
{
    let mut sum = 0u64;
    for byte in text {
        sum = sum.wrapping_mul(31).wrapping_add(u64::from(*byte));
    }
    (sum % 65_536) as u16
}

/// Three words as sixteen bits: the sums are multiplied by 2^64 over the golden ratio, and the highest
/// bits of the product kept (Fibonacci hashing, Knuth).
#[inline]
fn mix(first: u64, middle: u64, last: u64) -> u16
    ensures { result ≡ mixed first middle last }
{
    let sum = first.wrapping_mul(GOLDEN).wrapping_add(middle);
    let sum = sum.wrapping_mul(GOLDEN).wrapping_add(last);
    (sum.wrapping_mul(GOLDEN) >> 48) as u16
}

/// The tag of a text: a number of its first eight bytes, the eight in its middle and the last eight, or
/// of all where they are fewer.
#[inline]
pub(crate) fn tag_of(text: &[u8]) -> u16
    ensures { result ≡ tag text.now }
{
    let len = text.len();
    if len >= 8 {
        let middle = word_at(text, (len - 8) / 2);
        return mix(word_at(text, 0), middle, word_at(text, len - 8));
    }
    if len >= 4 {
        return mix(half_word_at(text, 0), 0, half_word_at(text, len - 4));
    }
    tag_of_few(text)
}

/// Whether one of the tags is that one.
// It goes on behind it, so that several are compared at once.
pub(crate) fn is_among(tag: u16, tags: &[u16]) -> bool
    ensures { result ≡ has_tag tag tags.now }
{
    let mut among = false;
    for other in tags {
        among |= *other == tag;
    }
    among
}
