//! Bytes compared by words.

ghost use Rattle.std.specs.Prelude.{◌≡◌, ◌+◌, ◌≤◌, ◌<◌, length, take, drop, bytes_eq};
ghost use Rattle.std.specs.Int.{from_le_bytes, to_le_bytes, w32, w64};

/// The eight bytes at a position, as one word.
#[inline]
fn word_at(bytes: &[u8], at: usize) -> u64
    requires { at + 8 ≤ length bytes.now }
    ensures value { result ≡ from_le_bytes w64 (take 8 (drop at bytes.now)) }
    ensures bytes { to_le_bytes w64 result ≡ take 8 (drop at bytes.now) }
{
    let Some((word, _)) = bytes[at..].split_first_chunk::<8>() else {
        unreachable!();
    };
    u64::from_le_bytes(*word)
}

/// The four bytes at a position, as one word.
#[inline]
fn half_word_at(bytes: &[u8], at: usize) -> u32
    requires { at + 4 ≤ length bytes.now }
    ensures value { result ≡ from_le_bytes w32 (take 4 (drop at bytes.now)) }
    ensures bytes { to_le_bytes w32 result ≡ take 4 (drop at bytes.now) }
{
    let Some((word, _)) = bytes[at..].split_first_chunk::<4>() else {
        unreachable!();
    };
    u32::from_le_bytes(*word)
}

/// Whether the texts have the same bytes; see `are_same_bytes`.
#[inline]
pub fn are_same_texts(a: &str, b: &str) -> bool
    ensures { result ≡ bytes_eq a.now b.now }
{
    are_same_bytes(a.as_bytes(), b.as_bytes())
}

/// Whether the bytes are the same. Their lengths are compared first, then their last bytes and their
/// first: a call compares more than 16 bytes that agree in these.
#[inline]
pub fn are_same_bytes(a: &[u8], b: &[u8]) -> bool
    ensures { result ≡ bytes_eq a.now b.now }
{
    let len = a.len();
    if len != b.len() {
        return false;
    }
    if len < 8 {
        return are_same_short(a, b);
    }
    if word_at(a, len - 8) != word_at(b, len - 8) {
        return false;
    }
    if len <= 16 {
        return word_at(a, 0) == word_at(b, 0);
    }
    word_at(a, 0) == word_at(b, 0) && a == b
}

/// The same of bytes of one length below 8.
#[inline]
fn are_same_short(a: &[u8], b: &[u8]) -> bool
    requires same { length a.now ≡ length b.now }
    requires short { length a.now < 8 }
    ensures { result ≡ bytes_eq a.now b.now }
{
    let len = a.len();
    if len < 4 {
        return are_same_few(a, b);
    }
    if half_word_at(a, len - 4) != half_word_at(b, len - 4) {
        return false;
    }
    half_word_at(a, 0) == half_word_at(b, 0)
}

/// The same of bytes of one length below 4: the first, the middle and the last are all of them.
#[inline]
fn are_same_few(a: &[u8], b: &[u8]) -> bool
    requires same { length a.now ≡ length b.now }
    requires few { length a.now < 4 }
    ensures { result ≡ bytes_eq a.now b.now }
{
    let len = a.len();
    len == 0 || (a[0] == b[0] && a[len / 2] == b[len / 2] && a[len - 1] == b[len - 1])
}
