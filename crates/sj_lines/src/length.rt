//! How long a line is, and its text.

ghost use Rattle.std.specs.Prelude.{◌≡◌, ◌<◌, ◌≤◌, ◌∷◌, length, take, drop};
ghost use Rattle.sj_lines.specs.Lines.{full_lines, line_text, without_end};

use memchr::memchr;

/// How long the first line is, with its line feed; of bytes without one, all of them. There has to
/// be a byte.
pub fn line_len(bytes: &[u8]) -> usize
    requires { 0 < length bytes.now }
    ensures some { 0 < result }
    ensures within { result ≤ length bytes.now }
    ensures first { full_lines bytes.now ≡ take result bytes.now ∷ full_lines (drop result bytes.now) }
{
    match memchr(b'\n', bytes) {
        Some(at) => at + 1,
        None => bytes.len(),
    }
}

/// How long the bytes are without one of that byte at their end.
fn trimmed_len(bytes: &[u8], len: usize, last: u8) -> usize
    requires { len ≤ length bytes.now }
    ensures within { result ≤ len }
    ensures trimmed { take result bytes.now ≡ without_end last (take len bytes.now) }
{
    if len > 0 && bytes[len - 1] == last {
        len - 1
    } else {
        len
    }
}

/// How long a line's text is: the line without its line feed, and without one carriage return in
/// front of that or at the very end.
pub fn text_len(line: &[u8]) -> usize
    ensures within { result ≤ length line.now }
    ensures text { take result line.now ≡ line_text line.now }
{
    let len = trimmed_len(line, line.len(), b'\n');
    trimmed_len(line, len, b'\r')
}
