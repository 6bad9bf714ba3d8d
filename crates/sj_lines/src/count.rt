//! How many lines there are.

ghost use Rattle.std.specs.Prelude.{◌≡◌, length};
ghost use Rattle.sj_lines.specs.Lines.{full_lines};

use crate::length::line_len;

/// How many lines the bytes have, those without a text too. What stands behind the last line feed is
/// one, but for none.
pub fn line_count(bytes: &[u8]) -> usize
    ensures { result ≡ length (full_lines bytes.now) }
{
    let mut count = 0;
    let mut rest = bytes;
    while !rest.is_empty() {
        rest = &rest[line_len(rest)..];
        count += 1;
    }
    count
}
