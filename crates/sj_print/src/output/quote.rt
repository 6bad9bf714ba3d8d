//! Texts between quotes.

ghost use Rattle.std.specs.Prelude.{◌≡◌, ◌<◌, ◌++◌, IsTrue, flat_map};
ghost use Rattle.sj_text_core.specs.Print.{hex_digit, escaped};
ghost use Rattle.sj_print.specs.inner.Runs.{is_stop};
ghost use Rattle.sj_print.specs.Outputs.{Appends};

use super::Output;
use super::plain::plain_end;

/// The digit, in lower case.
fn hex_digit(n: u8) -> u8
    requires { n < 16 }
    ensures { result ≡ hex_digit n }
{
    if n < 10 { b'0' + n } else { b'a' - 10 + n }
}

/// Appends the escape of a quote, a backslash or a control byte.
fn put_escape<O: Output>(out: O, byte: u8) -> O
    requires { IsTrue (is_stop byte) }
    ensures { Appends O.holds out result (escaped byte) }
{
    match byte {
        b'"' => out.put_bytes(b"\\\""),
        b'\\' => out.put_bytes(b"\\\\"),
        8 => out.put_bytes(b"\\b"),
        9 => out.put_bytes(b"\\t"),
        10 => out.put_bytes(b"\\n"),
        12 => out.put_bytes(b"\\f"),
        13 => out.put_bytes(b"\\r"),
        0..16 => out.put_bytes(&[b'\\', b'u', b'0', b'0', b'0', hex_digit(byte)]),
        _ => out.put_bytes(&[b'\\', b'u', b'0', b'0', b'1', hex_digit(byte - 16)]),
    }
}

/// Appends the text between `before` and `behind`: runs of plain bytes at once, the others by their
/// escapes.
#[inline(never)]
pub(super) fn put_runs<O: Output>(out: O, before: &[u8], text: &[u8], behind: &[u8]) -> O
    ensures { Appends O.holds out result (before.now ++ (flat_map escaped text.now ++ behind.now)) }
{
    let mut out = out.put_bytes(before);
    let mut at = 0;
    loop {
        let stop = plain_end(text, at);
        out = out.put_bytes(&text[at..stop]);
        if stop == text.len() {
            return out.put_bytes(behind);
        }
        out = put_escape(out, text[stop]);
        at = stop + 1;
    }
}
