//! Texts: one without an escape is lent as it stands, one with escapes is first written over its
//! own spelling.

ghost use Rattle.std.specs.Prelude.{◌≡◌, ◌≢◌, ◌+◌, ◌-◌, ◌<◌, ◌≤◌, ◌++◌, Some, None, false, length, get_or, take, drop, IfOk, IfErr, OnErr, IsUtf8, slice_range};
ghost use Rattle.std.specs.Char.{encode_utf8};
ghost use Rattle.sj_tape.specs.inner.Gives.{EndsUtf8, GivesText};
ghost use Rattle.sj_tape.specs.Marks.{packed_marks};
ghost use Rattle.sj_text_core.specs.inner.Parse as parse;
ghost use Rattle.sj_print.specs.inner.Runs.{is_plain};

use crate::node::Node;
use crate::packed::Packed;
use crate::reader::escape::escape;
use crate::reader::nodes::{push_node, push_packed};
use crate::reader::plain::plain_end;
use sj_print::PlainText;
use sj_text_core::ErrorKind;
use std::str::from_utf8_unchecked;

/// Reads the text whose first byte is the first of the bytes, puts its node at the end, and
/// answers the bytes behind its quote.
#[inline(always)]
pub(crate) fn text<'i>(
    rest: &'i mut [u8],
    nodes: &mut Vec<Packed<'i>>,
) -> Result<&'i mut [u8], ErrorKind>
    requires { IsUtf8 rest.old }
    ensures ok { IfOk result (λ r. GivesText (parse.read_text rest.old) r.now (packed_marks nodes.old.items) (packed_marks nodes.new.items)) }
    ensures shorter { IfOk result (λ r. length r.now < length rest.old) }
    ensures ends { IfOk result (λ r. EndsUtf8 r.now) }
    ensures err { IfErr result (λ e. e ≢ ErrorKind.OutOfMemory → parse.read_text rest.old ≡ None) }
    ensures kind { IfErr result (λ e. e ≢ ErrorKind.InvalidUtf8) }
{
    let end = plain_end(rest, 0);
    if end >= rest.len() {
        return Err(ErrorKind::Syntax);
    }
    if rest[end] == b'"' {
        let (head, tail) = rest.split_at_mut(end + 1);
        let lent: &'i [u8] = head;
        let text = str_of(&lent[..end]);
        push_packed(nodes, Packed::Plain(PlainText { text }))?;
        return Ok(tail);
    }
    if rest[end] != b'\\' {
        return Err(ErrorKind::Syntax);
    }
    let (head, tail) = read_escaped(rest, end)?;
    push_node(nodes, Node::String(head))?;
    Ok(tail)
}

/// The text that the bytes are. They are UTF-8, so they are not tested once more.
#[inline(always)]
fn str_of(bytes: &[u8]) -> &str
    requires { IsUtf8 bytes.now }
    ensures { result.now ≡ bytes.now }
{
    // SAFETY: the bytes are UTF-8, which is a condition of this function that each caller proves.
    unsafe { from_utf8_unchecked(bytes) }
}

/// The text, where its first escape stands at `first`, and the bytes behind its quote. It is
/// written over its spelling from left to right.
#[inline(never)]
fn read_escaped<'i>(rest: &'i mut [u8], first: usize) -> Result<(&'i str, &'i mut [u8]), ErrorKind>
    requires utf8 { IsUtf8 rest.old }
    requires within { first ≤ length rest.old }
    requires plain { parse.read_text rest.old ≡ parse.with_front (slice_range rest.old 0 first) (parse.read_text (drop first rest.old)) }
    requires stop { first < length rest.old → is_plain (get_or rest.old first 0) ≡ false }
    ensures ok { IfOk result (λ p. parse.read_text rest.old ≡ Some (p.0.now, p.1.now)) }
    ensures shorter { IfOk result (λ p. length p.1.now < length rest.old) }
    ensures ends { IfOk result (λ p. EndsUtf8 p.1.now) }
    ensures err { OnErr result (parse.read_text rest.old ≡ None) }
    ensures kind { IfErr result (λ e. e ≢ ErrorKind.InvalidUtf8) }
{
    let mut from = first;
    let mut to = first;
    while from < rest.len() {
        if rest[from] == b'"' {
            let (head, tail) = rest.split_at_mut(from + 1);
            let lent: &'i [u8] = head;
            return Ok((str_of(&lent[..to]), tail));
        }
        if rest[from] != b'\\' {
            return Err(ErrorKind::Syntax);
        }
        let (character, next) = escape(rest, from + 1)?;
        to = put(rest, to, character);
        from = plain_end(rest, next);
        to = move_run(rest, next, from, to);
    }
    Err(ErrorKind::Syntax)
}

/// Writes the UTF-8 of a character at `to`, and answers the place after it.
#[inline(always)]
fn put(bytes: &mut [u8], to: usize, character: char) -> usize
    requires { to + length (encode_utf8 character) ≤ length bytes.old }
    ensures next { result ≡ to + length (encode_utf8 character) }
    ensures new { bytes.new ≡ take to bytes.old ++ (encode_utf8 character ++ drop (to + length (encode_utf8 character)) bytes.old) }
{
    if character.is_ascii() {
        bytes[to] = character as u8;
        return to + 1;
    }
    let mut buffer = [0; 4];
    let text = character.encode_utf8(&mut buffer);
    let next = to + text.len();
    bytes[to..next].copy_from_slice(text.as_bytes());
    next
}

/// Moves the bytes from `from` up to `end` down to `to`, and answers the place after them.
#[inline(always)]
fn move_run(bytes: &mut [u8], from: usize, end: usize, to: usize) -> usize
    requires order { from ≤ end }
    requires within { end ≤ length bytes.old }
    requires down { to ≤ from }
    ensures next { result ≡ to + (end - from) }
    ensures new { bytes.new ≡ take to bytes.old ++ (slice_range bytes.old from end ++ drop (to + (end - from)) bytes.old) }
{
    bytes.copy_within(from..end, to);
    to + (end - from)
}
