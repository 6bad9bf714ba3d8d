//! Where in a JSON text a value stands. The text is one that was read, so it is gone over with no look
//! at what could be wrong in it. Of repeated keys the first counts, as where it is read.

ghost use Rattle.std.specs.Prelude.{◌≤◌, length, IfOk, IfSome};

use sj_owned::prelude::*;
use sj_owned::{ErrorKind, to_value};
use sj_pointer::position;
use std::alloc::{AllocError, Global};

/// What a text says of a place.
#[derive(Clone, Copy, Debug, PartialEq, Eq)]
pub enum Said {
    /// The value that begins behind so many bytes.
    Value(usize),
    /// The value that begins behind so many bytes, in an array to which so many of the tokens lead.
    Item(usize, usize),
    /// The null of a member, which begins behind so many bytes: merged over something, it takes that out.
    Null(usize),
    /// Something else stands on the way: merged over something, it takes its place.
    Else,
    /// The object to which so many of the tokens lead lacks the next: what it is merged over stays, but
    /// for an array on the way to here.
    Nothing(usize),
}

/// What the text says of the place that the tokens lead to.
pub fn said_of(alloc: Global, text: &[u8], tokens: &[String]) -> Result<Said, AllocError> {
    let mut at = skip_blank(text);
    let mut array: Option<usize> = None;
    for (depth, token) in tokens.iter().enumerate() {
        let found = match at {
            [b'{', members @ ..] => member(alloc, members, token.as_str())?,
            [b'[', items @ ..] => {
                array = array.or(Some(depth));
                position(token.as_str()).and_then(|index| item(items, index))
            }
            _ => return Ok(Said::Else),
        };
        at = match found {
            Some(value) => value,
            None if array.is_some() => return Ok(Said::Else),
            None => return Ok(Said::Nothing(depth)),
        };
    }
    let begin = text.len().saturating_sub(at.len());
    Ok(match (array, at) {
        (Some(array), _) => Said::Item(begin, array),
        (None, [b'n', ..]) if !tokens.is_empty() => Said::Null(begin),
        (None, _) => Said::Value(begin),
    })
}

/// What stands behind the blanks.
fn skip_blank(text: &[u8]) -> &[u8]
    ensures { length result.now ≤ length text.now }
{
    let mut rest = text;
    while let [b' ' | b'\t' | b'\n' | b'\r', tail @ ..] = rest {
        rest = tail;
    }
    rest
}

/// What stands behind the quote that closes a text.
fn behind_quoted(text: &[u8]) -> &[u8]
    ensures { length result.now ≤ length text.now }
{
    let mut rest = text;
    while let [byte, tail @ ..] = rest {
        rest = match (byte, tail) {
            (b'"', _) => return tail,
            (b'\\', [_, tail @ ..]) => tail,
            _ => tail,
        };
    }
    rest
}

/// What stands behind a value: the comma or the bracket that ends it.
fn behind_value(text: &[u8]) -> &[u8]
    ensures { length result.now ≤ length text.now }
{
    let mut depth: usize = 0;
    let mut rest = text;
    while let [byte, tail @ ..] = rest {
        rest = match byte {
            b',' | b']' | b'}' if depth == 0 => return rest,
            b'"' => behind_quoted(tail),
            b'[' | b'{' => {
                depth = depth.saturating_add(1);
                tail
            }
            b']' | b'}' => {
                depth = depth.saturating_sub(1);
                tail
            }
            _ => tail,
        };
    }
    rest
}

/// What stands behind a value and the comma behind it; nothing where there is none.
fn next_part(text: &[u8]) -> &[u8]
    ensures { length result.now ≤ length text.now }
{
    match behind_value(text) {
        [b',', tail @ ..] => skip_blank(tail),
        _ => &[],
    }
}

/// What stands behind the colon that follows a key.
fn behind_colon(text: &[u8]) -> &[u8]
    ensures { length result.now ≤ length text.now }
{
    match skip_blank(text) {
        [b':', tail @ ..] => skip_blank(tail),
        rest => rest,
    }
}

/// The value of the first member of that key, of an object of which the members and what is behind
/// them stand there.
fn member<'t>(alloc: Global, text: &'t [u8], key: &str) -> Result<Option<&'t [u8]>, AllocError>
    ensures { IfOk result (λ o. IfSome o (λ v. length v.now ≤ length text.now)) }
{
    let mut rest = skip_blank(text);
    while let [b'"', tail @ ..] = rest {
        let behind = behind_quoted(tail);
        let quoted = &rest[..rest.len() - behind.len()];
        let value = behind_colon(behind);
        if is_key(alloc, quoted, key)? {
            return Ok(Some(value));
        }
        rest = next_part(value);
    }
    Ok(None)
}

/// Whether the bytes with their quotes spell the key.
fn is_key(alloc: Global, quoted: &[u8], key: &str) -> Result<bool, AllocError> {
    if !quoted.contains(&b'\\') {
        return Ok(matches!(quoted, [_, text @ .., _] if text == key.as_bytes()));
    }
    let mut text = quoted.to_vec(alloc)?;
    match to_value(alloc, text.as_mut_slice()) {
        Ok(value) => Ok(value.as_str() == Some(key)),
        Err(ErrorKind::OutOfMemory) => Err(AllocError),
        Err(_) => Ok(false),
    }
}

/// The item of that index, of an array of which the items and what is behind them stand there.
fn item(text: &[u8], index: usize) -> Option<&[u8]>
    ensures { IfSome result (λ v. length v.now ≤ length text.now) }
{
    let mut rest = skip_blank(text);
    for _ in 0..index {
        if rest.is_empty() {
            return None;
        }
        rest = next_part(rest);
    }
    match rest {
        [] | [b']', ..] => None,
        _ => Some(rest),
    }
}
