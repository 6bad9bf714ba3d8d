//! Texts read as pointers.

ghost use Rattle.std.specs.Prelude.{◌≡◌, ◌≤◌, ◌<◌, ◌↔◌, ◌∷◌, IfOk, IsErrOf, IsUtf8, is_some, IfSome, map, length, string_bytes, true, false};
ghost use Rattle.sj_pointer.specs.Syntax.{has_code, is_begun, is_escaped};
ghost use Rattle.sj_pointer.specs.Tokens.{decoded, parted, tokens_of};

use crate::tokens::Pointer;
use sj_text_core::PointerError;
use std::alloc::{AllocError, Global};

/// Whether a 0 or a 1 comes first.
fn is_code(text: &[u8]) -> bool
    ensures { result ≡ has_code text.now }
{
    matches!(text, [b'0' | b'1', ..])
}

/// How many slashes there are; None where a tilde has neither a 0 nor a 1 behind it.
fn slashes(text: &[u8]) -> Option<usize>
    ensures escaped { is_some result ≡ is_escaped text.now }
    ensures few { IfSome result (λ n. n ≤ length text.now) }
{
    let mut count = 0;
    let mut rest = text;
    while let [byte, tail @ ..] = rest {
        if *byte == b'~' && !is_code(tail) {
            return None;
        }
        if *byte == b'/' {
            count += 1;
        }
        rest = tail;
    }
    Some(count)
}

/// The character that a tilde and the text behind it write, and what follows.
fn escape(text: &str) -> (char, &str)
    ensures decoded { decoded (126 ∷ text.now) ≡ result.0 ∷ decoded result.1.now }
    ensures ascii { result.0 < 128 }
    ensures utf8 { IsUtf8 result.1.now }
    ensures shorter { length result.1.now ≤ length text.now }
{
    match text.strip_prefix('1') {
        Some(rest) => ('/', rest),
        None => ('~', text.strip_prefix('0').unwrap_or(text)),
    }
}

/// A token's text, decoded. Its runs without a tilde are copied whole.
fn decode(alloc: Global, token: &str) -> Result<String, AllocError>
    ensures { IfOk result (λ text. string_bytes text ≡ decoded token.now) }
{
    let mut text = String::with_capacity(alloc, token.len())?;
    let mut rest = token;
    while let Some((plain, escaped)) = rest.split_once('~') {
        text.push_str(plain)?;
        let (character, tail) = escape(escaped);
        text.push(character)?;
        rest = tail;
    }
    text.push_str(rest)?;
    Ok(text)
}

/// The texts that slashes part, decoded, with room for so many slashes.
fn decode_all(alloc: Global, text: &str, slashes: usize) -> Result<Vec<String>, AllocError>
    ensures { IfOk result (λ tokens. map string_bytes tokens.items ≡ map decoded (parted text.now)) }
{
    let mut tokens = Vec::with_capacity(alloc, slashes)?;
    let mut rest = text;
    while let Some((token, tail)) = rest.split_once('/') {
        tokens.push(decode(alloc, token)?)?;
        rest = tail;
    }
    tokens.push(decode(alloc, rest)?)?;
    Ok(tokens)
}

/// The pointer of a text (RFC 6901, section 3).
///
/// A text that is neither empty nor begun by a slash is refused as `NoSlash`, one with a tilde that
/// has neither a 0 nor a 1 behind it as `BadTilde`, both before any request for memory.
pub fn pointer(alloc: Global, text: &str) -> Result<Pointer, PointerError>
    ensures ok { IfOk result (λ pointer. pointer ≡ tokens_of text.now) }
    ensures no_slash { IsErrOf result PointerError.NoSlash ↔ (is_begun text.now ≡ false) }
    ensures bad_tilde { IsErrOf result PointerError.BadTilde ↔ ((is_begun text.now ≡ true) × (is_escaped text.now ≡ false)) }
{
    match text.strip_prefix('/') {
        Some(rest) => match slashes(text.as_bytes()) {
            Some(count) => Ok(Pointer::from_tokens(decode_all(alloc, rest, count)?)),
            None => Err(PointerError::BadTilde),
        },
        None if text.is_empty() => Ok(Pointer::from_tokens(Vec::new(alloc))),
        None => Err(PointerError::NoSlash),
    }
}
