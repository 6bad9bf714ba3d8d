//! Escapes.

ghost use Rattle.std.specs.Prelude.{◌≡◌, ◌≢◌, ◌+◌, ◌-◌, ◌<◌, ◌≤◌, Some, None, length, drop, IfOk, IfErr, IfSome, OnErr};
ghost use Rattle.sj_text_core.specs.Grammar.{short_escape};
ghost use Rattle.sj_text_core.specs.inner.Parse as parse;

use crate::reader::digit::digit;
use sj_text_core::ErrorKind;

/// What four hexadecimal digits at `at` write.
#[inline(always)]
fn unit(bytes: &[u8], at: usize) -> Option<u32>
    requires { at ≤ length bytes.now }
    ensures value { result ≡ parse.unit_at (drop at bytes.now) }
    ensures fits { IfSome result (λ u. (u < 65536) × (at + 4 ≤ length bytes.now)) }
{
    if bytes.len() - at < 4 {
        return None;
    }
    let first = digit(bytes[at]);
    let second = digit(bytes[at + 1]);
    let third = digit(bytes[at + 2]);
    let fourth = digit(bytes[at + 3]);
    if first >= 16 {
        return None;
    }
    if second >= 16 {
        return None;
    }
    if third >= 16 {
        return None;
    }
    if fourth >= 16 {
        return None;
    }
    Some(first * 4096 + second * 256 + third * 16 + fourth)
}

/// The character of a two-byte escape.
#[inline(always)]
fn escaped_character(byte: u8) -> Option<u8>
    ensures { result ≡ short_escape byte }
{
    if byte == b'"' || byte == b'\\' || byte == b'/' {
        Some(byte)
    } else if byte == b'b' {
        Some(8)
    } else if byte == b'f' {
        Some(12)
    } else if byte == b'n' {
        Some(10)
    } else if byte == b'r' {
        Some(13)
    } else if byte == b't' {
        Some(9)
    } else {
        None
    }
}

/// Behind a high surrogate: the character of the pair, and the place after it.
#[inline(never)]
fn pair(bytes: &[u8], at: usize, high: u32) -> Result<(char, usize), ErrorKind>
    requires at { at ≤ length bytes.now }
    requires low { 0xD800 ≤ high }
    requires high { high < 0xDC00 }
    ensures within { IfOk result (λ p. (at < p.1) × (p.1 ≤ length bytes.now)) }
    ensures ok { IfOk result (λ p. parse.pair_at high (drop at bytes.now) ≡ Some (p.0, p.1 - at + 5)) }
    ensures err { OnErr result (parse.pair_at high (drop at bytes.now) ≡ None) }
    ensures kind { IfErr result (λ e. e ≢ ErrorKind.InvalidUtf8) }
{
    if at >= bytes.len() {
        return Err(ErrorKind::Syntax);
    }
    if bytes[at] != b'\\' {
        return Err(ErrorKind::LoneSurrogate);
    }
    if at + 1 >= bytes.len() {
        return Err(ErrorKind::Syntax);
    }
    if bytes[at + 1] != b'u' {
        return Err(ErrorKind::LoneSurrogate);
    }
    let Some(low) = unit(bytes, at + 2) else {
        return Err(ErrorKind::Syntax);
    };
    if low < 0xDC00 || low >= 0xE000 {
        return Err(ErrorKind::LoneSurrogate);
    }
    let code = 0x10000 + (high - 0xD800) * 0x400 + (low - 0xDC00);
    match char::from_u32(code) {
        Some(character) => Ok((character, at + 6)),
        None => unreachable!(),
    }
}

/// Behind `\u`: the character, and the place after its escape.
#[inline(always)]
fn code(bytes: &[u8], at: usize) -> Result<(char, usize), ErrorKind>
    requires { at ≤ length bytes.now }
    ensures within { IfOk result (λ p. (at < p.1) × (p.1 ≤ length bytes.now)) }
    ensures ok { IfOk result (λ p. parse.code_at (drop at bytes.now) ≡ Some (p.0, p.1 - at + 1)) }
    ensures err { OnErr result (parse.code_at (drop at bytes.now) ≡ None) }
    ensures kind { IfErr result (λ e. e ≢ ErrorKind.InvalidUtf8) }
{
    let Some(first) = unit(bytes, at) else {
        return Err(ErrorKind::Syntax);
    };
    if first >= 0xD800 && first < 0xDC00 {
        return pair(bytes, at + 4, first);
    }
    match char::from_u32(first) {
        Some(character) => Ok((character, at + 4)),
        None => Err(ErrorKind::LoneSurrogate),
    }
}

/// Behind a backslash: the character, and the place after its escape.
#[inline(always)]
pub(crate) fn escape(bytes: &[u8], at: usize) -> Result<(char, usize), ErrorKind>
    requires { at ≤ length bytes.now }
    ensures within { IfOk result (λ p. (at < p.1) × (p.1 ≤ length bytes.now)) }
    ensures ok { IfOk result (λ p. parse.escape_at (drop at bytes.now) ≡ Some (p.0, p.1 - at)) }
    ensures err { OnErr result (parse.escape_at (drop at bytes.now) ≡ None) }
    ensures kind { IfErr result (λ e. e ≢ ErrorKind.InvalidUtf8) }
{
    if at >= bytes.len() {
        return Err(ErrorKind::Syntax);
    }
    let byte = bytes[at];
    if byte == b'u' {
        return code(bytes, at + 1);
    }
    match escaped_character(byte) {
        Some(character) => Ok((char::from(character), at + 1)),
        None => Err(ErrorKind::Syntax),
    }
}
