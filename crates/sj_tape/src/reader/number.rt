//! Whole numbers.

ghost use Rattle.std.specs.Prelude.{◌≡◌, ◌≢◌, ◌<◌, ◌≤◌, ◌%◌, ◌^◌, Some, None, true, length, get_or, drop, IfOk, IfErr, IfSome, OnErr, MatchOption, option_map, EachIndex, slice_index};
ghost use Rattle.sj_text_core.specs.inner.Parse as parse;
ghost use Rattle.sj_text_core.specs.Grammar.{value_of, number_of};
ghost use Rattle.sj_text_core.specs.Scalars.{static_tree};

use crate::reader::blank::byte_at;
use crate::reader::digits::digits;
use core::dec2flt::{read_digits, ten_to};
use sj_text_core::{ErrorKind, StaticNode};

/// The number that at most 19 digits write.
#[inline(always)]
fn narrow_value(digits: &[u8]) -> u64
    requires digits { EachIndex digits.now (λ k. (48 ≤ slice_index digits.now k) × (slice_index digits.now k ≤ 57)) }
    requires few { length digits.now ≤ 19 }
    ensures { result ≡ value_of digits.now }
{
    let (_, value) = read_digits(digits, 0, 0);
    value
}

/// The number that 19 digits or more write, the first of them no zero, if it is below 2 ^ 128.
/// Such a number has 39 digits at most.
fn wide_value(digits: &[u8]) -> Option<u128>
    requires digits { EachIndex digits.now (λ k. (48 ≤ slice_index digits.now k) × (slice_index digits.now k ≤ 57)) }
    requires first { get_or digits.now 0 0 ≢ 48 }
    requires many { 19 ≤ length digits.now }
    ensures { MatchOption result (2 ^ 128 ≤ value_of digits.now) (λ n. n ≡ value_of digits.now) }
{
    if digits.len() > 39 {
        return None;
    }
    let middle = digits.len().min(38);
    let high = u128::from(narrow_value(&digits[..19])) * u128::from(ten_to((middle - 19) as u64));
    let n = high + u128::from(narrow_value(&digits[19..middle]));
    if digits.len() <= 38 {
        return Some(n);
    }
    match n.checked_mul(10) {
        None => None,
        Some(tens) => tens.checked_add(u128::from(digits[38] - b'0')),
    }
}

/// The number with its carrier, where one has it.
fn in_carrier(is_negative: bool, n: u128) -> Option<StaticNode>
    ensures { option_map static_tree result ≡ number_of is_negative n }
{
    if !is_negative {
        if n < 0x1_0000_0000_0000_0000 {
            Some(StaticNode::U64(n as u64))
        } else {
            Some(StaticNode::U128(n))
        }
    } else if n < 0x8000_0000_0000_0000 {
        Some(StaticNode::I64(0 - n as i64))
    } else if n == 0x8000_0000_0000_0000 {
        Some(StaticNode::I64(i64::MIN))
    } else if n < 0x8000_0000_0000_0000_0000_0000_0000_0000 {
        Some(StaticNode::I128(0 - n as i128))
    } else if n == 0x8000_0000_0000_0000_0000_0000_0000_0000 {
        Some(StaticNode::I128(i128::MIN))
    } else {
        None
    }
}

/// Whether a fraction or an exponent stands at `at`.
#[inline(always)]
fn goes_on(bytes: &[u8], at: usize) -> bool
    requires { at ≤ length bytes.now }
    ensures { result ≡ parse.goes_on (drop at bytes.now) }
{
    let byte = byte_at(bytes, at);
    byte == b'.' || byte == b'e' || byte == b'E'
}

/// A number of at most 64 bits, of at most 18 digits where it is negative.
#[inline(always)]
fn small_number(is_negative: bool, n: u64) -> StaticNode
    requires { is_negative ≡ true → n < 10 ^ 18 }
    ensures { number_of is_negative n ≡ Some (static_tree result) }
{
    if is_negative {
        StaticNode::I64(0 - n as i64)
    } else {
        StaticNode::U64(n)
    }
}

/// The number of 19 digits or more, where it has a carrier. `low` is its last 64 bits: they are the
/// whole of a number of 19 digits, and of one of 20 that begins with a 1 where they are no less.
#[inline(never)]
fn wide_number(digits: &[u8], is_negative: bool, low: u64) -> Option<StaticNode>
    requires digits { EachIndex digits.now (λ k. (48 ≤ slice_index digits.now k) × (slice_index digits.now k ≤ 57)) }
    requires low { low ≡ value_of digits.now % 2 ^ 64 }
    requires first { get_or digits.now 0 0 ≢ 48 }
    ensures { option_map static_tree result ≡ number_of is_negative (value_of digits.now) }
{
    if digits.len() <= 19 {
        return in_carrier(is_negative, u128::from(low));
    }
    if digits.len() == 20 && digits[0] == b'1' && low >= 10_000_000_000_000_000_000 {
        return in_carrier(is_negative, u128::from(low));
    }
    match wide_value(digits) {
        None => None,
        Some(n) => in_carrier(is_negative, n),
    }
}

/// The number at the front and the place behind it, where it is as short as most are: a node is made
/// of it without a call. None says nothing of the bytes.
#[inline(always)]
pub(crate) fn read_short_number(bytes: &[u8]) -> Option<(StaticNode, usize)>
    requires { 0 < length bytes.now }
    ensures within { IfSome result (λ p. (0 < p.1) × (p.1 ≤ length bytes.now)) }
    ensures some { IfSome result (λ p. parse.number_at bytes.now ≡ Some (static_tree p.0, drop p.1 bytes.now)) }
{
    if bytes[0] == b'-' {
        short_numeral(bytes, 1, true)
    } else {
        short_numeral(bytes, 0, false)
    }
}

/// The same of the digits that stand at `at`.
#[inline(always)]
fn short_numeral(bytes: &[u8], at: usize, is_negative: bool) -> Option<(StaticNode, usize)>
    requires { at ≤ length bytes.now }
    ensures within { IfSome result (λ p. (at < p.1) × (p.1 ≤ length bytes.now)) }
    ensures some { IfSome result (λ p. parse.numeral_at is_negative (parse.digits_len (drop at bytes.now)) (drop at bytes.now) ≡ Some (static_tree p.0, drop p.1 bytes.now)) }
{
    let (end, low) = digits(bytes, at);
    let most = if is_negative { 18 } else { 19 };
    if end == at || end - at > most {
        return None;
    }
    if end - at > 1 && bytes[at] == b'0' {
        return None;
    }
    if goes_on(bytes, end) {
        return None;
    }
    Some((small_number(is_negative, low), end))
}

/// The whole number at the front, and the place behind it.
#[inline(always)]
pub(crate) fn read_number(bytes: &[u8]) -> Result<(StaticNode, usize), ErrorKind>
    requires { 0 < length bytes.now }
    ensures within { IfOk result (λ p. (0 < p.1) × (p.1 ≤ length bytes.now)) }
    ensures ok { IfOk result (λ p. parse.number_at bytes.now ≡ Some (static_tree p.0, drop p.1 bytes.now)) }
    ensures err { OnErr result (parse.number_at bytes.now ≡ None) }
    ensures kind { IfErr result (λ e. e ≢ ErrorKind.InvalidUtf8) }
{
    let is_negative = bytes[0] == b'-';
    numeral(bytes, usize::from(is_negative), is_negative)
}

#[tactic(auto, using(sj_text_core::proofs::parse::Numbers::numeral_is))]
/// The digits that stand at `at`, and the place after them.
#[inline(always)]
fn numeral(bytes: &[u8], at: usize, is_negative: bool) -> Result<(StaticNode, usize), ErrorKind>
    requires { at ≤ length bytes.now }
    ensures within { IfOk result (λ p. (at < p.1) × (p.1 ≤ length bytes.now)) }
    ensures ok { IfOk result (λ p. parse.numeral_at is_negative (parse.digits_len (drop at bytes.now)) (drop at bytes.now) ≡ Some (static_tree p.0, drop p.1 bytes.now)) }
    ensures err { OnErr result (parse.numeral_at is_negative (parse.digits_len (drop at bytes.now)) (drop at bytes.now) ≡ None) }
    ensures kind { IfErr result (λ e. e ≢ ErrorKind.InvalidUtf8) }
{
    let (end, low) = digits(bytes, at);
    if end == at {
        return Err(ErrorKind::Syntax);
    }
    if bytes[at] == b'0' && end - at > 1 {
        return Err(ErrorKind::Syntax);
    }
    if goes_on(bytes, end) {
        return Err(ErrorKind::Float);
    }
    if end - at <= 18 {
        return Ok((small_number(is_negative, low), end));
    }
    match wide_number(&bytes[at..end], is_negative, low) {
        None => Err(ErrorKind::NumberTooLarge),
        Some(node) => Ok((node, end)),
    }
}
