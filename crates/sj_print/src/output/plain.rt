//! Passing over the plain bytes of a text.

ghost use Rattle.std.specs.Prelude.{◌≡◌, ◌+◌, ◌<◌, ◌≤◌, length, drop, map};
ghost use Rattle.std.specs.Bool.{OnTrue};
ghost use Rattle.std.specs.List.{prefix_len};
ghost use Rattle.std.specs.Simd.Lanes.{mask_l};
ghost use Rattle.sj_print.specs.inner.Runs.{is_plain, is_stop};

use std::simd::prelude::*;

/// A bit for each lane that is a quote, a backslash or a control byte.
#[inline(always)]
fn stops(lanes: u8x16) -> u64
    ensures { result ≡ mask_l (map is_stop lanes) }
{
    (lanes.simd_eq(u8x16::splat(b'"'))
        | lanes.simd_eq(u8x16::splat(b'\\'))
        | lanes.simd_lt(u8x16::splat(0x20))).to_bitmask()
}

/// The same for eight lanes.
#[inline(always)]
fn stops_8(lanes: u8x8) -> u64
    ensures { result ≡ mask_l (map is_stop lanes) }
{
    (lanes.simd_eq(u8x8::splat(b'"'))
        | lanes.simd_eq(u8x8::splat(b'\\'))
        | lanes.simd_lt(u8x8::splat(0x20))).to_bitmask()
}

/// The same for four lanes.
#[inline(always)]
fn stops_4(lanes: u8x4) -> u64
    ensures { result ≡ mask_l (map is_stop lanes) }
{
    (lanes.simd_eq(u8x4::splat(b'"'))
        | lanes.simd_eq(u8x4::splat(b'\\'))
        | lanes.simd_lt(u8x4::splat(0x20))).to_bitmask()
}

/// `plain_end`, a byte at a time.
#[inline(always)]
fn plain_end_slowly(text: &[u8], from: usize) -> usize
    requires { from ≤ length text.now }
    ensures { result ≡ from + prefix_len is_plain (drop from text.now) }
{
    let mut i = from;
    while i < text.len() && text[i] != b'"' && text[i] != b'\\' && text[i] >= 0x20 {
        i += 1;
    }
    i
}

/// The place of the first quote, backslash or control byte from `from` on, or the length.
pub(super) fn plain_end(text: &[u8], from: usize) -> usize
    requires { from ≤ length text.now }
    ensures value { result ≡ from + prefix_len is_plain (drop from text.now) }
    ensures bound { result ≤ length text.now }
{
    let mut i = from;
    while text.len() - i >= 16 {
        let found = stops(u8x16::from_slice(&text[i..]));
        if found != 0 {
            return i + found.trailing_zeros() as usize;
        }
        i += 16;
    }
    plain_end_slowly(text, i)
}

/// `is_all_plain` of a text of 16 bytes or more.
fn is_all_plain_far(text: &[u8]) -> bool
    requires { 16 ≤ length text.now }
    ensures { OnTrue result (prefix_len is_plain text.now ≡ length text.now) }
{
    let mut i = 0;
    while text.len() - i > 16 {
        if stops(u8x16::from_slice(&text[i..])) != 0 {
            return false;
        }
        i += 16;
    }
    stops(u8x16::from_slice(&text[text.len() - 16..])) == 0
}

/// Whether a byte is neither a quote nor a backslash nor a control byte.
#[inline(always)]
fn is_plain_byte(byte: u8) -> bool
    ensures { result ≡ is_plain byte }
{
    byte != b'"' && byte != b'\\' && byte >= 0x20
}

/// `is_all_plain` of a text below 4 bytes: the first, the middle and the last are all of them.
#[inline(always)]
fn is_all_plain_few(text: &[u8]) -> bool
    requires { length text.now < 4 }
    ensures { OnTrue result (prefix_len is_plain text.now ≡ length text.now) }
{
    let len = text.len();
    len == 0
        || (is_plain_byte(text[0]) & is_plain_byte(text[len / 2]) & is_plain_byte(text[len - 1]))
}

/// Whether the text has no quote, backslash or control byte. A short text is seen by two loads that
/// overlap.
#[inline(always)]
pub(super) fn is_all_plain(text: &[u8]) -> bool
    ensures { OnTrue result (prefix_len is_plain text.now ≡ length text.now) }
{
    let len = text.len();
    if len >= 16 {
        is_all_plain_far(text)
    } else if len >= 8 {
        stops_8(u8x8::from_slice(text)) == 0 && stops_8(u8x8::from_slice(&text[len - 8..])) == 0
    } else if len >= 4 {
        stops_4(u8x4::from_slice(text)) == 0 && stops_4(u8x4::from_slice(&text[len - 4..])) == 0
    } else {
        is_all_plain_few(text)
    }
}
