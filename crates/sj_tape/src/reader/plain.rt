//! The plain part of a text, many bytes at a step.

ghost use Rattle.std.specs.Prelude.{◌≡◌, ◌+◌, ◌≤◌, length, drop, map};
ghost use Rattle.std.specs.List.{prefix_len};
ghost use Rattle.std.specs.Simd.Lanes.{mask_l};
ghost use Rattle.sj_print.specs.inner.Runs.{is_stop, is_plain};

use std::simd::prelude::*;

/// The lanes at which the plain part of a text stops.
#[inline(always)]
fn stops_16(v: u8x16) -> u64
    ensures { result ≡ mask_l (map is_stop v) }
{
    (v.simd_eq(u8x16::splat(b'"'))
        | v.simd_eq(u8x16::splat(b'\\'))
        | v.simd_lt(u8x16::splat(0x20))).to_bitmask()
}

/// The same for twice as many.
#[inline(always)]
fn stops_32(v: u8x32) -> u64
    ensures { result ≡ mask_l (map is_stop v) }
{
    (v.simd_eq(u8x32::splat(b'"'))
        | v.simd_eq(u8x32::splat(b'\\'))
        | v.simd_lt(u8x32::splat(0x20))).to_bitmask()
}

/// The same as `plain_end`, a byte at a step.
#[inline(never)]
fn plain_end_slowly(bytes: &[u8], from: usize) -> usize
    requires { from ≤ length bytes.now }
    ensures { result ≡ from + prefix_len is_plain (drop from bytes.now) }
{
    let mut at = from;
    while at < bytes.len() && bytes[at] != b'"' && bytes[at] != b'\\' && bytes[at] >= 0x20 {
        at += 1;
    }
    at
}

/// The same as `plain_end`, for a long text.
#[inline(never)]
fn plain_end_far(bytes: &[u8], from: usize) -> usize
    requires { from ≤ length bytes.now }
    ensures { result ≡ from + prefix_len is_plain (drop from bytes.now) }
{
    let mut at = from;
    while bytes.len() - at >= 32 {
        let found = stops_32(u8x32::from_slice(&bytes[at..]));
        if found != 0 {
            return at + found.trailing_zeros() as usize;
        }
        at += 32;
    }
    plain_end_slowly(bytes, at)
}

/// The first quote, backslash or control byte from `from` on, or the length. Most texts are short.
#[inline(always)]
pub(crate) fn plain_end(bytes: &[u8], from: usize) -> usize
    requires { from ≤ length bytes.now }
    ensures value { result ≡ from + prefix_len is_plain (drop from bytes.now) }
    ensures bound { result ≤ length bytes.now }
{
    if bytes.len() - from < 16 {
        return plain_end_slowly(bytes, from);
    }
    let found = stops_16(u8x16::from_slice(&bytes[from..]));
    if found == 0 {
        return plain_end_far(bytes, from + 16);
    }
    from + found.trailing_zeros() as usize
}
