//! Whitespace, many bytes at a step.

ghost use Rattle.std.specs.Prelude.{◌≡◌, get_or, ◌+◌, ◌≤◌, length, drop, map};
ghost use Rattle.std.specs.List.{prefix_len};
ghost use Rattle.std.specs.Simd.Lanes.{mask_l};
ghost use Rattle.sj_text_core.specs.inner.Parse as parse;
ghost use Rattle.sj_tape.specs.inner.Run.{is_solid};

use std::simd::prelude::*;

/// The byte at `at`; behind the end 0, which stands in no text.
#[inline(always)]
pub(crate) fn byte_at(bytes: &[u8], at: usize) -> u8
    ensures { result ≡ get_or bytes.now at 0 }
{
    if at < bytes.len() { bytes[at] } else { 0 }
}

fn is_space(byte: u8) -> bool
    ensures { result ≡ parse.is_space byte }
{
    byte == b' ' || byte == b'\t' || byte == b'\n' || byte == b'\r'
}

/// The lanes that are no whitespace.
#[inline(always)]
fn solid_lanes(v: u8x16) -> u64
    ensures { result ≡ mask_l (map is_solid v) }
{
    (v.simd_ne(u8x16::splat(b' '))
        & v.simd_ne(u8x16::splat(b'\n'))
        & v.simd_ne(u8x16::splat(b'\r'))
        & v.simd_ne(u8x16::splat(b'\t'))).to_bitmask()
}

/// The first place from `from` on that is no whitespace, a byte at a step.
#[inline(never)]
fn blank_end_slowly(bytes: &[u8], from: usize) -> usize
    requires { from ≤ length bytes.now }
    ensures { result ≡ from + prefix_len parse.is_space (drop from bytes.now) }
{
    let mut at = from;
    while at < bytes.len() && is_space(bytes[at]) {
        at += 1;
    }
    at
}

/// The same for a long run, as an indentation.
#[inline(never)]
fn blank_end(bytes: &[u8], from: usize) -> usize
    requires { from ≤ length bytes.now }
    ensures { result ≡ from + prefix_len parse.is_space (drop from bytes.now) }
{
    let mut at = from;
    while bytes.len() - at >= 16 {
        let found = solid_lanes(u8x16::from_slice(&bytes[at..]));
        if found != 0 {
            return at + found.trailing_zeros() as usize;
        }
        at += 16;
    }
    blank_end_slowly(bytes, at)
}

/// The first place from `at` on that is no whitespace.
#[inline(always)]
pub(crate) fn skip(bytes: &[u8], at: usize) -> usize
    requires { at ≤ length bytes.now }
    ensures low { at ≤ result }
    ensures high { result ≤ length bytes.now }
    ensures rest { drop result bytes.now ≡ parse.after_blank (drop at bytes.now) }
{
    if at < bytes.len() && bytes[at] > b' ' {
        return at;
    }
    if at + 1 < bytes.len() && bytes[at] == b' ' && bytes[at + 1] > b' ' {
        return at + 1;
    }
    blank_end(bytes, at)
}
