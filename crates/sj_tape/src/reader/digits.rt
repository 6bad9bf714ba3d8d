//! The digits of whole numbers, sixteen at a step.

ghost use Rattle.std.specs.Prelude.{◌≡◌, ◌+◌, ◌-◌, ◌<◌, ◌≤◌, ◌%◌, ◌^◌, ◌++◌, ◌∷◌, [], ℕ, length, drop, take, map, replicate, slice_index, slice_range};
ghost use Rattle.std.specs.Simd.Lanes.{mask_l};
ghost use Rattle.std.specs.List.{prefix_len};
ghost use Rattle.std.specs.Char.{is_ascii_digit};
ghost use Rattle.std.specs.Str.Parse.{digits_value};
ghost use Rattle.std.specs.Int.Digits.{number_from_digits};
ghost use Rattle.sj_text_core.specs.inner.Parse as parse;
ghost use Rattle.sj_text_core.specs.Grammar.{value_of};
ghost use Rattle.sj_tape.specs.inner.Lanes.{is_other, lane_of};

use core::dec2flt::read_digits;
use std::simd::prelude::*;

/// The sixteen from n on move the first n lanes of a vector to its end: an index of 255 gives a 0.
static ENDS: [u8; 32] = [
    255, 255, 255, 255, 255, 255, 255, 255, 255, 255, 255, 255, 255, 255, 255, 255, 0, 1, 2, 3, 4,
    5, 6, 7, 8, 9, 10, 11, 12, 13, 14, 15,
];

/// The sixteen bytes from `at` on as lanes, where each digit is its number.
#[inline(always)]
fn lanes_at(bytes: &[u8], at: usize) -> u8x16
    requires { at + 16 ≤ length bytes.now }
    ensures { result ≡ map lane_of (take 16 (drop at bytes.now)) }
{
    u8x16::from_slice(&bytes[at..]) - u8x16::splat(b'0')
}

/// The lanes that no digit gives.
#[inline(always)]
fn other_lanes(lanes: u8x16) -> u64
    ensures { result ≡ mask_l (map is_other lanes) }
{
    lanes.simd_ge(u8x16::splat(10)).to_bitmask()
}

/// The first `count` lanes at the end, behind zeros.
#[inline(always)]
fn move_to_end(lanes: u8x16, count: usize) -> u8x16
    requires { count ≤ 16 }
    ensures { result ≡ replicate (16 - count) 0 ++ take count lanes }
{
    lanes.swizzle_dyn(u8x16::from_slice(&ENDS[count..]))
}

/// The numbers of four lanes each.
#[inline(always)]
fn numbers_of_four(lanes: u8x16) -> u32x4
    ensures { result ≡ number_from_digits 10 (take 4 lanes) ∷ number_from_digits 10 (slice_range lanes 4 8) ∷ number_from_digits 10 (slice_range lanes 8 12) ∷ number_from_digits 10 (slice_range lanes 12 16) ∷ [] }
{
    let tens = lanes.dot4(u8x16::from_array([10, 1, 0, 0, 10, 1, 0, 0, 10, 1, 0, 0, 10, 1, 0, 0]));
    let ones = lanes.dot4(u8x16::from_array([0, 0, 10, 1, 0, 0, 10, 1, 0, 0, 10, 1, 0, 0, 10, 1]));
    tens * u32x4::splat(100) + ones
}

/// The numbers of eight lanes each.
#[inline(always)]
fn numbers_of_eight(lanes: u8x16) -> [u64; 2]
    ensures { result ≡ number_from_digits 10 (take 8 lanes) ∷ number_from_digits 10 (slice_range lanes 8 16) ∷ [] }
{
    let fours = u64x2::from_le_bytes(numbers_of_four(lanes).to_le_bytes());
    let first = fours & u64x2::splat(0xffff_ffff);
    let second = fours >> u64x2::splat(32);
    (first * u64x2::splat(10_000) + second).to_array()
}

/// The number of all lanes.
#[inline(always)]
fn number(lanes: u8x16) -> u64
    ensures { result ≡ number_from_digits 10 lanes }
{
    let eights = numbers_of_eight(lanes);
    eights[0] * 100_000_000 + eights[1]
}

/// The same as `run`, near the end of the bytes.
#[inline(never)]
fn last_run(bytes: &[u8], at: usize) -> (usize, u64)
    requires { at ≤ length bytes.now }
    ensures end { result.0 ≡ at + prefix_len is_ascii_digit (drop at bytes.now) }
    ensures within { result.0 ≤ length bytes.now }
    ensures value { result.1 ≡ digits_value 10 (slice_range bytes.now at result.0) % 2 ^ 64 }
{
    read_digits(bytes, at, 0)
}

/// The same where the run goes on behind sixteen digits.
#[inline(never)]
fn long_run(bytes: &[u8], at: usize) -> (usize, u64)
    requires room { at + 16 ≤ length bytes.now }
    requires long { prefix_len is_ascii_digit (drop at bytes.now) ≡ 16 + prefix_len is_ascii_digit (drop (at + 16) bytes.now) }
    ensures end { result.0 ≡ at + prefix_len is_ascii_digit (drop at bytes.now) }
    ensures within { result.0 ≤ length bytes.now }
    ensures value { result.1 ≡ digits_value 10 (slice_range bytes.now at result.0) % 2 ^ 64 }
{
    read_digits(bytes, at + 16, number(lanes_at(bytes, at)))
}

/// Where the digits from `at` on end, and the last 64 bits of what they write.
#[inline(always)]
fn run(bytes: &[u8], at: usize) -> (usize, u64)
    requires { at ≤ length bytes.now }
    ensures end { result.0 ≡ at + prefix_len is_ascii_digit (drop at bytes.now) }
    ensures within { result.0 ≤ length bytes.now }
    ensures value { result.1 ≡ digits_value 10 (slice_range bytes.now at result.0) % 2 ^ 64 }
{
    if bytes.len() - at < 16 {
        return last_run(bytes, at);
    }
    let lanes = lanes_at(bytes, at);
    let others = other_lanes(lanes);
    if others == 0 {
        return long_run(bytes, at);
    }
    let count = others.trailing_zeros() as usize;
    (at + count, number(move_to_end(lanes, count)))
}

/// The first place from `at` on that is no digit, and the last 64 bits of what the digits write.
#[inline(always)]
pub(super) fn digits(bytes: &[u8], at: usize) -> (usize, u64)
    requires { at ≤ length bytes.now }
    ensures low { at ≤ result.0 }
    ensures high { result.0 ≤ length bytes.now }
    ensures count { parse.digits_len (drop at bytes.now) ≡ result.0 - at }
    ensures digits { (k : ℕ) → at ≤ k → k < result.0 → (48 ≤ slice_index bytes.now k) × (slice_index bytes.now k ≤ 57) }
    ensures value { result.1 ≡ value_of (slice_range bytes.now at result.0) % 2 ^ 64 }
    ensures bound { value_of (slice_range bytes.now at result.0) < 10 ^ (result.0 - at) }
{
    run(bytes, at)
}
