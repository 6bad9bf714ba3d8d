//! Copies to a place where there is room for them. A short text is two copies of one size, which
//! overlap.

ghost use Rattle.std.specs.Prelude.{◌≡◌, ◌+◌, ◌≤◌, ◌++◌, length, take};

use std::simd::Simd;

/// Copies the first `N` bytes.
#[inline(always)]
fn place_front<const N: usize>(out: &mut [u8], at: usize, bytes: &[u8])
    requires { (N ≤ length bytes.now) × (at + N ≤ length out.old) }
    ensures written { take (at + N) out.new ≡ take at out.old ++ take N bytes.now }
    ensures len { length out.new ≡ length out.old }
{
    Simd::<u8, N>::from_slice(bytes).copy_to_slice(&mut out[at..]);
}

/// Copies at least `N` bytes, and at most twice as many.
#[inline(always)]
fn place_ends<const N: usize>(out: &mut [u8], at: usize, bytes: &[u8])
    requires { (N ≤ length bytes.now) × (length bytes.now ≤ N + N) × (at + length bytes.now ≤ length out.old) }
    ensures written { take (at + length bytes.now) out.new ≡ take at out.old ++ bytes.now }
    ensures len { length out.new ≡ length out.old }
{
    let last = bytes.len() - N;
    place_front::<N>(out, at, bytes);
    place_front::<N>(out, at + last, &bytes[last..]);
}

/// Copies the bytes.
#[inline(always)]
pub(super) fn place(out: &mut [u8], at: usize, bytes: &[u8])
    requires { at + length bytes.now ≤ length out.old }
    ensures written { take (at + length bytes.now) out.new ≡ take at out.old ++ bytes.now }
    ensures len { length out.new ≡ length out.old }
{
    let len = bytes.len();
    if len > 32 {
        out[at..at + len].copy_from_slice(bytes);
    } else if len >= 16 {
        place_ends::<16>(out, at, bytes);
    } else if len >= 8 {
        place_ends::<8>(out, at, bytes);
    } else if len >= 4 {
        place_ends::<4>(out, at, bytes);
    } else if len >= 2 {
        place_ends::<2>(out, at, bytes);
    } else if len == 1 {
        out[at] = bytes[0];
    }
}
