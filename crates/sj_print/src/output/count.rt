//! How many bytes a print has.

ghost use Rattle.std.specs.Prelude.{◌≡◌, ℕ, ◌+◌, ◌-◌, ◌^◌, min, length};
ghost use Rattle.sj_print.specs.Printed.{frame_len};

use super::Output;
use super::decimal::static_len;
use sj_text_core::{StaticNode, WriteError};

/// How many bytes were put. From 2^64 on it is only known that they are as many.
#[derive(Clone, Copy, Debug)]
pub struct Count {
    pub total: u128,
}

/// How many bytes the brackets around so many parts have, and the commas between them.
#[inline(always)]
fn frame_len(parts: usize) -> u128
    ensures { result ≡ frame_len parts }
{
    2 + parts.saturating_sub(1) as u128
}

impl Count {
    ghost use Rattle.std.specs.Prelude.{◌≤◌, IfOk, OnOk, OnErr, IfErr};
    ghost use Rattle.sj_print.specs.Printed.{IsCounted, Counts};

    /// With so many bytes more.
    #[inline(always)]
    fn with(self, more: u128) -> Count
        ensures { Counts more self result }
    {
        Count {
            total: self.total.saturating_add(more),
        }
    }

    /// A count that begins behind so many bytes.
    pub fn behind(before: usize) -> Count
        ensures { result.total ≡ before }
    {
        Count {
            total: before as u128,
        }
    }

    /// With the brackets of an array of so many items and the commas between them, in a compact
    /// print.
    #[inline(always)]
    pub fn with_array(self, items: usize) -> Count
        ensures { Counts (frame_len items) self result }
    {
        self.with(frame_len(items))
    }

    /// With the brackets of an object of so many members, the commas between them and their colons,
    /// in a compact print.
    #[inline(always)]
    pub fn with_object(self, members: usize) -> Count
        ensures { Counts (frame_len members + members) self result }
    {
        self.with(frame_len(members) + members as u128)
    }

    /// How many bytes they are; `TooLong` where that is past `usize::MAX`.
    pub fn end(self) -> Result<usize, WriteError>
        ensures ok { (n : ℕ) → IsCounted n self → IfOk result (λ end. end ≡ n) }
        ensures err { (n : ℕ) → IsCounted n self → OnErr result (2 ^ 64 ≤ n) }
        ensures why { IfErr result (λ e. e ≡ WriteError.TooLong) }
        ensures fits { (n : ℕ) → IsCounted n self → OnOk result (n + 1 ≤ 2 ^ 64) }
    {
        if self.total < 0x1_0000_0000_0000_0000 {
            Ok(self.total as usize)
        } else {
            Err(WriteError::TooLong)
        }
    }
}

impl Output for Count {
    // how many bytes are in front
    ghost Start = { ℕ };

    ghost holds = { λ start c b. min c.total (2 ^ 64) ≡ min (start + length b) (2 ^ 64) };

    #[inline(always)]
    fn put_bytes(self, bytes: &[u8]) -> Self {
        self.with(bytes.len() as u128)
    }

    #[inline(always)]
    fn put_between(self, before: &[u8], bytes: &[u8], behind: &[u8]) -> Self {
        let around = before.len() as u128 + behind.len() as u128;
        self.with(around + bytes.len() as u128)
    }

    #[inline(always)]
    fn put_static(self, node: StaticNode) -> Self {
        self.with(static_len(node) as u128)
    }

    #[inline(always)]
    fn put_line(self, spaces: usize) -> Self {
        self.with(spaces as u128 + 1)
    }
}
