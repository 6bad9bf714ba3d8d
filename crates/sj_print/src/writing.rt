//! Prints with their exact length reserved first.

ghost use Rattle.std.specs.Prelude.{◌≡◌, ◌↔◌, ◌+◌, ◌^◌, ◌≤◌, ◌++◌, length, take, IfOk, OnOk, OnErr, IfErr, IsErrOf, IsUtf8, string_bytes};
ghost use Rattle.sj_print.specs.Layouts.{laid, top};

use crate::layout::Layout;
use crate::output::{Count, Filling};
use crate::parts::Parts;
use crate::print::print;
use sj_text_core::WriteError;
use std::alloc::{AllocError, Global};

/// How many bytes there are with the print behind so many; `TooLong` where they are past
/// `usize::MAX`.
pub fn count<P: Parts>(
    value: &P,
    pretty: bool,
    before: usize,
    alloc: Global,
) -> Result<usize, WriteError>
    ensures ok { IfOk result (λ n. n ≡ before + length (laid (top pretty) (P.tree_of value.now))) }
    ensures err { OnErr result (2 ^ 64 ≤ before + length (laid (top pretty) (P.tree_of value.now))) }
    ensures why { IfErr result (λ e. e ≡ WriteError.TooLong) }
    ensures fits { OnOk result (before + length (laid (top pretty) (P.tree_of value.now)) + 1 ≤ 2 ^ 64) }
{
    print(value, Layout::top(pretty), alloc, Count::behind(before)).end()
}

/// Writes the value's print over the bytes from `at` on, up to their end.
fn fill<P: Parts>(value: &P, pretty: bool, out: &mut Vec<u8>, at: usize)
    requires { at + length (laid (top pretty) (P.tree_of value.now)) ≡ length out.old.items }
    ensures bytes { out.new.items ≡ take at out.old.items ++ laid (top pretty) (P.tree_of value.now) }
    ensures utf8 { IsUtf8 (laid (top pretty) (P.tree_of value.now)) }
{
    let alloc = *out.allocator();
    print(value, Layout::top(pretty), alloc, Filling { out, at });
}

/// Appends the value's print, which ends where `end` tells. It asks for its room at once; refused,
/// it leaves the bytes as they were.
pub fn write_counted<P: Parts>(
    value: &P,
    pretty: bool,
    end: usize,
    out: &mut Vec<u8>,
) -> Result<(), AllocError>
    requires { end ≡ length out.old.items + length (laid (top pretty) (P.tree_of value.now)) }
    ensures ok { OnOk result (out.new.items ≡ out.old.items ++ laid (top pretty) (P.tree_of value.now)) }
    ensures err { OnErr result (out.new.items ≡ out.old.items) }
{
    let at = out.len();
    // Why so: docs/REFUSED.md, "A vector can't be lengthened".
    out.resize(end, 0)?;
    fill(value, pretty, out, at);
    Ok(())
}

/// The value's print, which has so many bytes. It asks for them at once.
pub fn encode_counted<P: Parts>(
    value: &P,
    pretty: bool,
    len: usize,
    alloc: Global,
) -> Result<String, AllocError>
    requires { len ≡ length (laid (top pretty) (P.tree_of value.now)) }
    ensures { IfOk result (λ s. string_bytes s ≡ laid (top pretty) (P.tree_of value.now)) }
{
    let mut out = Vec::from_elem(alloc, 0, len)?;
    fill(value, pretty, &mut out, 0);
    // SAFETY: every part of a print is a text, which the check proves.
    Ok(unsafe { String::from_utf8_unchecked(out) })
}

/// Appends the value's print, for which its exact length is asked at once; `TooLong` where there
/// would be more than `usize::MAX` bytes. Refused, it leaves the bytes as they were.
pub fn write<P: Parts>(value: &P, pretty: bool, out: &mut Vec<u8>) -> Result<(), WriteError>
    ensures ok { OnOk result (out.new.items ≡ out.old.items ++ laid (top pretty) (P.tree_of value.now)) }
    ensures err { OnErr result (out.new.items ≡ out.old.items) }
    ensures too_long { IsErrOf result WriteError.TooLong ↔ (2 ^ 64 ≤ length out.old.items + length (laid (top pretty) (P.tree_of value.now))) }
{
    let end = count(value, pretty, out.len(), *out.allocator())?;
    Ok(write_counted(value, pretty, end, out)?)
}

/// The value's print, for which its exact length is asked at once; `TooLong` where that is past
/// `usize::MAX`.
pub fn encode<P: Parts>(value: &P, pretty: bool, alloc: Global) -> Result<String, WriteError>
    ensures ok { IfOk result (λ s. string_bytes s ≡ laid (top pretty) (P.tree_of value.now)) }
    ensures too_long { IsErrOf result WriteError.TooLong ↔ (2 ^ 64 ≤ length (laid (top pretty) (P.tree_of value.now))) }
{
    let len = count(value, pretty, 0, alloc)?;
    Ok(encode_counted(value, pretty, len, alloc)?)
}
