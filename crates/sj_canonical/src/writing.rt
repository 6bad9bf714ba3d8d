//! Canonical prints of whole values.

ghost use Rattle.std.specs.Prelude.{◌≡◌, ◌↔◌, ◌+◌, ◌^◌, ◌≤◌, ◌++◌, length, IfOk, OnOk, OnErr, IsErrOf, string_bytes};
ghost use Rattle.sj_text_core.specs.Print.{compact};
ghost use Rattle.sj_text_core.specs.inner.Begun.{IsBegunBy};
ghost use Rattle.sj_canonical.specs.Canonical.{canonical_by};

use crate::walk::walk;
use sj_print::{DumpGenerator, Parts, WriterGenerator, count};
use sj_text_core::{Repeats, WriteError};
use std::alloc::{AllocError, Global};

/// Appends the value's canonical print. Refused, it leaves what was there, and maybe a part of it behind.
fn append<P: Parts>(value: &P, choice: Repeats, out: &mut Vec<u8>) -> Result<(), AllocError>
    ensures ok { OnOk result (out.new.items ≡ out.old.items ++ compact (canonical_by choice (P.tree_of value.now))) }
    ensures begun { IsBegunBy out.old.items out.new.items }
{
    let alloc = *out.allocator();
    walk(value, choice, alloc, &mut WriterGenerator::new(out))
}

/// Appends the value's canonical print (RFC 8785): no whitespace, and of each key the member that
/// counts, in the order of the keys' UTF-16 units. `TooLong` where there would be more than
/// `usize::MAX` bytes with every member. Refused, it leaves the bytes as they were.
pub fn write<P: Parts>(value: &P, choice: Repeats, out: &mut Vec<u8>) -> Result<(), WriteError>
    ensures ok { OnOk result (out.new.items ≡ out.old.items ++ compact (canonical_by choice (P.tree_of value.now))) }
    ensures err { OnErr result (out.new.items ≡ out.old.items) }
    ensures too_long { IsErrOf result WriteError.TooLong ↔ (2 ^ 64 ≤ length out.old.items + length (compact (P.tree_of value.now))) }
{
    let at = out.len();
    let end = count(value, false, at, *out.allocator())?;
    out.reserve(end - at)?;
    match append(value, choice, out) {
        Ok(()) => Ok(()),
        Err(refused) => {
            out.truncate(at);
            Err(WriteError::from(refused))
        }
    }
}

/// The value's canonical print (RFC 8785): no whitespace, and of each key the member that counts, in
/// the order of the keys' UTF-16 units. `TooLong` where it would have more than `usize::MAX` bytes with
/// every member.
pub fn encode<P: Parts>(value: &P, choice: Repeats, alloc: Global) -> Result<String, WriteError>
    ensures ok { IfOk result (λ s. string_bytes s ≡ compact (canonical_by choice (P.tree_of value.now))) }
    ensures too_long { IsErrOf result WriteError.TooLong ↔ (2 ^ 64 ≤ length (compact (P.tree_of value.now))) }
{
    count(value, false, 0, alloc)?;
    let mut generator = DumpGenerator::new(alloc);
    walk(value, choice, alloc, &mut generator)?;
    Ok(generator.consume())
}
