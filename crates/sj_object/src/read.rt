//! Texts read as documents.

ghost use Rattle.std.specs.Prelude.{◌↔◌, IfOk, IfErr, IsErrOf, IsUtf8};
ghost use Rattle.sj_text_core.specs.Keep.{keep};
ghost use Rattle.sj_text_core.specs.Readings.{IsReadAs, IsOnlyReadAs, IsReadFault};
ghost use Rattle.sj_text_core.specs.Repeats.{keep_by};

use crate::build::build_from_tape;
use crate::builder::Builder;
use crate::key::KeyOf;
use sj_tape::{Buffers, to_bare_tape, to_bare_tape_with_buffers};
use sj_text_core::{ErrorKind, Repeats};
use std::alloc::Global;

/// Reads one text (RFC 8259 without fractions and exponents) as a document: of each key the first
/// member stays, at every depth. It is refused as `to_tape` refuses, and as `OutOfMemory` where
/// memory for the document was refused; what was made of it is then given up, and nothing is said
/// of the bytes.
pub fn deserialize<'de, V: Builder<'de, Key>, Key: KeyOf<'de>>(
    alloc: Global,
    bytes: &'de mut [u8],
) -> Result<V, ErrorKind>
    // What is read is spelled so, within the limit, and nothing else is.
    ensures means { IfOk result (λ v. IsReadAs keep bytes.old (V.tree v)) }
    ensures only { IfOk result (λ v. IsOnlyReadAs keep bytes.old (V.tree v)) }
    ensures property { IfOk result V.built }
    // The bytes are no UTF-8.
    ensures utf8 { IsErrOf result ErrorKind.InvalidUtf8 ↔ ¬ (IsUtf8 bytes.old) }
    ensures err { IfErr result (IsReadFault bytes.old) }
{
    deserialize_repeats::<V, Key>(alloc, bytes, Repeats::First)
}

/// Reads as `deserialize` does; of each key the member that counts stays, in the place of the first.
pub fn deserialize_repeats<'de, V: Builder<'de, Key>, Key: KeyOf<'de>>(
    alloc: Global,
    bytes: &'de mut [u8],
    repeats: Repeats,
) -> Result<V, ErrorKind>
    // What is read is spelled so, within the limit, and nothing else is.
    ensures means { IfOk result (λ v. IsReadAs (keep_by repeats) bytes.old (V.tree v)) }
    ensures only { IfOk result (λ v. IsOnlyReadAs (keep_by repeats) bytes.old (V.tree v)) }
    ensures property { IfOk result V.built }
    // The bytes are no UTF-8.
    ensures utf8 { IsErrOf result ErrorKind.InvalidUtf8 ↔ ¬ (IsUtf8 bytes.old) }
    ensures err { IfErr result (IsReadFault bytes.old) }
{
    let tape = to_bare_tape(alloc, bytes)?;
    match build_from_tape::<V, Key>(alloc, tape.as_value_repeats(repeats)) {
        Ok(value) => Ok(value),
        Err(_) => Err(ErrorKind::OutOfMemory),
    }
}

/// Reads as `deserialize` does, with memory that the buffers keep for the next reading. The
/// answer depends on the text alone, and the buffers can be used again whatever it is.
pub fn deserialize_with_buffers<'de, V: Builder<'de, Key>, Key: KeyOf<'de>>(
    alloc: Global,
    bytes: &'de mut [u8],
    buffers: &mut Buffers,
) -> Result<V, ErrorKind>
    // What is read is spelled so, within the limit, and nothing else is.
    ensures means { IfOk result (λ v. IsReadAs keep bytes.old (V.tree v)) }
    ensures only { IfOk result (λ v. IsOnlyReadAs keep bytes.old (V.tree v)) }
    ensures property { IfOk result V.built }
    // The bytes are no UTF-8.
    ensures utf8 { IsErrOf result ErrorKind.InvalidUtf8 ↔ ¬ (IsUtf8 bytes.old) }
    ensures err { IfErr result (IsReadFault bytes.old) }
{
    let tape = to_bare_tape_with_buffers(alloc, bytes, buffers)?;
    match build_from_tape::<V, Key>(alloc, tape.as_value()) {
        Ok(value) => Ok(value),
        Err(_) => Err(ErrorKind::OutOfMemory),
    }
}
