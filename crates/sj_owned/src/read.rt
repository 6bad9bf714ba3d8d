//! Texts read as owned documents.

ghost use Rattle.std.specs.Prelude.{◌↔◌, IfOk, IfErr, IsErrOf, IsUtf8, string_bytes};
ghost use Rattle.sj_text_core.specs.Keep.{keep};
ghost use Rattle.sj_text_core.specs.Readings.{IsReadAs, IsOnlyReadAs, IsReadFault};
ghost use Rattle.sj_text_core.specs.Repeats.{keep_by};
ghost use Rattle.sj_document.specs.Document.{document_tree};

use crate::Value;
use sj_object::{deserialize, deserialize_repeats, deserialize_with_buffers};
use sj_tape::Buffers;
use sj_text_core::{ErrorKind, Repeats};
use std::alloc::Global;

/// Reads one text (RFC 8259 without fractions and exponents) as a document whose texts are copied out
/// of the bytes: of each key the first member stays, at every depth. It is refused as `to_tape`
/// refuses, and as `OutOfMemory` where memory for the document was refused; nothing is then said of
/// the bytes.
pub fn to_value(alloc: Global, bytes: &mut [u8]) -> Result<Value, ErrorKind>
    // What is read is spelled so, within the limit, and nothing else is.
    ensures means { IfOk result (λ v. IsReadAs keep bytes.old (document_tree string_bytes v)) }
    ensures only { IfOk result (λ v. IsOnlyReadAs keep bytes.old (document_tree string_bytes v)) }
    // The bytes are no UTF-8.
    ensures utf8 { IsErrOf result ErrorKind.InvalidUtf8 ↔ ¬ (IsUtf8 bytes.old) }
    ensures err { IfErr result (IsReadFault bytes.old) }
{
    deserialize::<Value, String>(alloc, bytes)
}

/// Reads as `to_value` does, with memory that the buffers keep for the next reading. The answer
/// depends on the text alone, and the buffers can be used again whatever it is.
pub fn to_value_with_buffers(
    alloc: Global,
    bytes: &mut [u8],
    buffers: &mut Buffers,
) -> Result<Value, ErrorKind>
    // What is read is spelled so, within the limit, and nothing else is.
    ensures means { IfOk result (λ v. IsReadAs keep bytes.old (document_tree string_bytes v)) }
    ensures only { IfOk result (λ v. IsOnlyReadAs keep bytes.old (document_tree string_bytes v)) }
    // The bytes are no UTF-8.
    ensures utf8 { IsErrOf result ErrorKind.InvalidUtf8 ↔ ¬ (IsUtf8 bytes.old) }
    ensures err { IfErr result (IsReadFault bytes.old) }
{
    deserialize_with_buffers::<Value, String>(alloc, bytes, buffers)
}

/// Reads as `to_value` does; of each key the member that counts stays, in the place of the first.
pub fn to_value_repeats(
    alloc: Global,
    bytes: &mut [u8],
    repeats: Repeats,
) -> Result<Value, ErrorKind>
    // What is read is spelled so, within the limit, and nothing else is.
    ensures means { IfOk result (λ v. IsReadAs (keep_by repeats) bytes.old (document_tree string_bytes v)) }
    ensures only { IfOk result (λ v. IsOnlyReadAs (keep_by repeats) bytes.old (document_tree string_bytes v)) }
    // The bytes are no UTF-8.
    ensures utf8 { IsErrOf result ErrorKind.InvalidUtf8 ↔ ¬ (IsUtf8 bytes.old) }
    ensures err { IfErr result (IsReadFault bytes.old) }
{
    deserialize_repeats::<Value, String>(alloc, bytes, repeats)
}

/// The same as `to_value`.
pub fn to_owned_value(alloc: Global, bytes: &mut [u8]) -> Result<Value, ErrorKind>
    // What is read is spelled so, within the limit, and nothing else is.
    ensures means { IfOk result (λ v. IsReadAs keep bytes.old (document_tree string_bytes v)) }
    ensures only { IfOk result (λ v. IsOnlyReadAs keep bytes.old (document_tree string_bytes v)) }
    // The bytes are no UTF-8.
    ensures utf8 { IsErrOf result ErrorKind.InvalidUtf8 ↔ ¬ (IsUtf8 bytes.old) }
    ensures err { IfErr result (IsReadFault bytes.old) }
{
    to_value(alloc, bytes)
}

/// The same as `to_value_with_buffers`.
pub fn to_owned_value_with_buffers(
    alloc: Global,
    bytes: &mut [u8],
    buffers: &mut Buffers,
) -> Result<Value, ErrorKind>
    // What is read is spelled so, within the limit, and nothing else is.
    ensures means { IfOk result (λ v. IsReadAs keep bytes.old (document_tree string_bytes v)) }
    ensures only { IfOk result (λ v. IsOnlyReadAs keep bytes.old (document_tree string_bytes v)) }
    // The bytes are no UTF-8.
    ensures utf8 { IsErrOf result ErrorKind.InvalidUtf8 ↔ ¬ (IsUtf8 bytes.old) }
    ensures err { IfErr result (IsReadFault bytes.old) }
{
    to_value_with_buffers(alloc, bytes, buffers)
}
