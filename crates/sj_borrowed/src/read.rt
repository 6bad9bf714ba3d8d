//! Texts read as borrowed documents.

ghost use Rattle.std.specs.Prelude.{◌≡◌, ◌↔◌, true, IfOk, IfErr, IsErrOf, IsUtf8};
ghost use Rattle.std.specs.Cow.{cow_str_bytes};
ghost use Rattle.sj_text_core.specs.Keep.{keep};
ghost use Rattle.sj_text_core.specs.Readings.{IsReadAs, IsOnlyReadAs, IsReadFault};
ghost use Rattle.sj_text_core.specs.Repeats.{keep_by};
ghost use Rattle.sj_object.specs.Keys.{is_borrowed};
ghost use Rattle.sj_document.specs.Document.{document_tree, all_texts};

use crate::Value;
use sj_object::{deserialize, deserialize_repeats, deserialize_with_buffers};
use sj_tape::Buffers;
use sj_text_core::{ErrorKind, Repeats};
use std::alloc::Global;
use std::borrow::CowStr;

/// Reads one text (RFC 8259 without fractions and exponents) as a document whose texts and keys are
/// lent from the bytes: of each key the first member stays, at every depth. It is refused as
/// `to_tape` refuses, and as `OutOfMemory` where memory for the document was refused; nothing is then
/// said of the bytes.
pub fn to_value<'v>(alloc: Global, bytes: &'v mut [u8]) -> Result<Value<'v>, ErrorKind>
    // What is read is spelled so, within the limit, and nothing else is.
    ensures means { IfOk result (λ v. IsReadAs keep bytes.old (document_tree cow_str_bytes v)) }
    ensures only { IfOk result (λ v. IsOnlyReadAs keep bytes.old (document_tree cow_str_bytes v)) }
    // Every text and key is lent.
    ensures lent { IfOk result (λ v. all_texts is_borrowed v ≡ true) }
    // The bytes are no UTF-8.
    ensures utf8 { IsErrOf result ErrorKind.InvalidUtf8 ↔ ¬ (IsUtf8 bytes.old) }
    ensures err { IfErr result (IsReadFault bytes.old) }
{
    deserialize::<Value<'v>, CowStr<'v>>(alloc, bytes)
}

/// Reads as `to_value` does, with memory that the buffers keep for the next reading. The answer
/// depends on the text alone, and the buffers can be used again whatever it is.
pub fn to_value_with_buffers<'v>(
    alloc: Global,
    bytes: &'v mut [u8],
    buffers: &mut Buffers,
) -> Result<Value<'v>, ErrorKind>
    // What is read is spelled so, within the limit, and nothing else is.
    ensures means { IfOk result (λ v. IsReadAs keep bytes.old (document_tree cow_str_bytes v)) }
    ensures only { IfOk result (λ v. IsOnlyReadAs keep bytes.old (document_tree cow_str_bytes v)) }
    // Every text and key is lent.
    ensures lent { IfOk result (λ v. all_texts is_borrowed v ≡ true) }
    // The bytes are no UTF-8.
    ensures utf8 { IsErrOf result ErrorKind.InvalidUtf8 ↔ ¬ (IsUtf8 bytes.old) }
    ensures err { IfErr result (IsReadFault bytes.old) }
{
    deserialize_with_buffers::<Value<'v>, CowStr<'v>>(alloc, bytes, buffers)
}

/// Reads as `to_value` does; of each key the member that counts stays, in the place of the first.
pub fn to_value_repeats<'v>(
    alloc: Global,
    bytes: &'v mut [u8],
    repeats: Repeats,
) -> Result<Value<'v>, ErrorKind>
    // What is read is spelled so, within the limit, and nothing else is.
    ensures means { IfOk result (λ v. IsReadAs (keep_by repeats) bytes.old (document_tree cow_str_bytes v)) }
    ensures only { IfOk result (λ v. IsOnlyReadAs (keep_by repeats) bytes.old (document_tree cow_str_bytes v)) }
    // Every text and key is lent.
    ensures lent { IfOk result (λ v. all_texts is_borrowed v ≡ true) }
    // The bytes are no UTF-8.
    ensures utf8 { IsErrOf result ErrorKind.InvalidUtf8 ↔ ¬ (IsUtf8 bytes.old) }
    ensures err { IfErr result (IsReadFault bytes.old) }
{
    deserialize_repeats::<Value<'v>, CowStr<'v>>(alloc, bytes, repeats)
}

/// The same as `to_value`.
pub fn to_borrowed_value<'v>(alloc: Global, bytes: &'v mut [u8]) -> Result<Value<'v>, ErrorKind>
    // What is read is spelled so, within the limit, and nothing else is.
    ensures means { IfOk result (λ v. IsReadAs keep bytes.old (document_tree cow_str_bytes v)) }
    ensures only { IfOk result (λ v. IsOnlyReadAs keep bytes.old (document_tree cow_str_bytes v)) }
    // Every text and key is lent.
    ensures lent { IfOk result (λ v. all_texts is_borrowed v ≡ true) }
    // The bytes are no UTF-8.
    ensures utf8 { IsErrOf result ErrorKind.InvalidUtf8 ↔ ¬ (IsUtf8 bytes.old) }
    ensures err { IfErr result (IsReadFault bytes.old) }
{
    to_value(alloc, bytes)
}

/// The same as `to_value_with_buffers`.
pub fn to_borrowed_value_with_buffers<'v>(
    alloc: Global,
    bytes: &'v mut [u8],
    buffers: &mut Buffers,
) -> Result<Value<'v>, ErrorKind>
    // What is read is spelled so, within the limit, and nothing else is.
    ensures means { IfOk result (λ v. IsReadAs keep bytes.old (document_tree cow_str_bytes v)) }
    ensures only { IfOk result (λ v. IsOnlyReadAs keep bytes.old (document_tree cow_str_bytes v)) }
    // Every text and key is lent.
    ensures lent { IfOk result (λ v. all_texts is_borrowed v ≡ true) }
    // The bytes are no UTF-8.
    ensures utf8 { IsErrOf result ErrorKind.InvalidUtf8 ↔ ¬ (IsUtf8 bytes.old) }
    ensures err { IfErr result (IsReadFault bytes.old) }
{
    to_value_with_buffers(alloc, bytes, buffers)
}
