//! Texts that are lent to read, copied once into a room from which the document lends.

ghost use Rattle.std.specs.Prelude.{◌≡◌, ◌≢◌, ◌⊎◌, true, IfOk, IfErr, IsErrOf, IsUtf8};
ghost use Rattle.std.specs.Cow.{cow_str_bytes};
ghost use Rattle.sj_text_core.specs.Grammar.{IsReadable};
ghost use Rattle.sj_text_core.specs.Keep.{keep};
ghost use Rattle.sj_text_core.specs.Readings.{IsReadAs, IsOnlyReadAs, IsReadFault};
ghost use Rattle.sj_object.specs.Keys.{is_borrowed};
ghost use Rattle.sj_document.specs.Document.{document_tree, all_texts};

use crate::Value;
use crate::read::to_value;
use sj_text_core::ErrorKind;
use std::alloc::Global;

/// Reads bytes that stay as they are, as `to_value` reads a copy of them, which is put in the place of
/// what `room` had; want of memory for the copy is `OutOfMemory` too.
pub fn from_slice<'v>(
    alloc: Global,
    bytes: &[u8],
    room: &'v mut Vec<u8>,
) -> Result<Value<'v>, ErrorKind>
    ensures means { IfOk result (λ v. IsReadAs keep bytes.now (document_tree cow_str_bytes v)) }
    ensures only { IfOk result (λ v. IsOnlyReadAs keep bytes.now (document_tree cow_str_bytes v)) }
    ensures lent { IfOk result (λ v. all_texts is_borrowed v ≡ true) }
    ensures utf8 { IsErrOf result ErrorKind.InvalidUtf8 → ¬ (IsUtf8 bytes.now) }
    ensures broken { ¬ (IsUtf8 bytes.now) → IsErrOf result ErrorKind.InvalidUtf8 ⊎ IsErrOf result ErrorKind.OutOfMemory }
    ensures err { IfErr result (IsReadFault bytes.now) }
{
    room.clear();
    room.extend_from_slice(bytes)?;
    to_value(alloc, room.as_mut_slice())
}

/// Reads a text that stays as it is, as `to_value` reads a copy of it, which is put in the place of
/// what `room` had; want of memory for the copy is `OutOfMemory` too.
pub fn from_str<'v>(
    alloc: Global,
    text: &str,
    room: &'v mut Vec<u8>,
) -> Result<Value<'v>, ErrorKind>
    ensures means { IfOk result (λ v. IsReadAs keep text.now (document_tree cow_str_bytes v)) }
    ensures only { IfOk result (λ v. IsOnlyReadAs keep text.now (document_tree cow_str_bytes v)) }
    ensures lent { IfOk result (λ v. all_texts is_borrowed v ≡ true) }
    ensures err { IfErr result (λ e. e ≢ ErrorKind.OutOfMemory → ¬ (IsReadable text.now)) }
{
    from_slice(alloc, text.as_bytes(), room)
}
