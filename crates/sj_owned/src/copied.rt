//! Texts that are lent to read, copied once.

ghost use Rattle.std.specs.Prelude.{◌≢◌, ◌⊎◌, IfOk, IfErr, IsErrOf, IsUtf8, string_bytes};
ghost use Rattle.sj_text_core.specs.Grammar.{IsReadable};
ghost use Rattle.sj_text_core.specs.Keep.{keep};
ghost use Rattle.sj_text_core.specs.Readings.{IsReadAs, IsOnlyReadAs, IsReadFault};
ghost use Rattle.sj_document.specs.Document.{document_tree};

use crate::Value;
use crate::read::to_value;
use sj_text_core::ErrorKind;
use std::alloc::Global;

/// Reads bytes that stay as they are, as `to_value` reads a copy of them; want of memory for the copy
/// is `OutOfMemory` too.
pub fn from_slice(alloc: Global, bytes: &[u8]) -> Result<Value, ErrorKind>
    ensures means { IfOk result (λ v. IsReadAs keep bytes.now (document_tree string_bytes v)) }
    ensures only { IfOk result (λ v. IsOnlyReadAs keep bytes.now (document_tree string_bytes v)) }
    ensures utf8 { IsErrOf result ErrorKind.InvalidUtf8 → ¬ (IsUtf8 bytes.now) }
    ensures broken { ¬ (IsUtf8 bytes.now) → IsErrOf result ErrorKind.InvalidUtf8 ⊎ IsErrOf result ErrorKind.OutOfMemory }
    ensures err { IfErr result (IsReadFault bytes.now) }
{
    let mut copy = Vec::from_slice(alloc, bytes)?;
    to_value(alloc, copy.as_mut_slice())
}

/// Reads a text that stays as it is, as `to_value` reads a copy of it; want of memory for the copy is
/// `OutOfMemory` too.
pub fn from_str(alloc: Global, text: &str) -> Result<Value, ErrorKind>
    ensures means { IfOk result (λ v. IsReadAs keep text.now (document_tree string_bytes v)) }
    ensures only { IfOk result (λ v. IsOnlyReadAs keep text.now (document_tree string_bytes v)) }
    ensures err { IfErr result (λ e. e ≢ ErrorKind.OutOfMemory → ¬ (IsReadable text.now)) }
{
    from_slice(alloc, text.as_bytes())
}
