//! Patches: operations in order, all of them or none.

ghost use Rattle.std.specs.Prelude.{◌≡◌, Ok, map, OnOk, OnErr, IfErr};
ghost use Rattle.sj_document.specs.Document.{document_tree, IsAsItWas};
ghost use Rattle.sj_patch.specs.Patch.{patched};
ghost use Rattle.sj_patch.specs.Meant.{IsFaultOf, meant};
ghost use Rattle.sj_patch.specs.inner.Changed.{undone};

use crate::apply::apply;
use crate::error::Refusal;
use crate::operation::Operation;
use crate::steps::{Undo, undo_all};
use sj_document::Document;
use sj_path::OwnedText;
use sj_text_core::PatchFault;
use std::alloc::Global;

fn apply_all<'o, T: OwnedText + Drop>(
    document: &mut Document<T>,
    operations: &'o [Operation<T>],
    log: &mut Vec<Undo<'o, T>>,
) -> Result<(), PatchFault>
    ensures ok { OnOk result (patched (map (meant T.text_of) operations.now) (document_tree T.text_of document.old) ≡ Ok (document_tree T.text_of document.new)) }
    ensures fault { IfErr result (λ e. IsFaultOf e (patched (map (meant T.text_of) operations.now) (document_tree T.text_of document.old))) }
    ensures undo { undone T.text_of log.new.items (document_tree T.text_of document.new) ≡ undone T.text_of log.old.items (document_tree T.text_of document.old) }
{
    for index in 0..operations.len() {
        match apply(document, &operations[index], log) {
            Ok(()) => (),
            Err(Refusal::Fault(why)) => return Err(PatchFault::Failed(index, why)),
            Err(Refusal::OutOfMemory) => return Err(PatchFault::OutOfMemory),
        }
    }
    Ok(())
}

/// Applies the operations in order, all of them or none (RFC 6902, section 5). Refused, by a fault
/// or for want of memory, the document means the tree that it meant.
pub fn patch<T: OwnedText + Drop>(
    alloc: Global,
    document: &mut Document<T>,
    operations: &[Operation<T>],
) -> Result<(), PatchFault>
    ensures ok { OnOk result (patched (map (meant T.text_of) operations.now) (document_tree T.text_of document.old) ≡ Ok (document_tree T.text_of document.new)) }
    ensures fault { IfErr result (λ e. IsFaultOf e (patched (map (meant T.text_of) operations.now) (document_tree T.text_of document.old))) }
    ensures kept { OnErr result (IsAsItWas T.text_of document.old document.new) }
{
    let mut log = Vec::new(alloc);
    match apply_all(document, operations, &mut log) {
        Ok(()) => Ok(()),
        Err(fault) => {
            undo_all(document, log);
            Err(fault)
        }
    }
}
