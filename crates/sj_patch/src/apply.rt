//! One operation on a document.

ghost use Rattle.std.specs.Prelude.{◌≡◌, ⊤, Ok, OnOk, IfErr};
ghost use Rattle.sj_document.specs.Document.{document_tree};
ghost use Rattle.sj_patch.specs.Patch.{added, replaced, copied, stayed, moved, tested, begins, applied};
ghost use Rattle.sj_patch.specs.Meant.{meant};
ghost use Rattle.sj_patch.specs.inner.Changed.{Refuses, undone};

use crate::change::Change;
use crate::error::Refusal;
use crate::operation::Operation;
use crate::removals::remove;
use crate::steps::{Undo, carry, change};
use sj_document::Document;
use sj_path::OwnedText;
use sj_path::owned::find;
use sj_pointer::Pointer;
use sj_text_core::OperationFault;

fn add<'o, T: OwnedText + Drop>(
    document: &mut Document<T>,
    path: &'o Pointer,
    value: Document<T>,
    log: &mut Vec<Undo<'o, T>>,
) -> Result<(), Refusal>
    ensures ok { OnOk result (added path.now (document_tree T.text_of value) (document_tree T.text_of document.old) ≡ Ok (document_tree T.text_of document.new)) }
    ensures fault { IfErr result (λ e. Refuses ⊤ e (added path.now (document_tree T.text_of value) (document_tree T.text_of document.old))) }
    ensures undo { undone T.text_of log.new.items (document_tree T.text_of document.new) ≡ undone T.text_of log.old.items (document_tree T.text_of document.old) }
{
    change(document, path, Change::Put(value), log)
}

fn replace<'o, T: OwnedText + Drop>(
    document: &mut Document<T>,
    path: &'o Pointer,
    value: Document<T>,
    log: &mut Vec<Undo<'o, T>>,
) -> Result<(), Refusal>
    ensures ok { OnOk result (replaced path.now (document_tree T.text_of value) (document_tree T.text_of document.old) ≡ Ok (document_tree T.text_of document.new)) }
    ensures fault { IfErr result (λ e. Refuses ⊤ e (replaced path.now (document_tree T.text_of value) (document_tree T.text_of document.old))) }
    ensures undo { undone T.text_of log.new.items (document_tree T.text_of document.new) ≡ undone T.text_of log.old.items (document_tree T.text_of document.old) }
{
    change(document, path, Change::Swap(value), log)
}

fn test<T: OwnedText + Drop>(
    document: &Document<T>,
    path: &Pointer,
    value: &Document<T>,
) -> Result<(), Refusal>
    ensures ok { OnOk result (tested path.now (document_tree T.text_of value.now) (document_tree T.text_of document.now) ≡ Ok (document_tree T.text_of document.now)) }
    ensures fault { IfErr result (λ e. Refuses ⊤ e (tested path.now (document_tree T.text_of value.now) (document_tree T.text_of document.now))) }
{
    match find(document, path) {
        Some(found) => {
            if *found == *value {
                Ok(())
            } else {
                Err(Refusal::Fault(OperationFault::Differs))
            }
        }
        None => Err(Refusal::Fault(OperationFault::Missing)),
    }
}

fn copy<'o, T: OwnedText + Drop>(
    document: &mut Document<T>,
    from: &Pointer,
    path: &'o Pointer,
    log: &mut Vec<Undo<'o, T>>,
) -> Result<(), Refusal>
    ensures ok { OnOk result (copied from.now path.now (document_tree T.text_of document.old) ≡ Ok (document_tree T.text_of document.new)) }
    ensures fault { IfErr result (λ e. Refuses ⊤ e (copied from.now path.now (document_tree T.text_of document.old))) }
    ensures undo { undone T.text_of log.new.items (document_tree T.text_of document.new) ≡ undone T.text_of log.old.items (document_tree T.text_of document.old) }
{
    match find(document, from) {
        Some(found) => {
            let value = found.clone()?;
            add(document, path, value, log)
        }
        None => Err(Refusal::Fault(OperationFault::Missing)),
    }
}

/// Whether the pointer reaches into what the other reaches, or the same.
fn is_within(path: &Pointer, other: &Pointer) -> bool
    ensures { result ≡ begins other.now path.now }
{
    path.begins_with(other)
}

/// What stands there stays.
fn stay<T: OwnedText + Drop>(document: &Document<T>, from: &Pointer) -> Result<(), Refusal>
    ensures ok { OnOk result (stayed from.now (document_tree T.text_of document.now) ≡ Ok (document_tree T.text_of document.now)) }
    ensures fault { IfErr result (λ e. Refuses ⊤ e (stayed from.now (document_tree T.text_of document.now))) }
{
    match find(document, from) {
        Some(_) => Ok(()),
        None => Err(Refusal::Fault(OperationFault::Missing)),
    }
}

/// What the document is, where the second pointer is refused, is not said.
fn shift<'o, T: OwnedText + Drop>(
    document: &mut Document<T>,
    from: &'o Pointer,
    path: &'o Pointer,
    log: &mut Vec<Undo<'o, T>>,
) -> Result<(), Refusal>
    ensures ok { OnOk result (moved from.now path.now (document_tree T.text_of document.old) ≡ Ok (document_tree T.text_of document.new)) }
    ensures fault { IfErr result (λ e. Refuses ⊤ e (moved from.now path.now (document_tree T.text_of document.old))) }
    ensures undo { undone T.text_of log.new.items (document_tree T.text_of document.new) ≡ undone T.text_of log.old.items (document_tree T.text_of document.old) }
{
    if is_within(path, from) {
        if is_within(from, path) {
            return stay(document, from);
        }
        return Err(Refusal::Fault(OperationFault::IntoItself));
    }
    carry(document, from, path, log)
}

/// Applies the operation. What the document is, where it is refused, is what undoing the log says.
pub(crate) fn apply<'o, T: OwnedText + Drop>(
    document: &mut Document<T>,
    operation: &'o Operation<T>,
    log: &mut Vec<Undo<'o, T>>,
) -> Result<(), Refusal>
    ensures ok { OnOk result (applied (meant T.text_of operation.now) (document_tree T.text_of document.old) ≡ Ok (document_tree T.text_of document.new)) }
    ensures fault { IfErr result (λ e. Refuses ⊤ e (applied (meant T.text_of operation.now) (document_tree T.text_of document.old))) }
    ensures undo { undone T.text_of log.new.items (document_tree T.text_of document.new) ≡ undone T.text_of log.old.items (document_tree T.text_of document.old) }
{
    match operation {
        Operation::Add { path, value } => add(document, path, value.clone()?, log),
        Operation::Remove { path } => remove(document, path, log),
        Operation::Replace { path, value } => replace(document, path, value.clone()?, log),
        Operation::Move { from, path } => shift(document, from, path, log),
        Operation::Copy { from, path } => copy(document, from, path, log),
        Operation::Test { path, value } => test(document, path, value),
    }
}
