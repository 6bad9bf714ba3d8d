//! Patch documents read into operations (RFC 6902, sections 3 and 4).

ghost use Rattle.std.specs.Prelude.{◌≡◌, ◌∷◌, List, Ok, IfOk, IfErr, map};
ghost use Rattle.std.specs.Vec.Iter.{into_iter_items};
ghost use Rattle.sj_text_core.specs.Reads.{as_items};
ghost use Rattle.sj_text_core.specs.Tree.{items_from};
ghost use Rattle.sj_document.specs.Document.{document_tree};
ghost use Rattle.sj_patch.specs.inner.Filled.{filled, filled_all, filled_in, value_or_null};
ghost use Rattle.sj_patch.specs.Meant.{meant};
ghost use Rattle.sj_patch.specs.Patch.{PlainOperation};
ghost use Rattle.sj_patch.specs.Operations.{IsFaultIn, from_at, kind_of_item, operation_in, operation_of, operations_from, or_flaw, patch_in, tokens_at, value_member};
ghost use Rattle.sj_patch.specs.inner.Operations.{IsFlawIn};

use crate::error::Unread;
use crate::operation::Operation;
use sj_document::Document;
use sj_object::KeyText;
use sj_pointer::{Pointer, PointerError, pointer};
use sj_text_core::{ItemFault, PatchReadFault, Refused, TypedValue, ValueAsScalar};
use std::alloc::Global;
use std::vec::IntoIter;

/// Which operation an item names.
#[derive(Clone, Copy, Debug, PartialEq, Eq)]
pub(crate) enum Kind {
    Add,
    Remove,
    Replace,
    Move,
    Copy,
    Test,
}

/// The operation that the member "op" names; an item that is no object is refused first.
fn kind_in<T: KeyText>(item: &Document<T>) -> Result<Kind, ItemFault>
    ensures { result ≡ kind_of_item (document_tree T.text_of item.now) }
{
    if !item.is_object() {
        return Err(ItemFault::NotAnObject);
    }
    match item.get_str("op") {
        Some("add") => Ok(Kind::Add),
        Some("remove") => Ok(Kind::Remove),
        Some("replace") => Ok(Kind::Replace),
        Some("move") => Ok(Kind::Move),
        Some("copy") => Ok(Kind::Copy),
        Some("test") => Ok(Kind::Test),
        _ => Err(ItemFault::Op),
    }
}

/// The pointer of the member with that name; where there is none, the flaw.
fn pointer_in<T: KeyText>(
    alloc: Global,
    item: &Document<T>,
    name: &str,
    flaw: ItemFault,
) -> Result<Pointer, Unread>
    ensures ok { IfOk result (λ pointer. or_flaw flaw (tokens_at name.now (document_tree T.text_of item.now)) ≡ Ok pointer) }
    ensures fault { IfErr result (λ e. IsFlawIn e (or_flaw flaw (tokens_at name.now (document_tree T.text_of item.now)))) }
{
    let Some(text) = item.get_str(name) else {
        return Err(Unread::Flaw(flaw));
    };
    match pointer(alloc, text) {
        Ok(pointer) => Ok(pointer),
        Err(PointerError::OutOfMemory) => Err(Unread::OutOfMemory),
        Err(PointerError::NoSlash | PointerError::BadTilde) => Err(Unread::Flaw(flaw)),
    }
}

/// A null, where the item's value is to go; an item without one is refused.
fn place_in<T: KeyText>(item: &Document<T>) -> Result<Document<T>, ItemFault>
    ensures ok { IfOk result (λ _. value_member (document_tree T.text_of item.now) ≡ Ok (value_or_null (document_tree T.text_of item.now))) }
    ensures fault { IfErr result (λ flaw. value_member (document_tree T.text_of item.now) ≡ Err flaw) }
{
    if item.contains_key("value") {
        Ok(Document::null())
    } else {
        Err(ItemFault::Value)
    }
}

/// The pointer of the member "from".
fn from_in<T: KeyText>(alloc: Global, item: &Document<T>) -> Result<Pointer, Unread>
    ensures ok { IfOk result (λ pointer. from_at (document_tree T.text_of item.now) ≡ Ok pointer) }
    ensures fault { IfErr result (λ e. IsFlawIn e (from_at (document_tree T.text_of item.now))) }
{
    pointer_in(alloc, item, "from", ItemFault::From)
}

/// The operation of that kind, with a null in the place of its value.
fn operation_at<T: KeyText + Drop>(
    alloc: Global,
    item: &Document<T>,
    kind: Kind,
    path: Pointer,
) -> Result<Operation<T>, Unread>
    ensures ok { IfOk result (λ operation. operation_of kind path (document_tree T.text_of item.now) ≡ Ok (filled (meant T.text_of operation) (document_tree T.text_of item.now))) }
    ensures fault { IfErr result (λ e. IsFlawIn e (operation_of kind path (document_tree T.text_of item.now))) }
{
    match kind {
        Kind::Add => Ok(Operation::Add {
            path,
            value: place_in(item)?,
        }),
        Kind::Remove => Ok(Operation::Remove { path }),
        Kind::Replace => Ok(Operation::Replace {
            path,
            value: place_in(item)?,
        }),
        Kind::Move => Ok(Operation::Move {
            from: from_in(alloc, item)?,
            path,
        }),
        Kind::Copy => Ok(Operation::Copy {
            from: from_in(alloc, item)?,
            path,
        }),
        Kind::Test => Ok(Operation::Test {
            path,
            value: place_in(item)?,
        }),
    }
}

/// The operation that the item is, with a null in the place of its value.
fn plan_item<T: KeyText + Drop>(alloc: Global, item: &Document<T>) -> Result<Operation<T>, Unread>
    ensures ok { IfOk result (λ operation. operation_in (document_tree T.text_of item.now) ≡ Ok (filled (meant T.text_of operation) (document_tree T.text_of item.now))) }
    ensures fault { IfErr result (λ e. IsFlawIn e (operation_in (document_tree T.text_of item.now))) }
{
    let kind = kind_in(item)?;
    let path = pointer_in(alloc, item, "path", ItemFault::Path)?;
    operation_at(alloc, item, kind, path)
}

/// The operations that the items are, each with a null in the place of its value.
fn plan_items<T: KeyText + Drop>(
    alloc: Global,
    items: &[Document<T>],
) -> Result<Vec<Operation<T>>, PatchReadFault>
    ensures ok { IfOk result (λ operations. operations_from 0 (items_from (map (document_tree T.text_of) items.now)) ≡ Ok (filled_all (map (meant T.text_of) operations.items) (items_from (map (document_tree T.text_of) items.now)))) }
    ensures fault { IfErr result (λ e. IsFaultIn e (operations_from 0 (items_from (map (document_tree T.text_of) items.now)))) }
{
    let mut operations = Vec::with_capacity(alloc, items.len())?;
    for (index, item) in items.iter().enumerate() {
        match plan_item(alloc, item) {
            Ok(operation) => operations.push(operation)?,
            Err(unread) => return Err(unread.of_item(index)),
        }
    }
    Ok(operations)
}

/// The operations that the document lists, each with a null in the place of its value.
fn plan<T: KeyText + Drop>(
    alloc: Global,
    document: &Document<T>,
) -> Result<Vec<Operation<T>>, PatchReadFault>
    ensures ok { IfOk result (λ operations. patch_in (document_tree T.text_of document.now) ≡ Ok (filled_in (as_items (document_tree T.text_of document.now)) (map (meant T.text_of) operations.items))) }
    ensures fault { IfErr result (λ e. IsFaultIn e (patch_in (document_tree T.text_of document.now))) }
{
    match document.as_array() {
        Some(items) => plan_items(alloc, items),
        None => Err(PatchReadFault::NotAnArray),
    }
}

/// The value of the item; a null where it has none.
fn value_of<T: KeyText + Drop>(item: Document<T>) -> Document<T>
    ensures { document_tree T.text_of result ≡ value_or_null (document_tree T.text_of item) }
{
    match item.into_object() {
        Some(mut members) => members.remove("value").unwrap_or_default(),
        None => Document::null(),
    }
}

/// Moves the value of the item to the operation, where it takes one.
fn fill<T: KeyText + Drop>(operation: &mut Operation<T>, item: Document<T>)
    ensures { meant T.text_of operation.new ≡ filled (meant T.text_of operation.old) (document_tree T.text_of item) }
{
    match operation {
        Operation::Add { path: _, value } => *value = value_of(item),
        Operation::Replace { path: _, value } => *value = value_of(item),
        Operation::Test { path: _, value } => *value = value_of(item),
        Operation::Remove { .. } | Operation::Move { .. } | Operation::Copy { .. } => {}
    }
}

/// Moves the value of the next item to the operation. Where no item is left, the operation stays.
fn fill_next<T: KeyText + Drop>(operation: &mut Operation<T>, items: &mut IntoIter<Document<T>>)
    ensures { (os : List PlainOperation) → filled_all (meant T.text_of operation.old ∷ os) (items_from (map (document_tree T.text_of) (into_iter_items items.old))) ≡ meant T.text_of operation.new ∷ filled_all os (items_from (map (document_tree T.text_of) (into_iter_items items.new))) }
{
    match items.next() {
        Some(item) => fill(operation, item),
        None => {}
    }
}

/// Moves the value of each item to the operation in its place.
fn fill_all<T: KeyText + Drop>(operations: &mut [Operation<T>], items: Vec<Document<T>>)
    ensures { map (meant T.text_of) operations.new ≡ filled_all (map (meant T.text_of) operations.old) (items_from (map (document_tree T.text_of) items.items)) }
{
    let mut items = items.into_iter();
    for operation in operations.iter_mut() {
        fill_next(operation, &mut items);
    }
}

/// The operations that a patch document lists. Their values are moved out of it.
///
/// The first item that is no operation is refused by its number, counted from 0, and what is wrong
/// with it: it is looked into for "op", "path", and then "from" or "value" where the operation takes
/// one. Other members are ignored. A document that is refused is handed back whole.
pub fn operations_of<T: KeyText + Drop>(
    alloc: Global,
    document: Document<T>,
) -> Result<Vec<Operation<T>>, Refused<PatchReadFault, Document<T>>>
    ensures ok { IfOk result (λ operations. patch_in (document_tree T.text_of document) ≡ Ok (map (meant T.text_of) operations.items)) }
    ensures fault { IfErr result (λ refused. IsFaultIn refused.why (patch_in (document_tree T.text_of document))) }
    ensures value { IfErr result (λ refused. refused.value ≡ document) }
{
    let mut operations = match plan(alloc, &document) {
        Ok(operations) => operations,
        Err(why) => return Err(Refused {
            why,
            value: document,
        }),
    };
    match document.into_array() {
        Some(items) => {
            fill_all(&mut operations, items);
            Ok(operations)
        }
        None => Ok(operations),
    }
}
