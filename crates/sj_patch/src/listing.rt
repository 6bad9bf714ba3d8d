//! Operations written as a patch document (RFC 6902, sections 3 and 4).

ghost use Rattle.std.specs.Prelude.{◌≡◌, map, codes, IfOk, OnOk};
ghost use Rattle.sj_text_core.specs.Edits.{put};
ghost use Rattle.sj_text_core.specs.Tree.{list, no_members, obj, text};
ghost use Rattle.sj_object.specs.Members.{entry_members};
ghost use Rattle.sj_document.specs.Document.{document_tree};
ghost use Rattle.sj_pointer.specs.Shown.{pointer_text};
ghost use Rattle.sj_patch.specs.Listed.{listed_operation, listed_all};
ghost use Rattle.sj_patch.specs.Meant.{meant};

use crate::operation::Operation;
use sj_document::{Document, Object};
use sj_object::{HashMap, ObjectHasher};
use sj_path::OwnedText;
use sj_pointer::Pointer;
use std::alloc::{AllocError, Global};

/// The text of a name.
fn name_text<T: OwnedText>(alloc: Global, name: &str) -> Result<T, AllocError>
    ensures { IfOk result (λ t. T.text_of t ≡ name.now) }
{
    Ok(T::owned(String::from_str(alloc, name)?))
}

/// The text that writes the pointer.
fn place<T: OwnedText>(alloc: Global, pointer: &Pointer) -> Result<Document<T>, AllocError>
    ensures { IfOk result (λ d. document_tree T.text_of d ≡ text (pointer_text pointer.now)) }
{
    Ok(Document::String(T::owned(format!(in alloc; "{pointer}")?)))
}

/// Sets the member of that name.
fn set<T: OwnedText + Drop>(
    alloc: Global,
    members: &mut Object<T>,
    name: &str,
    value: Document<T>,
) -> Result<(), AllocError>
    ensures { OnOk result (entry_members (document_tree T.text_of) members.new.entries ≡ put name.now (document_tree T.text_of value) (entry_members (document_tree T.text_of) members.old.entries)) }
{
    match members.insert(name_text(alloc, name)?, value) {
        Ok(_) => Ok(()),
        Err(_) => Err(AllocError),
    }
}

/// The members that name an operation and its path.
fn operation_at<T: OwnedText + Drop>(
    alloc: Global,
    name: &str,
    path: &Pointer,
) -> Result<Object<T>, AllocError>
    ensures { IfOk result (λ ms. entry_members (document_tree T.text_of) ms.entries ≡ put (codes "path") (text (pointer_text path.now)) (put (codes "op") (text name.now) no_members)) }
{
    let mut members = HashMap::with_capacity_and_hasher(alloc, 3, ObjectHasher::default())?;
    set(
        alloc,
        &mut members,
        "op",
        Document::String(name_text(alloc, name)?),
    )?;
    set(alloc, &mut members, "path", place(alloc, path)?)?;
    Ok(members)
}

/// The object of an operation that takes nothing else.
fn plain<T: OwnedText + Drop>(
    alloc: Global,
    name: &str,
    path: &Pointer,
) -> Result<Document<T>, AllocError>
    ensures { IfOk result (λ d. document_tree T.text_of d ≡ obj (put (codes "path") (text (pointer_text path.now)) (put (codes "op") (text name.now) no_members))) }
{
    let members = operation_at(alloc, name, path)?;
    Ok(Document::Object(Box::new(alloc, members)?))
}

/// The object of an operation that takes one member more.
fn taking<T: OwnedText + Drop>(
    alloc: Global,
    name: &str,
    path: &Pointer,
    member: &str,
    value: Document<T>,
) -> Result<Document<T>, AllocError>
    ensures { IfOk result (λ d. document_tree T.text_of d ≡ obj (put member.now (document_tree T.text_of value) (put (codes "path") (text (pointer_text path.now)) (put (codes "op") (text name.now) no_members)))) }
{
    let mut members = operation_at(alloc, name, path)?;
    set(alloc, &mut members, member, value)?;
    Ok(Document::Object(Box::new(alloc, members)?))
}

/// The object that lists the operation.
fn item_of<T: OwnedText + Drop>(
    alloc: Global,
    operation: &Operation<T>,
) -> Result<Document<T>, AllocError>
    ensures { IfOk result (λ d. document_tree T.text_of d ≡ listed_operation (meant T.text_of operation.now)) }
{
    match operation {
        Operation::Add { path, value } => taking(alloc, "add", path, "value", value.clone()?),
        Operation::Remove { path } => plain(alloc, "remove", path),
        Operation::Replace { path, value } => taking(
            alloc,
            "replace",
            path,
            "value",
            value.clone()?,
        ),
        Operation::Move { from, path } => taking(alloc, "move", path, "from", place(alloc, from)?),
        Operation::Copy { from, path } => taking(alloc, "copy", path, "from", place(alloc, from)?),
        Operation::Test { path, value } => taking(alloc, "test", path, "value", value.clone()?),
    }
}

/// The patch document that lists the operations, with copies of their values: `operations_of` reads
/// it as the same operations. It is refused only for want of memory.
pub fn document_of<T: OwnedText + Drop>(
    alloc: Global,
    operations: &[Operation<T>],
) -> Result<Document<T>, AllocError>
    ensures { IfOk result (λ d. document_tree T.text_of d ≡ list (listed_all (map (meant T.text_of) operations.now))) }
{
    let mut items = Vec::with_capacity(alloc, operations.len())?;
    for operation in operations {
        items.push(item_of(alloc, operation)?)?;
    }
    Ok(Document::Array(Box::new(alloc, items)?))
}
