//! Merge patches into targets that are given up where they are refused.

ghost use Rattle.std.specs.Prelude.{◌≡◌, Some, IfOk, OnOk};
ghost use Rattle.sj_text_core.specs.Tree.{obj, no_members};
ghost use Rattle.sj_object.specs.Members.{entry_members};
ghost use Rattle.sj_document.specs.Document.{document_tree};
ghost use Rattle.sj_merge.specs.Merge.{merged, merged_members, target_members};
ghost use Rattle.sj_merge.specs.inner.Merge.{merged_pair};

use sj_document::{Document, Object};
use sj_object::{HashMap, KeyText, ObjectHasher};
use sj_text_core::{TypedValue, ValueAsScalar};
use std::alloc::{AllocError, Global};

/// Merges the patch into the target, in its place.
#[cycle(merge)]
fn merge_value<T: KeyText + Drop>(
    alloc: Global,
    target: &mut Document<T>,
    patch: Document<T>,
) -> Result<(), AllocError>
    ensures { OnOk result (document_tree T.text_of target.new ≡ merged (Some (document_tree T.text_of target.old)) (document_tree T.text_of patch)) }
{
    if !patch.is_object() {
        *target = patch;
        return Ok(());
    }
    match patch.into_object() {
        Some(members) => merge_object(alloc, target, members),
        None => Ok(()),
    }
}

/// Merges the members into an object; a target that is none becomes one.
#[cycle(merge)]
fn merge_object<T: KeyText + Drop>(
    alloc: Global,
    target: &mut Document<T>,
    members: Object<T>,
) -> Result<(), AllocError>
    ensures { OnOk result (document_tree T.text_of target.new ≡ obj (merged_members (target_members (Some (document_tree T.text_of target.old))) (entry_members (document_tree T.text_of) members.entries))) }
{
    if !target.is_object() {
        let mut made = HashMap::with_capacity_and_hasher(alloc, 0, ObjectHasher::default())?;
        merge_members(alloc, &mut made, members)?;
        *target = Document::Object(Box::new(alloc, made)?);
        return Ok(());
    }
    match target {
        Document::Object(into) => merge_members(alloc, into, members),
        _ => Ok(()),
    }
}

/// Merges each member in turn.
#[cycle(merge)]
fn merge_members<T: KeyText + Drop>(
    alloc: Global,
    into: &mut Object<T>,
    members: Object<T>,
) -> Result<(), AllocError>
    ensures { OnOk result (entry_members (document_tree T.text_of) into.new.entries ≡ merged_members (entry_members (document_tree T.text_of) into.old.entries) (entry_members (document_tree T.text_of) members.entries)) }
{
    for (key, value) in members {
        merge_member(alloc, into, key, value)?;
    }
    Ok(())
}

/// Merges a member: a null takes the target's member out.
#[cycle(merge)]
fn merge_member<T: KeyText + Drop>(
    alloc: Global,
    into: &mut Object<T>,
    key: T,
    value: Document<T>,
) -> Result<(), AllocError>
    ensures { OnOk result (entry_members (document_tree T.text_of) into.new.entries ≡ merged_pair (T.text_of key) (document_tree T.text_of value) (entry_members (document_tree T.text_of) into.old.entries)) }
{
    if value.is_null() {
        into.remove(key.text());
        return Ok(());
    }
    if let Some(child) = into.get_mut(key.text()) {
        return merge_value(alloc, child, value);
    }
    let mut made = Document::null();
    merge_value(alloc, &mut made, value)?;
    match into.insert(key, made) {
        Ok(_) => Ok(()),
        Err(_) => Err(AllocError),
    }
}

/// The members merged into an object that has none.
pub(crate) fn new_object<T: KeyText + Drop>(
    alloc: Global,
    members: Object<T>,
) -> Result<Document<T>, AllocError>
    ensures { IfOk result (λ made. document_tree T.text_of made ≡ obj (merged_members no_members (entry_members (document_tree T.text_of) members.entries))) }
{
    let mut made = Document::null();
    merge_object(alloc, &mut made, members)?;
    Ok(made)
}

/// The target as the patch makes it (RFC 7396). Refused for want of memory, both are given up, so
/// that no copy of the target is made.
pub fn into_merged<T: KeyText + Drop>(
    alloc: Global,
    mut target: Document<T>,
    patch: Document<T>,
) -> Result<Document<T>, AllocError>
    ensures { IfOk result (λ made. document_tree T.text_of made ≡ merged (Some (document_tree T.text_of target)) (document_tree T.text_of patch)) }
{
    merge_value(alloc, &mut target, patch)?;
    Ok(target)
}
