//! The merge patch by which one document becomes another.

ghost use Rattle.std.specs.Prelude.{◌≡◌, false, Option, Some, None, is_some, IfOk, IfSome, option_map, option_and_then};
ghost use Rattle.std.specs.Option.{option_copied};
ghost use Rattle.sj_text_core.specs.Tree.{Tree, obj, no_members};
ghost use Rattle.sj_text_core.specs.Equal.{passes, tree_eq};
ghost use Rattle.sj_text_core.specs.Reads.{as_members};
ghost use Rattle.sj_text_core.specs.Same.{Same};
ghost use Rattle.sj_object.specs.Members.{entry_members};
ghost use Rattle.sj_document.specs.Document.{document_tree, Means};
ghost use Rattle.sj_document.specs.declared.value.Document.{Document as DocumentOf};
ghost use Rattle.sj_merge.specs.Merge.{merged};
ghost use Rattle.sj_merge.specs.MergeDiff.{merge_patch, patch_members, removals};
ghost use Rattle.sj_merge.specs.inner.Change.{IsChange};

use sj_document::{CopyText, Document, Object, same};
use sj_object::{HashMap, KeyText, MapOf};
use sj_text_core::{TypedValue, ValueAsScalar};
use std::alloc::{AllocError, Global};

/// What a merge patch says of a member that is wanted.
#[derive(Drop)]
enum Change<T: KeyText + Drop> {
    /// Nothing, where the target has the same.
    Stays,
    /// No patch leads there.
    Impossible,
    /// The value of the patch's member.
    Becomes(Document<T>),
}

/// A null for each member that the wanted ones lack.
fn removals<T: CopyText + Drop>(
    alloc: Global,
    members: &Object<T>,
    wanted: &Object<T>,
) -> Result<Object<T>, AllocError>
    ensures { IfOk result (λ m. entry_members (document_tree T.text_of) m.entries ≡ removals (entry_members (document_tree T.text_of) members.now.entries) (entry_members (document_tree T.text_of) wanted.now.entries) no_members) }
{
    let mut patch = HashMap::new(alloc);
    for (key, _value) in members.iter() {
        if !wanted.contains_key(key.text()) {
            patch.set(key.copy()?, Document::null())?;
        }
    }
    Ok(patch)
}

/// The members of the patch; None where there is none.
#[cycle(differ)]
fn patch_object<T: CopyText + Drop>(
    alloc: Global,
    members: &Object<T>,
    wanted: &Object<T>,
) -> Result<Option<Object<T>>, AllocError>
    ensures { IfOk result (λ r. option_map (λ m. entry_members (document_tree T.text_of) m.entries) r ≡ option_map (removals (entry_members (document_tree T.text_of) members.now.entries) (entry_members (document_tree T.text_of) wanted.now.entries)) (patch_members (entry_members (document_tree T.text_of) members.now.entries) (entry_members (document_tree T.text_of) wanted.now.entries))) }
{
    let mut patch = removals(alloc, members, wanted)?;
    for (key, value) in wanted.iter() {
        match change_value(alloc, members.get(key.text()), value)? {
            Change::Stays => {}
            Change::Impossible => return Ok(None),
            Change::Becomes(change) => patch.set(key.copy()?, change)?,
        }
    }
    Ok(Some(patch))
}

/// The members of the patch of a target that has none.
#[cycle(differ)]
fn patch_new<T: CopyText + Drop>(
    alloc: Global,
    wanted: &Object<T>,
) -> Result<Option<Object<T>>, AllocError>
    ensures { IfOk result (λ r. option_map (λ m. entry_members (document_tree T.text_of) m.entries) r ≡ option_map (removals no_members (entry_members (document_tree T.text_of) wanted.now.entries)) (patch_members no_members (entry_members (document_tree T.text_of) wanted.now.entries))) }
{
    let none = HashMap::new(alloc);
    patch_object(alloc, &none, wanted)
}

/// The members of the patch of a value that may be there, and may be an object.
#[cycle(differ)]
fn patch_from<T: CopyText + Drop>(
    alloc: Global,
    found: Option<&Document<T>>,
    wanted: &Object<T>,
) -> Result<Option<Object<T>>, AllocError>
    ensures { IfOk result (λ r. option_map obj (option_map (λ m. entry_members (document_tree T.text_of) m.entries) r) ≡ merge_patch (option_map (document_tree T.text_of) (option_copied found.entry)) (obj (entry_members (document_tree T.text_of) wanted.now.entries))) }
{
    match found {
        Some(old) => match old {
            Document::Object(members) => patch_object(alloc, members, wanted),
            _ => patch_new(alloc, wanted),
        },
        None => patch_new(alloc, wanted),
    }
}

/// Whether the value is there, and is an object.
fn has_members<T: KeyText + Drop>(found: Option<&Document<T>>) -> bool
    ensures { result ≡ is_some (option_and_then as_members (option_map (document_tree T.text_of) (option_copied found.entry))) }
{
    match found {
        Some(old) => old.is_object(),
        None => false,
    }
}

/// What the patch says of an object. It tells of no member where the target has the same object, and
/// there alone where it has an object: so no object is compared twice.
#[cycle(differ)]
fn change_object<T: CopyText + Drop>(
    alloc: Global,
    found: Option<&Document<T>>,
    wanted: &Object<T>,
) -> Result<Change<T>, AllocError>
    ensures { IfOk result (IsChange T.text_of (option_map (document_tree T.text_of) (option_copied found.entry)) (obj (entry_members (document_tree T.text_of) wanted.now.entries))) }
{
    match patch_from(alloc, found, wanted)? {
        Some(patch) => {
            if patch.is_empty() && has_members(found) {
                return Ok(Change::Stays);
            }
            Ok(Change::Becomes(Document::Object(Box::new(alloc, patch)?)))
        }
        None => Ok(Change::Impossible),
    }
}

/// What the patch says of a value that is no object, and which the target hasn't.
fn replacement<T: CopyText + Drop>(value: &Document<T>) -> Result<Change<T>, AllocError>
    requires { as_members (document_tree T.text_of value.now) ≡ None }
    ensures { IfOk result (λ c. (old : Option Tree) → passes old (λ u. tree_eq u (document_tree T.text_of value.now)) ≡ false → IsChange T.text_of old (document_tree T.text_of value.now) c) }
{
    if value.is_null() {
        return Ok(Change::Impossible);
    }
    Ok(Change::Becomes(value.clone()?))
}

/// What the patch says of a value that is no object.
fn change_whole<T: CopyText + Drop>(
    found: Option<&Document<T>>,
    value: &Document<T>,
) -> Result<Change<T>, AllocError>
    requires { as_members (document_tree T.text_of value.now) ≡ None }
    ensures { IfOk result (IsChange T.text_of (option_map (document_tree T.text_of) (option_copied found.entry)) (document_tree T.text_of value.now)) }
{
    match found {
        Some(old) => {
            if same(old, value) {
                return Ok(Change::Stays);
            }
            replacement(value)
        }
        None => replacement(value),
    }
}

/// What the patch says of a member whose value in the target, if it is there, is `found`.
#[cycle(differ)]
fn change_value<T: CopyText + Drop>(
    alloc: Global,
    found: Option<&Document<T>>,
    value: &Document<T>,
) -> Result<Change<T>, AllocError>
    ensures { IfOk result (IsChange T.text_of (option_map (document_tree T.text_of) (option_copied found.entry)) (document_tree T.text_of value.now)) }
{
    match value {
        Document::Object(wanted) => change_object(alloc, found, wanted),
        _ => change_whole(found, value),
    }
}

/// The patch from one document to another, where there is one.
fn patch_to<T: CopyText + Drop>(
    alloc: Global,
    from: &Document<T>,
    to: &Document<T>,
) -> Result<Option<Document<T>>, AllocError>
    ensures { IfOk result (λ r. option_map (document_tree T.text_of) r ≡ merge_patch (Some (document_tree T.text_of from.now)) (document_tree T.text_of to.now)) }
{
    match to {
        Document::Object(wanted) => match patch_from(alloc, Some(from), wanted)? {
            Some(patch) => Ok(Some(Document::Object(Box::new(alloc, patch)?))),
            None => Ok(None),
        },
        _ => Ok(Some(to.clone()?)),
    }
}

/// The merge patch (RFC 7396) by which `from` becomes the same as `to`: a null for each member that
/// goes, then each member that comes or changes, and nothing of what is the same in both. None says
/// that no document is such a patch: in objects within objects `to` has a null where `from` hasn't,
/// and no merge patch puts a null into an object; nulls within arrays are no trouble. Refused only
/// for want of memory.
pub fn merge_diff<T: CopyText + Drop>(
    alloc: Global,
    from: &Document<T>,
    to: &Document<T>,
) -> Result<Option<Document<T>>, AllocError>
    ensures patch { IfOk result (Means T.text_of (merge_patch (Some (document_tree T.text_of from.now)) (document_tree T.text_of to.now))) }
    ensures leads { IfOk result (λ r. IfSome r (λ p. Same (merged (Some (document_tree T.text_of from.now)) (document_tree T.text_of p)) (document_tree T.text_of to.now))) }
    ensures none { IfOk result (λ r. r ≡ None → (p : DocumentOf T) → Same (merged (Some (document_tree T.text_of from.now)) (document_tree T.text_of p)) (document_tree T.text_of to.now) → ⊥) }
{
    patch_to(alloc, from, to)
}
