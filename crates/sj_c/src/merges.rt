//! Merge patches (RFC 7396) of the documents of handles.

ghost use Rattle.std.specs.Prelude.{◌≡◌, ◌≢◌, ◌⊎◌, ◌<◌, ◌≤◌, Some, None, string_bytes};
ghost use Rattle.sj_text_core.specs.Tree.{Tree, depth};
ghost use Rattle.sj_text_core.specs.Same.{Same};
ghost use Rattle.sj_document.specs.Document.{document_tree};
ghost use Rattle.sj_merge.specs.Merge.{merged};
ghost use Rattle.sj_merge.specs.MergeDiff.{merge_patch};
ghost use Rattle.sj_c.specs.Meant.{held_tree};

use crate::doc::Doc;
use crate::documents::hold;
use crate::status::{EMPTY, NO_MERGE_PATCH, OK, OUT_OF_MEMORY, TOO_DEEP};
use sj_document::OwnedValue;
use sj_patch::{merge, merge_diff};
use std::alloc::Global;

/// How many arrays and objects may stand inside one another in a merge patch, and in the document
/// that one is asked to lead to. A merge calls itself for each.
const MERGED: usize = 256;

/// Merges a copy of the patch into the document. Refused, the document means what it meant.
fn merge_into(alloc: Global, document: &mut OwnedValue, patch: &OwnedValue) -> u32
    ensures ok { result ≡ OK → document_tree string_bytes document.new ≡ merged (Some (document_tree string_bytes document.old)) (document_tree string_bytes patch.now) }
    ensures within { result ≡ OK → depth (document_tree string_bytes patch.now) ≤ 256 }
    ensures deep { result ≡ TOO_DEEP → 256 < depth (document_tree string_bytes patch.now) }
    ensures answers { (result ≡ OK) ⊎ (result ≡ TOO_DEEP) ⊎ (result ≡ OUT_OF_MEMORY) }
    ensures refused { result ≢ OK → document_tree string_bytes document.new ≡ document_tree string_bytes document.old }
{
    match patch.is_within_depth(MERGED, alloc) {
        Ok(true) => {}
        Ok(false) => return TOO_DEEP,
        Err(_) => return OUT_OF_MEMORY,
    }
    let Ok(patch) = patch.clone() else {
        return OUT_OF_MEMORY;
    };
    match merge(alloc, document, patch) {
        Ok(()) => OK,
        Err(_) => OUT_OF_MEMORY,
    }
}

/// Merges the patch into the document (RFC 7396): members of the patch go over those of the document,
/// a null takes one out, and what is no object replaces the whole. The patch stays as it is. Refused,
/// also as `TOO_DEEP` where more than 256 arrays and objects stand inside one another in the patch, the
/// document stays.
#[unsafe(no_mangle)]
pub extern "C" fn sj_merge(alloc: Global, doc: &mut Doc, patch: &mut Doc) -> u32
    ensures ok { result ≡ OK → (t : Tree) × (p : Tree) × (held_tree doc.old.kept.holds ≡ Some t) × (held_tree patch.old.kept.holds ≡ Some p) × (held_tree doc.new.kept.holds ≡ Some (merged (Some t) p)) }
    ensures within { result ≡ OK → (p : Tree) × (held_tree patch.old.kept.holds ≡ Some p) × (depth p ≤ 256) }
    ensures deep { result ≡ TOO_DEEP → (p : Tree) × (held_tree patch.old.kept.holds ≡ Some p) × (256 < depth p) }
    ensures empty { result ≡ EMPTY → (doc.old.kept.holds ≡ None) ⊎ (patch.old.kept.holds ≡ None) }
    ensures answers { result ≢ OK → result ≢ TOO_DEEP → result ≢ EMPTY → result ≡ OUT_OF_MEMORY }
    ensures refused { result ≢ OK → held_tree doc.new.kept.holds ≡ held_tree doc.old.kept.holds }
    ensures kept { patch.new.kept.holds ≡ patch.old.kept.holds }
{
    let Some(mut held) = doc.take(alloc) else {
        return EMPTY;
    };
    let Some(given) = patch.take(alloc) else {
        doc.put(held);
        return EMPTY;
    };
    let code = merge_into(alloc, &mut held.value, &given.value);
    doc.put(held);
    patch.put(given);
    code
}

/// Puts the merge patch from one value to another into the handle. Refused, it keeps what it had.
fn merge_patch_into(alloc: Global, from: &OwnedValue, to: &OwnedValue, patch: &mut Doc) -> u32
    ensures ok { result ≡ OK → (p : Tree) × (held_tree patch.new.kept.holds ≡ Some p) × (merge_patch (Some (document_tree string_bytes from.now)) (document_tree string_bytes to.now) ≡ Some p) × Same (merged (Some (document_tree string_bytes from.now)) p) (document_tree string_bytes to.now) }
    ensures none { result ≡ NO_MERGE_PATCH → merge_patch (Some (document_tree string_bytes from.now)) (document_tree string_bytes to.now) ≡ None }
    ensures within { result ≡ OK → depth (document_tree string_bytes to.now) ≤ 256 }
    ensures deep { result ≡ TOO_DEEP → 256 < depth (document_tree string_bytes to.now) }
    ensures answers { (result ≡ OK) ⊎ (result ≡ NO_MERGE_PATCH) ⊎ (result ≡ TOO_DEEP) ⊎ (result ≡ OUT_OF_MEMORY) }
    ensures err { result ≢ OK → patch.new.kept.holds ≡ patch.old.kept.holds }
{
    match to.is_within_depth(MERGED, alloc) {
        Ok(true) => {}
        Ok(false) => return TOO_DEEP,
        Err(_) => return OUT_OF_MEMORY,
    }
    match merge_diff(alloc, from, to) {
        Ok(Some(made)) => hold(alloc, patch, made),
        Ok(None) => NO_MERGE_PATCH,
        Err(_) => OUT_OF_MEMORY,
    }
}

/// Finds the merge patch by which one document becomes the same as another, and puts it into `patch`.
/// Where there is none, it is refused as `NO_MERGE_PATCH`; where more than 256 arrays and objects stand
/// inside one another in `to`, as `TOO_DEEP`. Refused, `patch` keeps what it had.
#[unsafe(no_mangle)]
pub extern "C" fn sj_merge_diff(alloc: Global, from: &mut Doc, to: &mut Doc, patch: &mut Doc) -> u32
    ensures ok { result ≡ OK → (t : Tree) × (u : Tree) × (p : Tree) × (held_tree from.old.kept.holds ≡ Some t) × (held_tree to.old.kept.holds ≡ Some u) × (held_tree patch.new.kept.holds ≡ Some p) × (merge_patch (Some t) u ≡ Some p) × Same (merged (Some t) p) u }
    ensures none { result ≡ NO_MERGE_PATCH → (t : Tree) × (u : Tree) × (held_tree from.old.kept.holds ≡ Some t) × (held_tree to.old.kept.holds ≡ Some u) × (merge_patch (Some t) u ≡ None) }
    ensures within { result ≡ OK → (u : Tree) × (held_tree to.old.kept.holds ≡ Some u) × (depth u ≤ 256) }
    ensures deep { result ≡ TOO_DEEP → (u : Tree) × (held_tree to.old.kept.holds ≡ Some u) × (256 < depth u) }
    ensures empty { result ≡ EMPTY → (from.old.kept.holds ≡ None) ⊎ (to.old.kept.holds ≡ None) }
    ensures answers { result ≢ OK → result ≢ NO_MERGE_PATCH → result ≢ TOO_DEEP → result ≢ EMPTY → result ≡ OUT_OF_MEMORY }
    ensures err { result ≢ OK → patch.new.kept.holds ≡ patch.old.kept.holds }
    ensures from_kept { from.new.kept.holds ≡ from.old.kept.holds }
    ensures to_kept { to.new.kept.holds ≡ to.old.kept.holds }
{
    let Some(first) = from.take(alloc) else {
        return EMPTY;
    };
    let Some(second) = to.take(alloc) else {
        from.put(first);
        return EMPTY;
    };
    let code = merge_patch_into(alloc, &first.value, &second.value, patch);
    from.put(first);
    to.put(second);
    code
}
