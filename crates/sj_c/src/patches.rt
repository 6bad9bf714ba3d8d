//! Patches (RFC 6902) of the documents of handles.

ghost use Rattle.std.specs.Prelude.{◌≡◌, ◌≢◌, ◌⊎◌, ◌<◌, ◌≤◌, map, Ok, Some, None, IfOk, IfErr, string_bytes};
ghost use Rattle.sj_text_core.specs.Tree.{Tree, depth};
ghost use Rattle.sj_document.specs.Document.{document_tree};
ghost use Rattle.sj_patch.specs.Meant.{meant};
ghost use Rattle.sj_patch.specs.Operations.{patch_in};
ghost use Rattle.sj_c.specs.Meant.{held_tree};
ghost use Rattle.sj_c.specs.Patches.{Patches, NotRead, NotPatched, IsDifference};

use crate::doc::Doc;
use crate::documents::hold;
use crate::faults::{PATCH_NOT_AN_ARRAY, code_of_item, code_of_operation};
use crate::same::{COMPARED, are_comparable};
use crate::status::{EMPTY, OK, OUT_OF_MEMORY, TOO_DEEP};
use sj_document::OwnedValue;
use sj_patch::{Operation, PatchFault, PatchReadFault, diff, document_of, operations_of, patch};
use std::alloc::Global;

/// The operations that a patch document lists, read of a copy; refused with a status, and the number
/// of the item.
fn operations_in(
    alloc: Global,
    patch: &OwnedValue,
    at: &mut usize,
) -> Result<Vec<Operation<String>>, u32>
    ensures ok { IfOk result (λ os. patch_in (document_tree string_bytes patch.now) ≡ Ok (map (meant string_bytes) os.items)) }
    ensures err { IfErr result (λ code. NotRead (document_tree string_bytes patch.now) code at.new) }
    ensures fault { IfErr result (λ code. (code ≢ OK) × (code ≢ EMPTY)) }
{
    let Ok(copy) = patch.clone() else {
        return Err(OUT_OF_MEMORY);
    };
    match operations_of(alloc, copy) {
        Ok(operations) => Ok(operations),
        Err(refused) => match refused.why {
            PatchReadFault::NotAnArray => Err(PATCH_NOT_AN_ARRAY),
            PatchReadFault::Item(number, fault) => {
                *at = number;
                Err(code_of_item(fault))
            }
            PatchReadFault::OutOfMemory => Err(OUT_OF_MEMORY),
        },
    }
}

/// Does the operations of the patch document. Refused, the document means what it meant.
fn patch_value(
    alloc: Global,
    document: &mut OwnedValue,
    patch_document: &OwnedValue,
    at: &mut usize,
) -> u32
    ensures ok { result ≡ OK → Patches (document_tree string_bytes patch_document.now) (document_tree string_bytes document.old) (document_tree string_bytes document.new) }
    ensures within { result ≡ OK → depth (document_tree string_bytes patch_document.now) ≤ 1024 }
    ensures fault { result ≢ OK → NotPatched (document_tree string_bytes patch_document.now) (document_tree string_bytes document.old) result at.new }
    ensures full { result ≢ EMPTY }
    ensures refused { result ≢ OK → document_tree string_bytes document.new ≡ document_tree string_bytes document.old }
{
    match patch_document.is_within_depth(COMPARED, alloc) {
        Ok(true) => {}
        Ok(false) => return TOO_DEEP,
        Err(_) => return OUT_OF_MEMORY,
    }
    let operations = match operations_in(alloc, patch_document, at) {
        Ok(operations) => operations,
        Err(code) => return code,
    };
    match patch(alloc, document, operations.as_slice()) {
        Ok(()) => OK,
        Err(PatchFault::Failed(number, fault)) => {
            *at = number;
            code_of_operation(fault)
        }
        Err(PatchFault::OutOfMemory) => OUT_OF_MEMORY,
    }
}

/// Does the operations that a patch document lists (RFC 6902), all of them or none. The patch stays as
/// it is. Refused, the document stays; `at` is then the number of the operation, from 0 on, where the
/// status is one of an operation. `TOO_DEEP` says that more than 1,024 arrays and objects stand inside
/// one another in the patch.
#[unsafe(no_mangle)]
pub extern "C" fn sj_patch(alloc: Global, doc: &mut Doc, patch: &mut Doc, at: &mut usize) -> u32
    ensures ok { result ≡ OK → (t : Tree) × (p : Tree) × (u : Tree) × (held_tree doc.old.kept.holds ≡ Some t) × (held_tree patch.old.kept.holds ≡ Some p) × (held_tree doc.new.kept.holds ≡ Some u) × Patches p t u }
    ensures within { result ≡ OK → (p : Tree) × (held_tree patch.old.kept.holds ≡ Some p) × (depth p ≤ 1024) }
    ensures fault { result ≢ OK → result ≢ EMPTY → (t : Tree) × (p : Tree) × (held_tree doc.old.kept.holds ≡ Some t) × (held_tree patch.old.kept.holds ≡ Some p) × NotPatched p t result at.new }
    ensures empty { result ≡ EMPTY → (doc.old.kept.holds ≡ None) ⊎ (patch.old.kept.holds ≡ None) }
    ensures refused { result ≢ OK → held_tree doc.new.kept.holds ≡ held_tree doc.old.kept.holds }
    ensures kept { patch.new.kept.holds ≡ patch.old.kept.holds }
{
    let Some(mut held) = doc.take(alloc) else {
        return EMPTY;
    };
    let Some(given) = patch.take(alloc) else {
        doc.put(held);
        return EMPTY;
    };
    let code = patch_value(alloc, &mut held.value, &given.value, at);
    doc.put(held);
    patch.put(given);
    code
}

/// Puts the patch from one value to another into the handle. Refused, it keeps what it had.
fn patch_into(alloc: Global, from: &OwnedValue, to: &OwnedValue, patch: &mut Doc) -> u32
    ensures ok { result ≡ OK → (p : Tree) × (held_tree patch.new.kept.holds ≡ Some p) × IsDifference p (document_tree string_bytes from.now) (document_tree string_bytes to.now) }
    ensures within { result ≡ OK → (depth (document_tree string_bytes from.now) ≤ 1024) ⊎ (depth (document_tree string_bytes to.now) ≤ 1024) }
    ensures deep { result ≡ TOO_DEEP → (1024 < depth (document_tree string_bytes from.now)) × (1024 < depth (document_tree string_bytes to.now)) }
    ensures answers { (result ≡ OK) ⊎ (result ≡ TOO_DEEP) ⊎ (result ≡ OUT_OF_MEMORY) }
    ensures err { result ≢ OK → patch.new.kept.holds ≡ patch.old.kept.holds }
{
    match are_comparable(alloc, from, to) {
        Ok(true) => {}
        Ok(false) => return TOO_DEEP,
        Err(_) => return OUT_OF_MEMORY,
    }
    let Ok(operations) = diff(alloc, from, to) else {
        return OUT_OF_MEMORY;
    };
    match document_of(alloc, operations.as_slice()) {
        Ok(listed) => hold(alloc, patch, listed),
        Err(_) => OUT_OF_MEMORY,
    }
}

/// Finds operations by which one document becomes the same as another (RFC 6902), none where they are
/// the same, and puts the document that lists them into `patch`. Refused, also as `TOO_DEEP` where more
/// than 1,024 arrays and objects stand inside one another in both, `patch` keeps what it had.
#[unsafe(no_mangle)]
pub extern "C" fn sj_diff(alloc: Global, from: &mut Doc, to: &mut Doc, patch: &mut Doc) -> u32
    ensures ok { result ≡ OK → (t : Tree) × (u : Tree) × (p : Tree) × (held_tree from.old.kept.holds ≡ Some t) × (held_tree to.old.kept.holds ≡ Some u) × (held_tree patch.new.kept.holds ≡ Some p) × IsDifference p t u }
    ensures within { result ≡ OK → (t : Tree) × (u : Tree) × (held_tree from.old.kept.holds ≡ Some t) × (held_tree to.old.kept.holds ≡ Some u) × ((depth t ≤ 1024) ⊎ (depth u ≤ 1024)) }
    ensures deep { result ≡ TOO_DEEP → (t : Tree) × (u : Tree) × (held_tree from.old.kept.holds ≡ Some t) × (held_tree to.old.kept.holds ≡ Some u) × (1024 < depth t) × (1024 < depth u) }
    ensures empty { result ≡ EMPTY → (from.old.kept.holds ≡ None) ⊎ (to.old.kept.holds ≡ None) }
    ensures answers { result ≢ OK → result ≢ TOO_DEEP → result ≢ EMPTY → result ≡ OUT_OF_MEMORY }
    ensures err { result ≢ OK → patch.new.kept.holds ≡ patch.old.kept.holds }
    ensures from_kept { from.new.kept.holds ≡ from.old.kept.holds }
    ensures to_kept { to.new.kept.holds ≡ to.old.kept.holds }
{
    let Some(first) = from.take(alloc) else {
        return EMPTY;
    };
    let Some(second) = to.take(alloc) else {
        from.put(first);
        return EMPTY;
    };
    let code = patch_into(alloc, &first.value, &second.value, patch);
    from.put(first);
    to.put(second);
    code
}
