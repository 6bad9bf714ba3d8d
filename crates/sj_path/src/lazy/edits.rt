//! Edits of what a pointer finds in a lazy value. Each makes the value an owned document first, so it
//! is one after every answer but that of a refused upgrade, which leaves it as it was.

ghost use Rattle.std.specs.Prelude.{◌≡◌, option_and_then, IfErr, IfOk, IsOk, IsSome, OnErr, OnOk};
ghost use Rattle.sj_text_core.specs.Tree.{null};
ghost use Rattle.sj_text_core.specs.Find.{find};
ghost use Rattle.sj_text_core.specs.Reads.{as_items, as_members};
ghost use Rattle.sj_document.specs.Document.{document_tree, with_member, without_member, with_item, without_last, last_item, Means};
ghost use Rattle.sj_lazy.specs.Value.{lazy_kept, owned};
ghost use Rattle.sj_lazy.specs.Edits.{IsOwnedAs, IsLeftByPut, IsLeftByRemoval, ChangesKept, ComesBack};
ghost use Rattle.sj_pointer.specs.Pointed.{pointed, set_pointed};
ghost use Rattle.sj_path.specs.Changes.{changed_at};
ghost use Rattle.sj_path.specs.Made.{set_made};

use crate::{OwnedText, edits, made, write};
use sj_document::{Change, Document};
use sj_lazy::{Lazy, Lent, Upgrade};
use sj_object::KeyText;
use sj_pointer::Pointer;
use sj_text_core::{AccessError, Refused};
use std::alloc::{AllocError, Global};

/// Changes what the pointer finds, and answers what the change does; where it finds nothing the change
/// comes back as the inner `Err`. Refused for want of memory, the value is as it was, and the change
/// comes back too.
pub fn update<P: Upgrade<T> + Drop, B: Lent<T> + Drop, T: KeyText + Drop, C: Change<Document<T>>>(
    value: &mut Lazy<P, B, T>,
    alloc: Global,
    pointer: &Pointer,
    change: C,
) -> Result<Result<C::Answer, C>, Refused<AllocError, C>>
    ensures changed { IfOk result (λ made. IfOk made (ChangesKept P.part_kept B.lent_tree T.text_of (C.makes change) (λ u o. pointed pointer.now u ≡ o) (set_pointed pointer.now) value.old value.new)) }
    ensures absent { IfOk result (λ made. IfErr made (ComesBack P.part_kept B.lent_tree T.text_of change (λ u o. pointed pointer.now u ≡ o) value.old value.new)) }
    ensures refused { OnErr result (value.new ≡ value.old) }
    ensures returned { IfErr result (λ refused. refused.value ≡ change) }
    ensures succeeds { IsSome (owned T.text_of value.old) → IsOk result }
{
    match value.as_mut(alloc) {
        Ok(document) => Ok(write::update(document, pointer, change)),
        Err(why) => Err(Refused { why, value: change }),
    }
}

/// Sets the value of the key in the object that the pointer finds, and answers the one before. A
/// key that is there keeps its place; a new one goes last. Refused where the pointer finds no
/// object, be it that it finds nothing, and for want of memory: the value comes back. Refused, the
/// lazy value is as it was where the upgrade was refused, and else a document of the tree that it
/// kept.
pub fn insert<P: Upgrade<T> + Drop, B: Lent<T> + Drop, T: KeyText + Drop>(
    value: &mut Lazy<P, B, T>,
    alloc: Global,
    pointer: &Pointer,
    key: T,
    new: Document<T>,
) -> Result<Option<Document<T>>, Refused<AccessError, Document<T>>>
    ensures answer { IfOk result (Means T.text_of (option_and_then (find (T.text_of key)) (pointed pointer.now (lazy_kept P.part_kept B.lent_tree T.text_of value.old)))) }
    ensures after { OnOk result (IsOwnedAs P.part_kept B.lent_tree T.text_of (changed_at pointer.now (with_member (T.text_of key) (document_tree T.text_of new))) value.old value.new) }
    ensures object { OnOk result (IsSome (option_and_then as_members (pointed pointer.now (lazy_kept P.part_kept B.lent_tree T.text_of value.old)))) }
    ensures refused { IfErr result (λ r. IsLeftByPut P.part_kept B.lent_tree T.text_of (λ u. option_and_then as_members (pointed pointer.now u)) AccessError.NotAnObject value.old value.new r.why) }
    ensures returned { IfErr result (λ r. r.value ≡ new) }
    ensures succeeds { IsSome (owned T.text_of value.old) → IsSome (option_and_then (find (T.text_of key)) (pointed pointer.now (lazy_kept P.part_kept B.lent_tree T.text_of value.old))) → IsOk result }
{
    match value.as_mut(alloc) {
        Ok(document) => edits::insert(document, pointer, key, new),
        Err(_) => Err(Refused {
            why: AccessError::OutOfMemory,
            value: new,
        }),
    }
}

/// Takes the key's member out of the object that the pointer finds, and answers its value; the
/// members behind it close up. Refused where the pointer finds no object, be it that it finds
/// nothing, and where the upgrade is. Refused, the lazy value is as it was where the upgrade was
/// refused, and else a document of the tree that it kept.
pub fn remove<P: Upgrade<T> + Drop, B: Lent<T> + Drop, T: KeyText + Drop>(
    value: &mut Lazy<P, B, T>,
    alloc: Global,
    pointer: &Pointer,
    key: &str,
) -> Result<Option<Document<T>>, AccessError>
    ensures answer { IfOk result (Means T.text_of (option_and_then (find key.now) (pointed pointer.now (lazy_kept P.part_kept B.lent_tree T.text_of value.old)))) }
    ensures after { OnOk result (IsOwnedAs P.part_kept B.lent_tree T.text_of (changed_at pointer.now (without_member key.now)) value.old value.new) }
    ensures object { OnOk result (IsSome (option_and_then as_members (pointed pointer.now (lazy_kept P.part_kept B.lent_tree T.text_of value.old)))) }
    ensures refused { IfErr result (IsLeftByRemoval P.part_kept B.lent_tree T.text_of (λ u. option_and_then as_members (pointed pointer.now u)) AccessError.NotAnObject value.old value.new) }
{
    match value.as_mut(alloc) {
        Ok(document) => edits::remove(document, pointer, key),
        Err(_) => Err(AccessError::OutOfMemory),
    }
}

/// Appends an item to the array that the pointer finds. Refused where it finds no array, be it that
/// it finds nothing, and for want of memory: the value comes back. Refused, the lazy value is as it
/// was where the upgrade was refused, and else a document of the tree that it kept.
pub fn push<P: Upgrade<T> + Drop, B: Lent<T> + Drop, T: KeyText + Drop>(
    value: &mut Lazy<P, B, T>,
    alloc: Global,
    pointer: &Pointer,
    new: Document<T>,
) -> Result<(), Refused<AccessError, Document<T>>>
    ensures after { OnOk result (IsOwnedAs P.part_kept B.lent_tree T.text_of (changed_at pointer.now (with_item (document_tree T.text_of new))) value.old value.new) }
    ensures array { OnOk result (IsSome (option_and_then as_items (pointed pointer.now (lazy_kept P.part_kept B.lent_tree T.text_of value.old)))) }
    ensures refused { IfErr result (λ r. IsLeftByPut P.part_kept B.lent_tree T.text_of (λ u. option_and_then as_items (pointed pointer.now u)) AccessError.NotAnArray value.old value.new r.why) }
    ensures returned { IfErr result (λ r. r.value ≡ new) }
{
    match value.as_mut(alloc) {
        Ok(document) => edits::push(document, pointer, new),
        Err(_) => Err(Refused {
            why: AccessError::OutOfMemory,
            value: new,
        }),
    }
}

/// Takes the last item off the array that the pointer finds; None where there is none. Refused
/// where the pointer finds no array, be it that it finds nothing, and where the upgrade is.
/// Refused, the lazy value is as it was where the upgrade was refused, and else a document of the
/// tree that it kept.
pub fn pop<P: Upgrade<T> + Drop, B: Lent<T> + Drop, T: KeyText + Drop>(
    value: &mut Lazy<P, B, T>,
    alloc: Global,
    pointer: &Pointer,
) -> Result<Option<Document<T>>, AccessError>
    ensures answer { IfOk result (Means T.text_of (option_and_then last_item (pointed pointer.now (lazy_kept P.part_kept B.lent_tree T.text_of value.old)))) }
    ensures after { OnOk result (IsOwnedAs P.part_kept B.lent_tree T.text_of (changed_at pointer.now without_last) value.old value.new) }
    ensures array { OnOk result (IsSome (option_and_then as_items (pointed pointer.now (lazy_kept P.part_kept B.lent_tree T.text_of value.old)))) }
    ensures refused { IfErr result (IsLeftByRemoval P.part_kept B.lent_tree T.text_of (λ u. option_and_then as_items (pointed pointer.now u)) AccessError.NotAnArray value.old value.new) }
{
    match value.as_mut(alloc) {
        Ok(document) => edits::pop(document, pointer),
        Err(_) => Err(AccessError::OutOfMemory),
    }
}

/// Takes what the pointer finds, and leaves a null in its place; None where it finds nothing. Refused
/// for want of memory, the value is as it was.
pub fn take<P: Upgrade<T> + Drop, B: Lent<T> + Drop, T: KeyText + Drop>(
    value: &mut Lazy<P, B, T>,
    alloc: Global,
    pointer: &Pointer,
) -> Result<Option<Document<T>>, AllocError>
    ensures answer { IfOk result (Means T.text_of (pointed pointer.now (lazy_kept P.part_kept B.lent_tree T.text_of value.old))) }
    ensures after { OnOk result (IsOwnedAs P.part_kept B.lent_tree T.text_of (set_pointed pointer.now null) value.old value.new) }
    ensures refused { OnErr result (value.new ≡ value.old) }
    ensures succeeds { IsSome (owned T.text_of value.old) → IsOk result }
{
    Ok(edits::take(value.as_mut(alloc)?, pointer))
}

/// Sets what the pointer leads to, and answers what stood there; the objects that are missing on
/// the way are made. Refused as `NotAnObject` where a token finds nothing in an array or meets a
/// scalar, and for want of memory: the value comes back. Refused, the lazy value is as it was where
/// the upgrade was refused, and else a document of the tree that it kept.
pub fn set<P: Upgrade<T> + Drop, B: Lent<T> + Drop, T: OwnedText + Drop>(
    value: &mut Lazy<P, B, T>,
    alloc: Global,
    pointer: &Pointer,
    new: Document<T>,
) -> Result<Option<Document<T>>, Refused<AccessError, Document<T>>>
    ensures answer { IfOk result (Means T.text_of (pointed pointer.now (lazy_kept P.part_kept B.lent_tree T.text_of value.old))) }
    ensures after { OnOk result (owned T.text_of value.new ≡ set_made pointer.now (document_tree T.text_of new) (lazy_kept P.part_kept B.lent_tree T.text_of value.old)) }
    ensures made { OnOk result (IsSome (set_made pointer.now (document_tree T.text_of new) (lazy_kept P.part_kept B.lent_tree T.text_of value.old))) }
    ensures refused { IfErr result (λ r. IsLeftByPut P.part_kept B.lent_tree T.text_of (set_made pointer.now (document_tree T.text_of new)) AccessError.NotAnObject value.old value.new r.why) }
    ensures returned { IfErr result (λ r. r.value ≡ new) }
    ensures succeeds { IsSome (owned T.text_of value.old) → IsSome (pointed pointer.now (lazy_kept P.part_kept B.lent_tree T.text_of value.old)) → IsOk result }
{
    match value.as_mut(alloc) {
        Ok(document) => made::set(document, alloc, pointer, new),
        Err(_) => Err(Refused {
            why: AccessError::OutOfMemory,
            value: new,
        }),
    }
}
