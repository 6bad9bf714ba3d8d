//! Edits of the object or array that a pointer finds.

ghost use Rattle.std.specs.Prelude.{◌≡◌, None, option_and_then, IfOk, IfErr, IsOk, IsSome, OnOk, OnErr};
ghost use Rattle.sj_text_core.specs.Tree.{null};
ghost use Rattle.sj_text_core.specs.Find.{find};
ghost use Rattle.sj_text_core.specs.Reads.{as_items, as_members};
ghost use Rattle.sj_document.specs.Document.{document_tree, edit_fault, with_member, without_member, with_item, without_last, last_item, Means, IsEdited, IsAsItWas};
ghost use Rattle.sj_pointer.specs.Pointed.{pointed, set_pointed};
ghost use Rattle.sj_path.specs.Changes.{changed_at};
ghost use Rattle.sj_path.specs.inner.Changes.{Inserts, Removes, Pushes, Pops};

use crate::write::{replace, update};
use sj_document::{Change, Document};
use sj_object::KeyText;
use sj_pointer::Pointer;
use sj_text_core::{AccessError, Refused};

/// Sets the value of a key.
#[derive(Drop)]
pub(crate) struct InsertMember<T: KeyText> {
    pub(crate) key: T,
    pub(crate) value: Document<T>,
}

impl<T: KeyText + Drop> Change<Document<T>> for InsertMember<T> {
    type Answer = Result<Option<Document<T>>, Refused<AccessError, Document<T>>>;

    ghost makes = { λ c v w r. Inserts T.text_of c.key c.value (document_tree T.text_of v) (document_tree T.text_of w) r };

    fn change(self, value: &mut Document<T>) -> Self::Answer {
        let InsertMember { key, value: new } = self;
        value.insert(key, new)
    }
}

/// Takes a key's member out.
#[derive(Drop)]
struct RemoveMember<'k> {
    key: &'k str,
}

impl<'k, T: KeyText + Drop> Change<Document<T>> for RemoveMember<'k> {
    type Answer = Result<Option<Document<T>>, AccessError>;

    ghost makes = { λ c v w r. Removes T.text_of c.key.now (document_tree T.text_of v) (document_tree T.text_of w) r };

    fn change(self, value: &mut Document<T>) -> Result<Option<Document<T>>, AccessError> {
        value.remove(self.key)
    }
}

/// Appends an item.
#[derive(Drop)]
struct PushItem<T: KeyText> {
    value: Document<T>,
}

impl<T: KeyText + Drop> Change<Document<T>> for PushItem<T> {
    type Answer = Result<(), Refused<AccessError, Document<T>>>;

    ghost makes = { λ c v w r. Pushes T.text_of c.value (document_tree T.text_of v) (document_tree T.text_of w) r };

    fn change(self, value: &mut Document<T>) -> Self::Answer {
        let PushItem { value: new } = self;
        value.push(new)
    }
}

/// Takes the last item off.
#[derive(Drop)]
struct PopItem;

impl<T: KeyText + Drop> Change<Document<T>> for PopItem {
    type Answer = Result<Option<Document<T>>, AccessError>;

    ghost makes = { λ _ v w r. Pops T.text_of (document_tree T.text_of v) (document_tree T.text_of w) r };

    fn change(self, value: &mut Document<T>) -> Result<Option<Document<T>>, AccessError> {
        value.pop()
    }
}

/// Sets the value of the key in the object that the pointer finds, and answers the one before. A key
/// that is there keeps its place and is never refused; a new one goes last. Where the pointer finds
/// no object, be it that it finds nothing, and for want of memory, it is refused: the value comes
/// back, and the document is as it was.
pub fn insert<T: KeyText + Drop>(
    value: &mut Document<T>,
    pointer: &Pointer,
    key: T,
    new: Document<T>,
) -> Result<Option<Document<T>>, Refused<AccessError, Document<T>>>
    ensures answer { IfOk result (Means T.text_of (option_and_then (find (T.text_of key)) (pointed pointer.now (document_tree T.text_of value.old)))) }
    ensures after { OnOk result (IsEdited T.text_of (changed_at pointer.now (with_member (T.text_of key) (document_tree T.text_of new))) value.old value.new) }
    ensures refused { OnErr result (IsAsItWas T.text_of value.old value.new) }
    ensures returned { IfErr result (λ r. r.value ≡ new) }
    ensures kind { IfErr result (λ r. r.why ≡ edit_fault AccessError.NotAnObject (option_and_then as_members (pointed pointer.now (document_tree T.text_of value.old)))) }
    ensures object { OnOk result (IsSome (option_and_then as_members (pointed pointer.now (document_tree T.text_of value.old)))) }
    ensures succeeds { IsSome (option_and_then (find (T.text_of key)) (pointed pointer.now (document_tree T.text_of value.old))) → IsOk result }
{
    match update(value, pointer, InsertMember { key, value: new }) {
        Ok(answer) => answer,
        Err(back) => Err(Refused {
            why: AccessError::NotAnObject,
            value: back.value,
        }),
    }
}

/// Takes the key's member out of the object that the pointer finds, and answers its value; the members
/// behind it close up. Where the pointer finds no object, be it that it finds nothing, it is refused,
/// and the document is as it was.
pub fn remove<T: KeyText + Drop>(
    value: &mut Document<T>,
    pointer: &Pointer,
    key: &str,
) -> Result<Option<Document<T>>, AccessError>
    ensures answer { IfOk result (Means T.text_of (option_and_then (find key.now) (pointed pointer.now (document_tree T.text_of value.old)))) }
    ensures after { IsEdited T.text_of (changed_at pointer.now (without_member key.now)) value.old value.new }
    ensures refused { OnErr result (IsAsItWas T.text_of value.old value.new) }
    ensures kind { IfErr result (λ e. (e ≡ AccessError.NotAnObject) × (option_and_then as_members (pointed pointer.now (document_tree T.text_of value.old)) ≡ None)) }
    ensures object { OnOk result (IsSome (option_and_then as_members (pointed pointer.now (document_tree T.text_of value.old)))) }
{
    match update(value, pointer, RemoveMember { key }) {
        Ok(answer) => answer,
        Err(_) => Err(AccessError::NotAnObject),
    }
}

/// Appends an item to the array that the pointer finds. Where it finds no array, be it that it finds
/// nothing, and for want of memory, it is refused: the value comes back, and the document is as it
/// was.
pub fn push<T: KeyText + Drop>(
    value: &mut Document<T>,
    pointer: &Pointer,
    new: Document<T>,
) -> Result<(), Refused<AccessError, Document<T>>>
    ensures after { OnOk result (IsEdited T.text_of (changed_at pointer.now (with_item (document_tree T.text_of new))) value.old value.new) }
    ensures refused { OnErr result (IsAsItWas T.text_of value.old value.new) }
    ensures returned { IfErr result (λ r. r.value ≡ new) }
    ensures kind { IfErr result (λ r. r.why ≡ edit_fault AccessError.NotAnArray (option_and_then as_items (pointed pointer.now (document_tree T.text_of value.old)))) }
    ensures array { OnOk result (IsSome (option_and_then as_items (pointed pointer.now (document_tree T.text_of value.old)))) }
{
    match update(value, pointer, PushItem { value: new }) {
        Ok(answer) => answer,
        Err(back) => Err(Refused {
            why: AccessError::NotAnArray,
            value: back.value,
        }),
    }
}

/// Takes the last item off the array that the pointer finds; None where there is none. Where the
/// pointer finds no array, be it that it finds nothing, it is refused, and the document is as it was.
pub fn pop<T: KeyText + Drop>(
    value: &mut Document<T>,
    pointer: &Pointer,
) -> Result<Option<Document<T>>, AccessError>
    ensures answer { IfOk result (Means T.text_of (option_and_then last_item (pointed pointer.now (document_tree T.text_of value.old)))) }
    ensures after { IsEdited T.text_of (changed_at pointer.now without_last) value.old value.new }
    ensures refused { OnErr result (IsAsItWas T.text_of value.old value.new) }
    ensures kind { IfErr result (λ e. (e ≡ AccessError.NotAnArray) × (option_and_then as_items (pointed pointer.now (document_tree T.text_of value.old)) ≡ None)) }
    ensures array { OnOk result (IsSome (option_and_then as_items (pointed pointer.now (document_tree T.text_of value.old)))) }
{
    match update(value, pointer, PopItem) {
        Ok(answer) => answer,
        Err(_) => Err(AccessError::NotAnArray),
    }
}

/// Takes what the pointer finds, and leaves a null in its place; None where it finds nothing, and the
/// document is as it was.
pub fn take<T: KeyText + Drop>(value: &mut Document<T>, pointer: &Pointer) -> Option<Document<T>>
    ensures answer { Means T.text_of (pointed pointer.now (document_tree T.text_of value.old)) result }
    ensures after { IsEdited T.text_of (set_pointed pointer.now null) value.old value.new }
{
    replace(value, pointer, Document::null()).ok()
}
