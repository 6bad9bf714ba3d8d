//! Edits of an object and of an array.

ghost use Rattle.std.specs.Prelude.{◌≡◌, None, OnOk, OnErr, IfOk, IfErr, IsOk, IsSome};
ghost use Rattle.sj_text_core.specs.Find.{find};
ghost use Rattle.sj_text_core.specs.Reads.{as_items, as_members};

use crate::value::Document;
use sj_object::KeyText;
use sj_text_core::{AccessError, Refused};
use std::alloc::AllocError;

impl<T: KeyText + Drop> Document<T> {
    ghost use Rattle.sj_document.specs.Document.{document_tree, edit_fault, with_member, without_member, with_item, without_last, last_item, Means, IsEdited, IsAsItWas};

    /// Sets the value of the key, and answers the one before. A key that is there keeps its place
    /// and is never refused; a new one goes last. On a non-object, and for want of memory, it is
    /// refused: the value comes back, the key is let go, and the document is as it was.
    pub fn insert(
        &mut self,
        key: T,
        value: Document<T>,
    ) -> Result<Option<Document<T>>, Refused<AccessError, Document<T>>>
        ensures answer { IfOk result (Means T.text_of (find (T.text_of key) (document_tree T.text_of self.old))) }
        ensures after { OnOk result (IsEdited T.text_of (with_member (T.text_of key) (document_tree T.text_of value)) self.old self.new) }
        ensures refused { OnErr result (IsAsItWas T.text_of self.old self.new) }
        ensures returned { IfErr result (λ r. r.value ≡ value) }
        ensures kind { IfErr result (λ r. r.why ≡ edit_fault AccessError.NotAnObject (as_members (document_tree T.text_of self.old))) }
        ensures object { OnOk result (IsSome (as_members (document_tree T.text_of self.old))) }
        ensures succeeds { IsSome (find (T.text_of key) (document_tree T.text_of self.old)) → IsOk result }
    {
        match self {
            Document::Object(members) => match members.insert(key, value) {
                Ok(before) => Ok(before),
                Err(refused) => {
                    let (_, value) = refused.value;
                    Err(Refused {
                        why: AccessError::OutOfMemory,
                        value,
                    })
                }
            },
            _ => Err(Refused {
                why: AccessError::NotAnObject,
                value,
            }),
        }
    }

    /// As `insert`; on a non-object it answers None, gives the value up and does nothing.
    pub fn try_insert(
        &mut self,
        key: T,
        value: Document<T>,
    ) -> Result<Option<Document<T>>, Refused<AllocError, Document<T>>>
        ensures answer { IfOk result (Means T.text_of (find (T.text_of key) (document_tree T.text_of self.old))) }
        ensures after { OnOk result (IsEdited T.text_of (with_member (T.text_of key) (document_tree T.text_of value)) self.old self.new) }
        ensures refused { OnErr result (IsAsItWas T.text_of self.old self.new) }
        ensures returned { IfErr result (λ r. r.value ≡ value) }
        ensures object { OnErr result (IsSome (as_members (document_tree T.text_of self.old))) }
        ensures succeeds { IsSome (find (T.text_of key) (document_tree T.text_of self.old)) → IsOk result }
    {
        if self.as_object().is_none() {
            return Ok(None);
        }
        match self.insert(key, value) {
            Ok(before) => Ok(before),
            Err(refused) => Err(refused.because(AllocError)),
        }
    }

    /// Takes the key's member out, and answers its value; the members behind it close up. It is
    /// refused on a non-object alone.
    pub fn remove(&mut self, key: &str) -> Result<Option<Document<T>>, AccessError>
        ensures answer { IfOk result (Means T.text_of (find key.now (document_tree T.text_of self.old))) }
        ensures after { IsEdited T.text_of (without_member key.now) self.old self.new }
        ensures refused { OnErr result (IsAsItWas T.text_of self.old self.new) }
        ensures kind { IfErr result (λ e. (e ≡ AccessError.NotAnObject) × (as_members (document_tree T.text_of self.old) ≡ None)) }
        ensures object { OnOk result (IsSome (as_members (document_tree T.text_of self.old))) }
    {
        match self {
            Document::Object(members) => Ok(members.remove(key)),
            _ => Err(AccessError::NotAnObject),
        }
    }

    /// Appends an item. On a non-array, and for want of memory, it is refused: the value comes
    /// back, and the document is as it was.
    pub fn push(&mut self, value: Document<T>) -> Result<(), Refused<AccessError, Document<T>>>
        ensures after { OnOk result (IsEdited T.text_of (with_item (document_tree T.text_of value)) self.old self.new) }
        ensures refused { OnErr result (IsAsItWas T.text_of self.old self.new) }
        ensures returned { IfErr result (λ r. r.value ≡ value) }
        ensures kind { IfErr result (λ r. r.why ≡ edit_fault AccessError.NotAnArray (as_items (document_tree T.text_of self.old))) }
        ensures array { OnOk result (IsSome (as_items (document_tree T.text_of self.old))) }
    {
        match self {
            Document::Array(items) => match items.push(value) {
                Ok(()) => Ok(()),
                Err(refused) => Err(Refused {
                    why: AccessError::OutOfMemory,
                    value: refused.value,
                }),
            },
            _ => Err(Refused {
                why: AccessError::NotAnArray,
                value,
            }),
        }
    }

    /// Takes the last item off; None where there is none. It is refused on a non-array alone.
    pub fn pop(&mut self) -> Result<Option<Document<T>>, AccessError>
        ensures answer { IfOk result (Means T.text_of (last_item (document_tree T.text_of self.old))) }
        ensures after { IsEdited T.text_of without_last self.old self.new }
        ensures refused { OnErr result (IsAsItWas T.text_of self.old self.new) }
        ensures kind { IfErr result (λ e. (e ≡ AccessError.NotAnArray) × (as_items (document_tree T.text_of self.old) ≡ None)) }
        ensures array { OnOk result (IsSome (as_items (document_tree T.text_of self.old))) }
    {
        match self {
            Document::Array(items) => Ok(items.pop()),
            _ => Err(AccessError::NotAnArray),
        }
    }
}
