//! Edits. Each makes the value an owned document first, so it is one after every answer but that
//! of a refused upgrade, which leaves it as it was.

ghost use Rattle.std.specs.Prelude.{◌≡◌, ⊤, OnOk, IfOk, IfErr, IsOk, IsSome};
ghost use Rattle.sj_text_core.specs.Find.{find};
ghost use Rattle.sj_text_core.specs.Reads.{as_items, as_members};
ghost use Rattle.sj_document.specs.Document.{document_tree, with_member, without_member, with_item, without_last, last_item, Means};

use super::Lazy;
use crate::upgrade::{Lent, Upgrade};
use sj_document::Document;
use sj_object::KeyText;
use sj_text_core::{AccessError, Refused};
use std::alloc::{AllocError, Global};

impl<P: Upgrade<T> + Drop, B: Lent<T> + Drop, T: KeyText + Drop> Lazy<P, B, T> {
    ghost use Rattle.sj_lazy.specs.Value.{lazy_kept, owned};
    ghost use Rattle.sj_lazy.specs.Edits.{IsLeft, IsOwnedAs, IsLeftByPut, IsLeftByRemoval};

    /// Sets the value of the key, and answers the one before. A key that is there keeps its place;
    /// a new one goes last. Refused on a non-object and for want of memory: the value comes back.
    /// Refused, it is as it was where the upgrade was refused, and else a document of the tree that
    /// it kept.
    pub fn insert(
        &mut self,
        alloc: Global,
        key: T,
        value: Document<T>,
    ) -> Result<Option<Document<T>>, Refused<AccessError, Document<T>>>
        ensures answer { IfOk result (Means T.text_of (find (T.text_of key) (lazy_kept P.part_kept B.lent_tree T.text_of self.old))) }
        ensures after { OnOk result (IsOwnedAs P.part_kept B.lent_tree T.text_of (with_member (T.text_of key) (document_tree T.text_of value)) self.old self.new) }
        ensures object { OnOk result (IsSome (as_members (lazy_kept P.part_kept B.lent_tree T.text_of self.old))) }
        ensures refused { IfErr result (λ r. IsLeftByPut P.part_kept B.lent_tree T.text_of as_members AccessError.NotAnObject self.old self.new r.why) }
        ensures returned { IfErr result (λ r. r.value ≡ value) }
        ensures succeeds { IsSome (owned T.text_of self.old) → IsSome (find (T.text_of key) (lazy_kept P.part_kept B.lent_tree T.text_of self.old)) → IsOk result }
    {
        match self.as_mut(alloc) {
            Ok(document) => document.insert(key, value),
            Err(_) => Err(Refused {
                why: AccessError::OutOfMemory,
                value,
            }),
        }
    }

    /// As `insert`; on a non-object it answers None, gives the value up and does nothing but the
    /// upgrade.
    pub fn try_insert(
        &mut self,
        alloc: Global,
        key: T,
        value: Document<T>,
    ) -> Result<Option<Document<T>>, Refused<AllocError, Document<T>>>
        ensures answer { IfOk result (Means T.text_of (find (T.text_of key) (lazy_kept P.part_kept B.lent_tree T.text_of self.old))) }
        ensures after { OnOk result (IsOwnedAs P.part_kept B.lent_tree T.text_of (with_member (T.text_of key) (document_tree T.text_of value)) self.old self.new) }
        ensures refused { IfErr result (λ r. IsLeft T.text_of (lazy_kept P.part_kept B.lent_tree T.text_of self.old) self.old self.new (⊤) (IsSome (as_members (lazy_kept P.part_kept B.lent_tree T.text_of self.old)))) }
        ensures returned { IfErr result (λ r. r.value ≡ value) }
        ensures succeeds { IsSome (owned T.text_of self.old) → IsSome (find (T.text_of key) (lazy_kept P.part_kept B.lent_tree T.text_of self.old)) → IsOk result }
    {
        match self.as_mut(alloc) {
            Ok(document) => document.try_insert(key, value),
            Err(why) => Err(Refused { why, value }),
        }
    }

    /// Takes the key's member out, and answers its value; the members behind it close up. Refused
    /// on a non-object, and where the upgrade is. Refused, it is as it was where the upgrade was
    /// refused, and else a document of the tree that it kept.
    pub fn remove(&mut self, alloc: Global, key: &str) -> Result<Option<Document<T>>, AccessError>
        ensures answer { IfOk result (Means T.text_of (find key.now (lazy_kept P.part_kept B.lent_tree T.text_of self.old))) }
        ensures after { OnOk result (IsOwnedAs P.part_kept B.lent_tree T.text_of (without_member key.now) self.old self.new) }
        ensures object { OnOk result (IsSome (as_members (lazy_kept P.part_kept B.lent_tree T.text_of self.old))) }
        ensures refused { IfErr result (IsLeftByRemoval P.part_kept B.lent_tree T.text_of as_members AccessError.NotAnObject self.old self.new) }
    {
        match self.as_mut(alloc) {
            Ok(document) => document.remove(key),
            Err(_) => Err(AccessError::OutOfMemory),
        }
    }

    /// Appends an item. Refused on a non-array and for want of memory: the value comes back.
    /// Refused, it is as it was where the upgrade was refused, and else a document of the tree that
    /// it kept.
    pub fn push(
        &mut self,
        alloc: Global,
        value: Document<T>,
    ) -> Result<(), Refused<AccessError, Document<T>>>
        ensures after { OnOk result (IsOwnedAs P.part_kept B.lent_tree T.text_of (with_item (document_tree T.text_of value)) self.old self.new) }
        ensures array { OnOk result (IsSome (as_items (lazy_kept P.part_kept B.lent_tree T.text_of self.old))) }
        ensures refused { IfErr result (λ r. IsLeftByPut P.part_kept B.lent_tree T.text_of as_items AccessError.NotAnArray self.old self.new r.why) }
        ensures returned { IfErr result (λ r. r.value ≡ value) }
    {
        match self.as_mut(alloc) {
            Ok(document) => document.push(value),
            Err(_) => Err(Refused {
                why: AccessError::OutOfMemory,
                value,
            }),
        }
    }

    /// Takes the last item off; None where there is none. Refused on a non-array, and where the
    /// upgrade is. Refused, it is as it was where the upgrade was refused, and else a document of
    /// the tree that it kept.
    pub fn pop(&mut self, alloc: Global) -> Result<Option<Document<T>>, AccessError>
        ensures answer { IfOk result (Means T.text_of (last_item (lazy_kept P.part_kept B.lent_tree T.text_of self.old))) }
        ensures after { OnOk result (IsOwnedAs P.part_kept B.lent_tree T.text_of without_last self.old self.new) }
        ensures array { OnOk result (IsSome (as_items (lazy_kept P.part_kept B.lent_tree T.text_of self.old))) }
        ensures refused { IfErr result (IsLeftByRemoval P.part_kept B.lent_tree T.text_of as_items AccessError.NotAnArray self.old self.new) }
    {
        match self.as_mut(alloc) {
            Ok(document) => document.pop(),
            Err(_) => Err(AccessError::OutOfMemory),
        }
    }
}
