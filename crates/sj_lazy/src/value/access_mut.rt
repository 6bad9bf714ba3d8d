//! Parts of a lazy value, lent for writing. Each call makes the value an owned document first.

ghost use Rattle.std.specs.Prelude.{◌≡◌, Some, None, IfOk, IfErr, IsSome, IsOk, option_map, map};
ghost use Rattle.sj_document.specs.Document.{document_tree};
ghost use Rattle.sj_document.specs.Rows.{document_row, object_row, array_row};
ghost use Rattle.sj_object.specs.Members.{entry_members};
ghost use Rattle.sj_text_core.specs.Find.{find, nth};
ghost use Rattle.sj_text_core.specs.Paths.{by_key, by_place, set_found};
ghost use Rattle.sj_text_core.specs.Reads.{as_items, as_members};
ghost use Rattle.sj_text_core.specs.Tree.{list, obj, items_from};

use super::Lazy;
use crate::upgrade::{Lent, Upgrade};
use sj_document::{Document, Object};
use sj_object::KeyText;
use sj_text_core::AccessError;
use std::alloc::{AllocError, Global};

impl<P: Upgrade<T> + Drop, B: Lent<T> + Drop, T: KeyText + Drop> Lazy<P, B, T> {
    ghost use Rattle.std.specs.Borrow.{LendsSoOk, sem};
    ghost use Rattle.sj_lazy.specs.Value.{lazy_kept, owned};
    ghost use Rattle.sj_lazy.specs.Rows.{lazy_row};
    ghost use Rattle.sj_lazy.specs.Edits.{IsLeft};
    ghost use Rattle.sj_lazy.specs.Loans.{LendsPart};

    /// The members of an object, to write, once it is owned. What it is then is the object of what
    /// they last were. Refused for its kind, it is owned; for want of memory, it is as it was.
    pub fn object_mut(&mut self, alloc: Global) -> Result<&mut Object<T>, AccessError>
        ensures* writes_back { sem 𝓛 (LendsSoOk (lazy_row P.row B.row T.row T.KeyText) (object_row T.row T.KeyText) self.entry result
            (λ n w. owned T.text_of n ≡ Some (obj (entry_members (document_tree T.text_of) w.entries)))
            (λ n. IfErr result (λ e. IsLeft T.text_of (lazy_kept P.part_kept B.lent_tree T.text_of self.old) self.old n (e ≡ AccessError.OutOfMemory) (e ≡ AccessError.NotAnObject)))) }
        ensures value { IfOk result (λ m. Some (entry_members (document_tree T.text_of) m.now.entries) ≡ as_members (lazy_kept P.part_kept B.lent_tree T.text_of self.old)) }
        ensures kind { IfErr result (λ e. e ≡ AccessError.NotAnObject → as_members (lazy_kept P.part_kept B.lent_tree T.text_of self.old) ≡ None) }
        ensures succeeds { IsSome (owned T.text_of self.old) → IsSome (as_members (lazy_kept P.part_kept B.lent_tree T.text_of self.old)) → IsOk result }
    {
        match self.as_mut(alloc) {
            Ok(document) => match document.as_object_mut() {
                Some(members) => Ok(members),
                None => Err(AccessError::NotAnObject),
            },
            Err(_) => Err(AccessError::OutOfMemory),
        }
    }

    /// The items of an array, to write, once it is owned. What it is then is the array of what they
    /// last were. Refused for its kind, it is owned; for want of memory, it is as it was.
    pub fn array_mut(&mut self, alloc: Global) -> Result<&mut Vec<Document<T>>, AccessError>
        ensures* writes_back { sem 𝓛 (LendsSoOk (lazy_row P.row B.row T.row T.KeyText) (array_row T.row T.KeyText) self.entry result
            (λ n w. owned T.text_of n ≡ Some (list (items_from (map (document_tree T.text_of) w.items))))
            (λ n. IfErr result (λ e. IsLeft T.text_of (lazy_kept P.part_kept B.lent_tree T.text_of self.old) self.old n (e ≡ AccessError.OutOfMemory) (e ≡ AccessError.NotAnArray)))) }
        ensures value { IfOk result (λ v. Some (items_from (map (document_tree T.text_of) v.now.items)) ≡ as_items (lazy_kept P.part_kept B.lent_tree T.text_of self.old)) }
        ensures kind { IfErr result (λ e. e ≡ AccessError.NotAnArray → as_items (lazy_kept P.part_kept B.lent_tree T.text_of self.old) ≡ None) }
        ensures succeeds { IsSome (owned T.text_of self.old) → IsSome (as_items (lazy_kept P.part_kept B.lent_tree T.text_of self.old)) → IsOk result }
    {
        match self.as_mut(alloc) {
            Ok(document) => match document.as_array_mut() {
                Some(items) => Ok(items),
                None => Err(AccessError::NotAnArray),
            },
            Err(_) => Err(AccessError::OutOfMemory),
        }
    }

    // Why so: docs/REFUSED.md, "What a lazy value's `as_array_mut`, `as_object_mut`".
    /// The members, to write, where it is an object; it is owned first. What it is then is the
    /// object of what they last were. Refused for want of memory, it is as it was.
    pub fn as_object_mut(&mut self, alloc: Global) -> Result<Option<&mut Object<T>>, AllocError>
        ensures* writes_back { sem 𝓛 (LendsPart P.row B.row T.row T.KeyText (object_row T.row T.KeyText) self.entry result
            (λ w _. obj (entry_members (document_tree T.text_of) w.entries)) (lazy_kept P.part_kept B.lent_tree T.text_of self.old)) }
        ensures value { IfOk result (λ found. option_map (λ m. entry_members (document_tree T.text_of) m.now.entries) found ≡ as_members (lazy_kept P.part_kept B.lent_tree T.text_of self.old)) }
        ensures succeeds { IsSome (owned T.text_of self.old) → IsOk result }
    {
        match self.as_mut(alloc) {
            Ok(document) => Ok(document.as_object_mut()),
            Err(why) => Err(why),
        }
    }

    /// The items, to write, where it is an array; it is owned first. What it is then is the array
    /// of what they last were. Refused for want of memory, it is as it was.
    pub fn as_array_mut(
        &mut self,
        alloc: Global,
    ) -> Result<Option<&mut Vec<Document<T>>>, AllocError>
        ensures* writes_back { sem 𝓛 (LendsPart P.row B.row T.row T.KeyText (array_row T.row T.KeyText) self.entry result
            (λ w _. list (items_from (map (document_tree T.text_of) w.items))) (lazy_kept P.part_kept B.lent_tree T.text_of self.old)) }
        ensures value { IfOk result (λ found. option_map (λ v. items_from (map (document_tree T.text_of) v.now.items)) found ≡ as_items (lazy_kept P.part_kept B.lent_tree T.text_of self.old)) }
        ensures succeeds { IsSome (owned T.text_of self.old) → IsOk result }
    {
        match self.as_mut(alloc) {
            Ok(document) => Ok(document.as_array_mut()),
            Err(why) => Err(why),
        }
    }

    /// The value of the key, to write; None where there is none, and on a non-object. It is owned
    /// then, with what the reference last held in the place of that value. Refused for want of
    /// memory, it is as it was.
    pub fn get_mut(
        &mut self,
        alloc: Global,
        key: &str,
    ) -> Result<Option<&mut Document<T>>, AllocError>
        ensures* writes_back { sem 𝓛 (LendsPart P.row B.row T.row T.KeyText (document_row T.row T.KeyText) self.entry result
            (λ w. set_found (by_key key.now) (document_tree T.text_of w)) (lazy_kept P.part_kept B.lent_tree T.text_of self.old)) }
        ensures value { IfOk result (λ found. option_map (λ v. document_tree T.text_of v.now) found ≡ find key.now (lazy_kept P.part_kept B.lent_tree T.text_of self.old)) }
        ensures succeeds { IsSome (owned T.text_of self.old) → IsOk result }
    {
        match self.as_mut(alloc) {
            Ok(document) => Ok(document.get_mut(key)),
            Err(why) => Err(why),
        }
    }

    /// The item at that position, counted from 0, to write; None past the last, and on a non-array.
    /// It is owned then, with what the reference last held in the place of that item. Refused for
    /// want of memory, it is as it was.
    pub fn get_idx_mut(
        &mut self,
        alloc: Global,
        index: usize,
    ) -> Result<Option<&mut Document<T>>, AllocError>
        ensures* writes_back { sem 𝓛 (LendsPart P.row B.row T.row T.KeyText (document_row T.row T.KeyText) self.entry result
            (λ w. set_found (by_place index) (document_tree T.text_of w)) (lazy_kept P.part_kept B.lent_tree T.text_of self.old)) }
        ensures value { IfOk result (λ found. option_map (λ v. document_tree T.text_of v.now) found ≡ nth index (lazy_kept P.part_kept B.lent_tree T.text_of self.old)) }
        ensures succeeds { IsSome (owned T.text_of self.old) → IsOk result }
    {
        match self.as_mut(alloc) {
            Ok(document) => Ok(document.get_idx_mut(index)),
            Err(why) => Err(why),
        }
    }
}
