//! Inserts by a known key.

ghost use Rattle.std.specs.Prelude.{◌≡◌, length, OnOk, OnErr, IfOk, IfErr, IsOk, IsSome, is_some, if◌then◌else◌};
ghost use Rattle.std.specs.Cow.{cow_str_bytes};
ghost use Rattle.sj_text_core.specs.Find.{find};
ghost use Rattle.sj_text_core.specs.Reads.{as_members};
ghost use Rattle.sj_object.specs.Edits.{lookup};
ghost use Rattle.sj_object.specs.Index.{buckets_for};

use super::KnownKey;
use super::error::Error;
use super::stored::StoredKey;
use sj_document::{BorrowedValue, Object};
use sj_object::KeyText;
use sj_text_core::{Refused, TypedValue};
use std::alloc::AllocError;
use std::borrow::CowStr;
use std::mem;

impl<'k> KnownKey<'k> {
    ghost use Rattle.sj_document.specs.Document.{document_tree, with_member, Means, IsEdited, IsAsItWas};
    ghost use Rattle.sj_borrowed.specs.Inserts.{IsPut, known_fault};

    /// Sets the value of the key, and answers the one before, as the map's own insert does. The
    /// key is cloned only where it is absent. It is refused only for want of memory, and for no
    /// key that is there: the value comes back, and the map is as it was.
    ///
    /// ```
    /// key.map_insert(&mut members, Value::from(2_u8))?;
    /// ```
    pub fn map_insert<'v>(
        &self,
        map: &mut Object<CowStr<'v>>,
        value: BorrowedValue<'v>,
    ) -> Result<Option<BorrowedValue<'v>>, Refused<AllocError, BorrowedValue<'v>>>
    where
        'k: 'v,
        ensures answer { IfOk result (λ before. before ≡ lookup (cow_str_bytes self.now) map.old.entries) }
        ensures entries { OnOk result (IsPut self.now value.entry map.old.entries map.new.entries) }
        ensures buckets { OnOk result (map.new.buckets ≡ (if is_some (lookup (cow_str_bytes self.now) map.old.entries) then map.old.buckets else buckets_for (length map.new.entries) map.old.buckets)) }
        ensures refused { OnErr result (map.new ≡ map.old) }
        ensures returned { IfErr result (λ r. r.value ≡ value.entry) }
        ensures succeeds { IsSome (lookup (cow_str_bytes self.now) map.old.entries) → IsOk result }
    {
        if let Some(place) = map.get_hashed_mut(self.hash(), self.key().text()) {
            return Ok(Some(mem::replace(place, value)));
        }
        let key = match CowStr::copy_of(self) {
            Ok(key) => key,
            Err(why) => return Err(Refused { why, value }),
        };
        match map.append_hashed(self.hash(), key, value) {
            Ok(()) => Ok(None),
            Err(Refused { why, value: pair }) => {
                let (_, value) = pair;
                Err(Refused { why, value })
            }
        }
    }

    /// Sets the value of the key, and answers the one before. The key is cloned only where it is
    /// absent. On a non-object, and for want of memory where the key is absent, it is refused: the
    /// value comes back, and the document is as it was.
    ///
    /// ```
    /// key.insert(&mut document, Value::from("news"))?;
    /// ```
    pub fn insert<'v>(
        &self,
        target: &mut BorrowedValue<'v>,
        value: BorrowedValue<'v>,
    ) -> Result<Option<BorrowedValue<'v>>, Refused<Error, BorrowedValue<'v>>>
    where
        'k: 'v,
        ensures answer { IfOk result (Means cow_str_bytes (find (cow_str_bytes self.now) (document_tree cow_str_bytes target.old))) }
        ensures after { OnOk result (IsEdited cow_str_bytes (with_member (cow_str_bytes self.now) (document_tree cow_str_bytes value.entry)) target.old target.new) }
        ensures object { OnOk result (IsSome (as_members (document_tree cow_str_bytes target.old))) }
        ensures refused { OnErr result (IsAsItWas cow_str_bytes target.old target.new) }
        ensures returned { IfErr result (λ r. r.value ≡ value.entry) }
        ensures kind { IfErr result (λ r. r.why ≡ known_fault (document_tree cow_str_bytes target.old)) }
        ensures succeeds { IsSome (find (cow_str_bytes self.now) (document_tree cow_str_bytes target.old)) → IsOk result }
    {
        let kind = target.value_type();
        match target.as_object_mut() {
            Some(members) => match self.map_insert(members, value) {
                Ok(before) => Ok(before),
                Err(refused) => Err(refused.because(Error::OutOfMemory)),
            },
            None => Err(Refused {
                why: Error::NotAnObject(kind),
                value,
            }),
        }
    }
}
