//! Changes of the value of a known key.

ghost use Rattle.std.specs.Prelude.{◌≡◌, None, Some, IsSome, IfSome, IfOk, IfErr, IsOk, OnOk, OnErr};
ghost use Rattle.std.specs.Cow.{cow_str_bytes};
ghost use Rattle.sj_text_core.specs.Find.{find};
ghost use Rattle.sj_text_core.specs.Reads.{as_members};
ghost use Rattle.sj_object.specs.Edits.{lookup, put_entry, with_value};

use super::KnownKey;
use super::error::Error;
use super::or_insert::members_of;
use super::stored::StoredKey;
use super::target::KnownKeyTargetMut;
use sj_document::{Change, Document};
use sj_object::{HashMap, KeyText, ObjectHasher};
use sj_text_core::Refused;
use std::alloc::AllocError;
use std::mem;

/// Changes the value of the key in a map; where the key is absent, a copy of it goes last with
/// `value`, and that is changed.
fn change_or_put<'k, K: StoredKey<'k>, V: Drop, C: Change<V>>(
    map: &mut HashMap<K, V, ObjectHasher>,
    key: &KnownKey<'k>,
    value: V,
    change: C,
) -> Result<C::Answer, Refused<AllocError, (V, C)>>
    ensures present { IfSome (lookup (cow_str_bytes key.now) map.old.entries) (λ before. IfOk result (λ answer. (w : V) × C.makes change before w answer × (map.new ≡ with_value map.old (cow_str_bytes key.now) w))) }
    ensures absent { lookup (cow_str_bytes key.now) map.old.entries ≡ None → IfOk result (λ answer. (w : V) × C.makes change value w answer × ((copy : K) × (map.new.entries ≡ put_entry (copy, cow_str_bytes key.now) w map.old.entries))) }
    ensures refused { OnErr result (map.new ≡ map.old) }
    ensures returned { IfErr result (λ r. r.value ≡ (value, change)) }
    ensures succeeds { IsSome (lookup (cow_str_bytes key.now) map.old.entries) → IsOk result }
{
    let hash = key.hash();
    if let Some(place) = map.get_hashed_mut(hash, key.key().text()) {
        return Ok(change.change(place));
    }
    let copy = match K::copy_of(key) {
        Ok(copy) => copy,
        Err(why) => {
            return Err(Refused {
                why,
                value: (value, change),
            });
        }
    };
    let last = map.len();
    match map.append_hashed(hash, copy, value) {
        Ok(()) => Ok(change.change(map.value_at_mut(last))),
        Err(Refused { why, value: pair }) => {
            let (_, value) = pair;
            Err(Refused {
                why,
                value: (value, change),
            })
        }
    }
}

impl<'k> KnownKey<'k> {
    ghost use Rattle.sj_document.specs.Document.{document_tree, with_member, IsEdited, IsAsItWas, ChangesInPlace};
    ghost use Rattle.sj_borrowed.specs.Inserts.{known_fault};

    /// Changes the value of the key, and answers what the change does. The target is then as it
    /// was, with what the change left in the place of that value. Where there is none the target is
    /// as it was, and the change comes back.
    ///
    /// ```
    /// let put = Replace { value: Value::from(2_u8) };
    /// KnownKey::change(&mut document, &key, put).is_ok(); // whether it was there
    /// ```
    pub fn change<T: KnownKeyTargetMut, C: Change<T::Output>>(
        target: &mut T,
        key: &KnownKey<'k>,
        change: C,
    ) -> Result<C::Answer, C>
        ensures changed { IfOk result (ChangesInPlace (C.makes change) (λ v. T.finds target.old (cow_str_bytes key.now) (Some v)) (λ w. T.writes target.old (cow_str_bytes key.now) w target.new)) }
        ensures absent { IfErr result (λ back. (back ≡ change) × T.finds target.old (cow_str_bytes key.now) None × T.stays target.old target.new) }
    {
        match KnownKey::lookup_mut(target, key) {
            Some(value) => Ok(change.change(value)),
            None => Err(change),
        }
    }

    /// Puts `new` in the place of the value of the key, and answers that value. Where there is none
    /// the target is as it was, and `new` comes back.
    ///
    /// ```
    /// KnownKey::replace(&mut document, &key, Value::from(1_u8)).is_ok(); // whether it was there
    /// ```
    pub fn replace<T: KnownKeyTargetMut>(
        target: &mut T,
        key: &KnownKey<'k>,
        new: T::Output,
    ) -> Result<T::Output, T::Output>
        ensures answer { IfOk result (λ before. T.finds target.old (cow_str_bytes key.now) (Some before)) }
        ensures written { IfOk result (λ before. T.writes target.old (cow_str_bytes key.now) new target.new) }
        ensures absent { IfErr result (λ back. (back ≡ new) × T.finds target.old (cow_str_bytes key.now) None × T.stays target.old target.new) }
    {
        match KnownKey::lookup_mut(target, key) {
            Some(value) => Ok(mem::replace(value, new)),
            None => Err(new),
        }
    }

    /// Changes the value of the key, and answers what the change does; where the key is absent, a
    /// copy of it goes last with `value`, and that is changed. The document is then as it was, with
    /// what the change left as the value of the key. On a non-object, and for want of memory where
    /// the key is absent, it is refused: the value and the change come back, and the document is as
    /// it was.
    ///
    /// ```
    /// let more = Replace { value: Value::from(2_u8) };
    /// KnownKey::change_or_insert(&mut document, &key, Value::from(0_u8), more)?; // 0, where it is absent
    /// ```
    pub fn change_or_insert<T: StoredKey<'k>, C: Change<Document<T>>>(
        target: &mut Document<T>,
        key: &KnownKey<'k>,
        value: Document<T>,
        change: C,
    ) -> Result<C::Answer, Refused<Error, (Document<T>, C)>>
        ensures present { IfSome (find (cow_str_bytes key.now) (document_tree T.text_of target.old)) (λ before. IfOk result (ChangesInPlace (C.makes change) (λ v. document_tree T.text_of v ≡ before) (λ w. IsEdited T.text_of (with_member (cow_str_bytes key.now) (document_tree T.text_of w)) target.old target.new))) }
        ensures absent { find (cow_str_bytes key.now) (document_tree T.text_of target.old) ≡ None → IfOk result (λ answer. (w : Document T) × C.makes change value w answer × IsEdited T.text_of (with_member (cow_str_bytes key.now) (document_tree T.text_of w)) target.old target.new) }
        ensures object { OnOk result (IsSome (as_members (document_tree T.text_of target.old))) }
        ensures refused { OnErr result (IsAsItWas T.text_of target.old target.new) }
        ensures returned { IfErr result (λ r. r.value ≡ (value, change)) }
        ensures kind { IfErr result (λ r. r.why ≡ known_fault (document_tree T.text_of target.old)) }
        ensures succeeds { IsSome (find (cow_str_bytes key.now) (document_tree T.text_of target.old)) → IsOk result }
    {
        match members_of(target) {
            Ok(members) => match change_or_put(members, key, value, change) {
                Ok(answer) => Ok(answer),
                Err(refused) => Err(refused.because(Error::OutOfMemory)),
            },
            Err(why) => Err(Refused {
                why,
                value: (value, change),
            }),
        }
    }
}
