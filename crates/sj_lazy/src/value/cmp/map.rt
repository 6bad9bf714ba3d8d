//! Lazy values compared with maps of std, key by key. Of a tape, members that do not count are not
//! compared.

ghost use Rattle.std.specs.Prelude.{◌≡◌, ◌↔◌, ℕ, List, IsTrue, MatchOption, is_some, map};
ghost use Rattle.sj_lazy.specs.Object.{lazy_members, lazy_object_choice};
ghost use Rattle.sj_lazy.specs.SameMap.{SameAsMap, counted};
ghost use Rattle.sj_lazy.specs.Value.{value_tree, value_choice};
ghost use Rattle.sj_document.specs.SameWith.{SameTexts, value_of_text};
ghost use Rattle.sj_document.specs.inner.SameWith.{EachFound, HasKeys};
ghost use Rattle.sj_tape.specs.Members.{members as tape_members};
ghost use Rattle.sj_text_core.specs.Reads.{as_members};
ghost use Rattle.sj_text_core.specs.Tree.{Tree, paired};

use super::super::Value;
use crate::object::Object;
use crate::same_as_lazy::SameAsLazy;
use sj_object::KeyText;
use sj_tape::Object as TapeObject;
use sj_text_core::SameAs;
use std::collections::HashMap;
use std::hash::{BuildHasher, Hash};

/// Same exactly where the value is an object with the same keys as the map, and each has the same.
impl<'b, 't, 'i, K: KeyText + Hash, X: SameAsLazy, S: BuildHasher> SameAs<HashMap<K, X, S>>
    for Value<'b, 't, 'i> {
    ghost same = { λ v m. SameAsMap X.same_lazy K.text_of (value_choice v) (as_members (value_tree v)) m.entries };

    fn same_as(&self, other: &HashMap<K, X, S>) -> bool {
        match self.as_object() {
            Some(object) => same_entries(&object, other),
            None => false,
        }
    }
}

/// Whether each text has the same in both: as many members at least as entries, a same member for
/// each entry, and no key more.
fn same_entries<K: KeyText + Hash, X: SameAsLazy, S: BuildHasher>(
    object: &Object,
    entries: &HashMap<K, X, S>,
) -> bool
    ensures { IsTrue result ↔ SameTexts (λ u x. X.same_lazy (lazy_object_choice object.now, u) x) K.text_of (counted (lazy_object_choice object.now) (lazy_members object.now)) entries.now.entries }
{
    if object.len() < entries.len() {
        return false;
    }
    each_found(object, entries) && has_keys(object, entries)
}

/// Whether each key of the map has the same value in the object.
fn each_found<K: KeyText + Hash, X: SameAsLazy, S: BuildHasher>(
    object: &Object,
    entries: &HashMap<K, X, S>,
) -> bool
    ensures { IsTrue result ↔ EachFound (λ u x. X.same_lazy (lazy_object_choice object.now, u) x) K.text_of (counted (lazy_object_choice object.now) (lazy_members object.now)) entries.now.entries }
{
    for (key, value) in entries.iter() {
        if !has_same(object, key.text(), value) {
            return false;
        }
    }
    true
}

/// Whether the object has the value at that key.
fn has_same<X: SameAsLazy>(object: &Object, key: &str, value: &X) -> bool
    ensures { IsTrue result ↔ MatchOption (counted (lazy_object_choice object.now) (lazy_members object.now) key.now) ⊥ (λ u. X.same_lazy (lazy_object_choice object.now, u) value.now) }
{
    match object.get(key) {
        Some(member) => value.same_as_lazy(&member),
        None => false,
    }
}

/// Whether each key of the object is one of the map, where each of the map has the same value in
/// the object: a document then has as many members.
fn has_keys<K: KeyText + Hash, X: SameAsLazy, S: BuildHasher>(
    object: &Object,
    entries: &HashMap<K, X, S>,
) -> bool
    requires { EachFound (λ u x. X.same_lazy (lazy_object_choice object.now, u) x) K.text_of (counted (lazy_object_choice object.now) (lazy_members object.now)) entries.now.entries }
    ensures { IsTrue result ↔ HasKeys K.text_of (map (λ (p : List ℕ × Tree). p.0) (paired (lazy_members object.now))) entries.now.entries }
{
    match object {
        Object::Tape(part) => tape_has_keys(part, entries),
        Object::Value(members) => members.len() == entries.len(),
    }
}

/// Whether each key of a tape's object is one of the map.
fn tape_has_keys<K: KeyText + Hash, X, S: BuildHasher>(
    object: &TapeObject,
    entries: &HashMap<K, X, S>,
) -> bool
    ensures { IsTrue result ↔ HasKeys K.text_of (map (λ (p : List ℕ × Tree). p.0) (paired (tape_members object.now))) entries.now.entries }
{
    for key in object.keys() {
        if !has_key(entries, key) {
            return false;
        }
    }
    true
}

/// Whether a key of the map has the text.
fn has_key<K: KeyText + Hash, X, S: BuildHasher>(entries: &HashMap<K, X, S>, text: &str) -> bool
    ensures { result ≡ is_some (value_of_text K.text_of text.now entries.now.entries) }
{
    for (key, _) in entries.iter() {
        if key.text() == text {
            return true;
        }
    }
    false
}
