//! What a document is compared with through a reference, as a slice and as a map of std.

ghost use Rattle.std.specs.Prelude.{◌↔◌, IsTrue, MatchOption};
ghost use Rattle.sj_object.specs.Edits.{lookup};
ghost use Rattle.sj_document.specs.SameWith.{document_members};
ghost use Rattle.sj_document.specs.SameWith.{document_items, SameEach, SameSlice, SameTexts, SameMap};

use crate::value::{Document, Object};
use sj_object::KeyText;
use sj_text_core::{SameAs, SameWith};
use std::collections::HashMap;
use std::hash::{BuildHasher, Hash};

/// Same exactly where the value behind the reference is the same.
impl<'x, T: KeyText, X: SameWith<Document<T>>> SameAs<&'x X> for Document<T> {
    ghost same = { λ d x. X.same_with d x.now };

    fn same_as(&self, other: &&'x X) -> bool {
        (*other).is_same_with(self)
    }
}

/// Whether there are as many, item by item the same.
fn same_each<D, X: SameWith<D>>(items: &[D], others: &[X]) -> bool
    ensures { IsTrue result ↔ SameEach X.same_with items.now others.now }
{
    let mut rest = others.iter();
    for item in items {
        match rest.next() {
            Some(other) => {
                if !other.is_same_with(item) {
                    return false;
                }
            }
            None => return false,
        }
    }
    match rest.next() {
        Some(_) => false,
        None => true,
    }
}

/// Same exactly where the document is an array of that length, item by item the same.
impl<'x, T: KeyText, X: SameWith<Document<T>>> SameAs<&'x [X]> for Document<T> {
    ghost same = { λ d xs. SameSlice X.same_with (document_items d) xs.now };

    fn same_as(&self, other: &&'x [X]) -> bool {
        match self {
            Document::Array(items) => same_each(items.as_slice(), *other),
            _ => false,
        }
    }
}

/// Whether each text has the same in both: as many members as entries, and a same member for each
/// entry.
fn same_entries<T: KeyText, K: KeyText + Hash, X: SameWith<Document<T>>, S: BuildHasher>(
    members: &Object<T>,
    map: &HashMap<K, X, S>,
) -> bool
    ensures { IsTrue result ↔ SameTexts X.same_with K.text_of (λ k. lookup k members.now.entries) map.now.entries }
{
    if members.len() != map.len() {
        return false;
    }
    for (key, value) in map.iter() {
        if !has_same(members, key.text(), value) {
            return false;
        }
    }
    true
}

/// Whether the object has the value at that key.
fn has_same<T: KeyText, X: SameWith<Document<T>>>(members: &Object<T>, key: &str, value: &X) -> bool
    ensures { IsTrue result ↔ MatchOption (lookup key.now members.now.entries) ⊥ (λ d. X.same_with d value.now) }
{
    match members.get(key) {
        Some(member) => value.is_same_with(member),
        None => false,
    }
}

/// Same exactly where the document is an object with the same texts as the map's keys, member by
/// member the same.
impl<T: KeyText, K: KeyText + Hash, X: SameWith<Document<T>>, S: BuildHasher> SameAs<
    HashMap<K, X, S>,
> for Document<T> {
    ghost same = { λ d m. SameMap X.same_with K.text_of (document_members d) m.entries };

    fn same_as(&self, other: &HashMap<K, X, S>) -> bool {
        match self {
            Document::Object(members) => same_entries(members, other),
            _ => false,
        }
    }
}
