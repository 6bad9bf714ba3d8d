//! What reads a member by its key, and what lends its value for writing.

ghost use Rattle.std.specs.Prelude.{◌≡◌, ◌+◌, ◌<◌, ℕ, length, None, Some, IsSome, IfSome, is_some, option_map};
ghost use Rattle.std.specs.List.{slice_get};
ghost use Rattle.std.specs.Borrow.{sem};
ghost use Rattle.std.specs.Option.{option_copied, option_copied_mut};

use super::HashMap;
use super::search::{position_counted, position_here, position_of};
use crate::hasher::KeyHasher;
use crate::key::KeyText;
use sj_text_core::Steps;
use std::sync::ledger::Ledger;

impl<K: KeyText, V, S: KeyHasher> HashMap<K, V, S> {
    ghost use Rattle.sj_object.specs.Edits.{lookup, position};
    ghost use Rattle.sj_object.specs.Steps.{entries_visited, walk};
    ghost use Rattle.sj_object.specs.Lends.{LendsValue};

    /// The hash of a text, where there are buckets.
    pub(super) fn hash_in(&self, key: &str) -> u64
        ensures { IsSome self.now.buckets → result ≡ S.hash_of self.now.hasher key.now }
    {
        if self.store.buckets().is_none() {
            0
        } else {
            self.hasher.hash_text(key)
        }
    }

    /// The value of the key. Its hash is read only where there are buckets. It is one call, so that
    /// what finds a value is small.
    #[inline(never)]
    pub(crate) fn find(&self, hash: u64, key: &str) -> Option<&V>
        requires { IsSome self.now.buckets → hash ≡ S.hash_of self.now.hasher key.now }
        ensures { option_copied result ≡ lookup key.now self.now.entries }
    {
        match position_here(&self.store, &self.hasher, hash, key) {
            Some(i) => Some(&self.store.pair(i).1),
            None => None,
        }
    }

    /// The value of the key; None where it is absent.
    pub fn get(&self, key: &str) -> Option<&V>
        ensures { option_copied result ≡ lookup key.now self.now.entries }
    {
        self.find(self.hash_in(key), key)
    }

    /// The value of the key, which hashes to `hash`; None where it is absent.
    pub fn get_hashed(&self, hash: u64, key: &str) -> Option<&V>
        requires { hash ≡ S.hash_of self.now.hasher key.now }
        ensures { option_copied result ≡ lookup key.now self.now.entries }
    {
        self.find(hash, key)
    }

    /// The value of the key, with a step for each key that is compared: in a plain list one for
    /// each member up to the one found, and for every member where none is found; where there are
    /// buckets one for each member of the key's bucket from the last down to the one found, and
    /// for every member of the bucket where none is found.
    pub fn get_steps<L: Ledger>(&self, key: &str, steps: &mut Steps<L>) -> Option<&V>
        ensures value { option_copied result ≡ lookup key.now self.now.entries }
        ensures exact { self.now.buckets ≡ None → steps.new ≡ steps.old + entries_visited key.now self.now.entries }
        ensures chained { (n : ℕ) → self.now.buckets ≡ Some n → steps.new ≡ steps.old + walk (S.hash_of self.now.hasher) n key.now self.now.entries }
    {
        let hash = self.hash_in(key);
        let text = key.as_bytes();
        match position_counted(&self.store, &self.hasher, hash, text, steps) {
            Some(i) => Some(&self.store.pair(i).1),
            None => None,
        }
    }

    /// The position of the key, counted from 0 in the order of the map; None where it is absent. Its
    /// hash is read only where there are buckets.
    pub fn get_index_of(&self, key: &str) -> Option<usize>
        ensures found { result ≡ position key.now self.now.entries }
        ensures within { IfSome result (λ i. i < length self.now.entries) }
        ensures absent { result ≡ None → lookup key.now self.now.entries ≡ None }
    {
        self.index_of(self.hash_in(key), key)
    }

    /// The member at a position, counted from 0, in constant time; None past the last.
    pub fn get_index(&self, index: usize) -> Option<(&K, &V)>
        ensures { option_map (λ m. ((m.0.now, K.text_of m.0.now), m.1.now)) result ≡ slice_get self.now.entries index }
    {
        if index < self.store.len() {
            let pair = self.store.pair(index);
            Some((&pair.0, &pair.1))
        } else {
            None
        }
    }

    /// The position of the key, which hashes to `hash`, counted from 0; None where it is absent.
    pub fn position_hashed(&self, hash: u64, key: &str) -> Option<usize>
        requires { hash ≡ S.hash_of self.now.hasher key.now }
        ensures found { result ≡ position key.now self.now.entries }
        ensures within { IfSome result (λ i. i < length self.now.entries) }
        ensures absent { result ≡ None → lookup key.now self.now.entries ≡ None }
    {
        self.index_of(hash, key)
    }

    /// The position of the key, whose hash is read only where there are buckets.
    fn index_of(&self, hash: u64, key: &str) -> Option<usize>
        requires { IsSome self.now.buckets → hash ≡ S.hash_of self.now.hasher key.now }
        ensures found { result ≡ position key.now self.now.entries }
        ensures within { IfSome result (λ i. i < length self.now.entries) }
        ensures absent { result ≡ None → lookup key.now self.now.entries ≡ None }
    {
        position_of(&self.store, &self.hasher, hash, key)
    }

    /// Whether a member has the key.
    pub fn contains_key(&self, key: &str) -> bool
        ensures { result ≡ is_some (lookup key.now self.now.entries) }
    {
        self.get(key).is_some()
    }

    /// The value of the key, to write. Its hash is read only where there are buckets.
    fn find_mut(&mut self, hash: u64, key: &str) -> Option<&mut V>
        requires { IsSome self.old.buckets → hash ≡ S.hash_of self.old.hasher key.now }
        ensures* writes_back { sem 𝓛 (LendsValue K.row V.row S.row K.KeyText S.KeyHasher self.entry key.now result) }
        ensures value { option_copied_mut result ≡ lookup key.now self.old.entries }
    {
        match position_of(&self.store, &self.hasher, hash, key) {
            Some(i) => Some(self.value_at_mut(i)),
            None => None,
        }
    }

    /// The value of the key, to write; None where it is absent. The map is then as it was, with
    /// what the reference last held in the place of that value.
    pub fn get_mut(&mut self, key: &str) -> Option<&mut V>
        ensures* writes_back { sem 𝓛 (LendsValue K.row V.row S.row K.KeyText S.KeyHasher self.entry key.now result) }
        ensures value { option_copied_mut result ≡ lookup key.now self.old.entries }
    {
        let hash = self.hash_in(key);
        self.find_mut(hash, key)
    }

    /// The same as `get_mut`, where the key hashes to `hash`.
    pub fn get_hashed_mut(&mut self, hash: u64, key: &str) -> Option<&mut V>
        requires { hash ≡ S.hash_of self.old.hasher key.now }
        ensures* writes_back { sem 𝓛 (LendsValue K.row V.row S.row K.KeyText S.KeyHasher self.entry key.now result) }
        ensures value { option_copied_mut result ≡ lookup key.now self.old.entries }
    {
        self.find_mut(hash, key)
    }
}
