//! What adds a member, or replaces a value.

ghost use Rattle.std.specs.Prelude.{◌≡◌, ◌++◌, ◌∷◌, [], length, None, IsSome, IsOk, IfOk, IfErr, OnOk, OnErr};

use super::HashMap;
use super::room::make_room;
use super::search::position_of;
use crate::hasher::KeyHasher;
use crate::key::KeyText;
use sj_text_core::Refused;
use std::alloc::AllocError;

impl<K: KeyText, V, S: KeyHasher> HashMap<K, V, S> {
    ghost use Rattle.sj_object.specs.Edits.{lookup, put_entry};
    ghost use Rattle.sj_object.specs.Index.{buckets_for, NeedsHash};

    /// Sets the value of the key, and answers the one before. A key that is there keeps its place
    /// and its stored key, and is never refused; a new one goes last. It is refused only for want
    /// of memory: the key and the value come back, and the map is as it was.
    pub fn insert(&mut self, key: K, value: V) -> Result<Option<V>, Refused<AllocError, (K, V)>>
    where
        K: Drop,
        ensures answer { IfOk result (λ before. before ≡ lookup (K.text_of key) self.old.entries) }
        ensures entries { OnOk result (self.new.entries ≡ put_entry (key, K.text_of key) value self.old.entries) }
        ensures hasher { self.new.hasher ≡ self.old.hasher }
        ensures buckets { OnOk result (self.new.buckets ≡ buckets_for (length self.new.entries) self.old.buckets) }
        ensures refused { OnErr result (self.new ≡ self.old) }
        ensures returned { IfErr result (λ r. r.value ≡ (key, value)) }
        ensures succeeds { IsSome (lookup (K.text_of key) self.old.entries) → IsOk result }
    {
        let hash = self.hash_for(key.text());
        self.put(hash, key, value)
    }

    /// The same as `insert`, where the key hashes to `hash`.
    pub fn insert_hashed(
        &mut self,
        hash: u64,
        key: K,
        value: V,
    ) -> Result<Option<V>, Refused<AllocError, (K, V)>>
    where
        K: Drop,
        requires { hash ≡ S.hash_of self.old.hasher (K.text_of key) }
        ensures answer { IfOk result (λ before. before ≡ lookup (K.text_of key) self.old.entries) }
        ensures entries { OnOk result (self.new.entries ≡ put_entry (key, K.text_of key) value self.old.entries) }
        ensures hasher { self.new.hasher ≡ self.old.hasher }
        ensures buckets { OnOk result (self.new.buckets ≡ buckets_for (length self.new.entries) self.old.buckets) }
        ensures refused { OnErr result (self.new ≡ self.old) }
        ensures returned { IfErr result (λ r. r.value ≡ (key, value)) }
        ensures succeeds { IsSome (lookup (K.text_of key) self.old.entries) → IsOk result }
    {
        self.put(hash, key, value)
    }

    /// The same, where the hash is read only with buckets, or where there will be some.
    fn put(&mut self, hash: u64, key: K, value: V) -> Result<Option<V>, Refused<AllocError, (K, V)>>
    where
        K: Drop,
        requires { NeedsHash (length self.old.entries) self.old.buckets → hash ≡ S.hash_of self.old.hasher (K.text_of key) }
        ensures answer { IfOk result (λ before. before ≡ lookup (K.text_of key) self.old.entries) }
        ensures entries { OnOk result (self.new.entries ≡ put_entry (key, K.text_of key) value self.old.entries) }
        ensures hasher { self.new.hasher ≡ self.old.hasher }
        ensures buckets { OnOk result (self.new.buckets ≡ buckets_for (length self.new.entries) self.old.buckets) }
        ensures refused { OnErr result (self.new ≡ self.old) }
        ensures returned { IfErr result (λ r. r.value ≡ (key, value)) }
        ensures succeeds { IsSome (lookup (K.text_of key) self.old.entries) → IsOk result }
    {
        match position_of(&self.store, &self.hasher, hash, key.text()) {
            Some(i) => Ok(Some(self.store.replace(i, value))),
            None => {
                self.append_hashed(hash, key, value)?;
                Ok(None)
            }
        }
    }

    /// The hash of a text, where `append_hashed` reads it.
    pub(crate) fn hash_for(&self, text: &str) -> u64
        ensures { NeedsHash (length self.now.entries) self.now.buckets → result ≡ S.hash_of self.now.hasher text.now }
    {
        if self.store.reads_hash() {
            self.hasher.hash_text(text)
        } else {
            0
        }
    }

    /// Puts a member last, whose key is not there. The hash is read only where there are buckets,
    /// or where there will be some. It is refused only for want of memory: the key and the value
    /// come back, and the map is as it was.
    pub fn append_hashed(
        &mut self,
        hash: u64,
        key: K,
        value: V,
    ) -> Result<(), Refused<AllocError, (K, V)>>
        requires absent { lookup (K.text_of key) self.old.entries ≡ None }
        requires hash { NeedsHash (length self.old.entries) self.old.buckets → hash ≡ S.hash_of self.old.hasher (K.text_of key) }
        ensures entries { OnOk result (self.new.entries ≡ self.old.entries ++ ((key, K.text_of key), value) ∷ []) }
        ensures hasher { self.new.hasher ≡ self.old.hasher }
        ensures buckets { OnOk result (self.new.buckets ≡ buckets_for (length self.new.entries) self.old.buckets) }
        ensures refused { OnErr result (self.new ≡ self.old) }
        ensures returned { IfErr result (λ r. r.value ≡ (key, value)) }
    {
        match make_room(&mut self.store, &self.hasher, hash) {
            Ok(()) => {
                self.store.push_reserved((key, value));
                Ok(())
            }
            Err(why) => Err(Refused {
                why,
                value: (key, value),
            }),
        }
    }
}
