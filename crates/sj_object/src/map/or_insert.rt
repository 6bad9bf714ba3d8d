//! The value of a key, which is made where the key is absent.

ghost use Rattle.std.specs.Prelude.{◌≡◌, ◌<◌, length, Some, None, IsSome, IfSome, IfOk, IsOk};
ghost use Rattle.std.specs.Borrow.{sem};

use super::HashMap;
use super::members::Members;
use super::room::make_room;
use super::search::position_of;
use super::store::Store;
use crate::hasher::KeyHasher;
use crate::key::KeyText;
use std::alloc::AllocError;

impl<K: KeyText, V, S: KeyHasher> HashMap<K, V, S> {
    ghost use Rattle.sj_object.specs.Edits.{lookup, nth_value};
    ghost use Rattle.sj_object.specs.Index.{NeedsHash};
    ghost use Rattle.sj_object.specs.Lends.{LendsAt, LendsEntry};

    /// The value at a position, to write. The map is then as it was, with what the reference last
    /// held in the place of that value.
    pub fn value_at_mut(&mut self, position: usize) -> &mut V
        requires { position < length self.old.entries }
        ensures* writes_back { sem 𝓛 (LendsAt K.row V.row S.row K.KeyText S.KeyHasher self.entry position result) }
        ensures value { nth_value position self.old.entries ≡ Some result.now }
    {
        match &mut self.store {
            Store::Plain(pairs) => {
                let pair = &mut pairs[position];
                &mut pair.1
            }
            Store::Hashed(hashed) => match &mut hashed.members {
                Members::Listed(pairs) => {
                    let pair = &mut pairs[position];
                    &mut pair.1
                }
                Members::Ring(pairs) => {
                    let pair = &mut pairs[position];
                    &mut pair.1
                }
            },
        }
    }

    /// The value of the key, to write; where the key is absent, `with` is called once and its answer
    /// goes last. It is refused only for want of memory, and for no key that is there: then `with` is
    /// not called, the key is given up, and the map is as it was.
    pub fn get_or_insert_with<F: FnOnce() -> V + Drop>(
        &mut self,
        key: K,
        with: F,
    ) -> Result<&mut V, AllocError>
    where
        K: Drop,
        requires { lookup (K.text_of key) self.old.entries ≡ None → F.pre with }
        ensures* writes_back { sem 𝓛 (LendsEntry K.row V.row S.row K.KeyText S.KeyHasher self.entry (key, K.text_of key) result) }
        ensures found { IfSome (lookup (K.text_of key) self.old.entries) (λ before. IfOk result (λ v. v.now ≡ before)) }
        ensures made { lookup (K.text_of key) self.old.entries ≡ None → IfOk result (λ v. F.post with v.now) }
        ensures succeeds { IsSome (lookup (K.text_of key) self.old.entries) → IsOk result }
    {
        let hash = self.hash_for(key.text());
        self.find_or_append(hash, key, with)
    }

    /// The value of the key, which hashes to `hash`, to write; where the key is absent, `with` is
    /// called once and its answer goes last. It is refused only for want of memory, and for no key
    /// that is there: then `with` is not called, the key is given up, and the map is as it was.
    pub fn get_or_insert_hashed_with<F: FnOnce() -> V + Drop>(
        &mut self,
        hash: u64,
        key: K,
        with: F,
    ) -> Result<&mut V, AllocError>
    where
        K: Drop,
        requires hash { hash ≡ S.hash_of self.old.hasher (K.text_of key) }
        requires with { lookup (K.text_of key) self.old.entries ≡ None → F.pre with }
        ensures* writes_back { sem 𝓛 (LendsEntry K.row V.row S.row K.KeyText S.KeyHasher self.entry (key, K.text_of key) result) }
        ensures found { IfSome (lookup (K.text_of key) self.old.entries) (λ before. IfOk result (λ v. v.now ≡ before)) }
        ensures made { lookup (K.text_of key) self.old.entries ≡ None → IfOk result (λ v. F.post with v.now) }
        ensures succeeds { IsSome (lookup (K.text_of key) self.old.entries) → IsOk result }
    {
        self.find_or_append(hash, key, with)
    }

    /// The same, where the hash is read only with buckets, or where there will be some.
    fn find_or_append<F: FnOnce() -> V + Drop>(
        &mut self,
        hash: u64,
        key: K,
        with: F,
    ) -> Result<&mut V, AllocError>
    where
        K: Drop,
        requires hash { NeedsHash (length self.old.entries) self.old.buckets → hash ≡ S.hash_of self.old.hasher (K.text_of key) }
        requires with { lookup (K.text_of key) self.old.entries ≡ None → F.pre with }
        ensures* writes_back { sem 𝓛 (LendsEntry K.row V.row S.row K.KeyText S.KeyHasher self.entry (key, K.text_of key) result) }
        ensures found { IfSome (lookup (K.text_of key) self.old.entries) (λ before. IfOk result (λ v. v.now ≡ before)) }
        ensures made { lookup (K.text_of key) self.old.entries ≡ None → IfOk result (λ v. F.post with v.now) }
        ensures succeeds { IsSome (lookup (K.text_of key) self.old.entries) → IsOk result }
    {
        if let Some(i) = position_of(&self.store, &self.hasher, hash, key.text()) {
            return Ok(self.value_at_mut(i));
        }
        self.append_hashed_with(hash, key, with)
    }

    /// Puts the key last, which is not there, with what `with` answers, and lends that value to write.
    /// The hash is read only where there are buckets, or where there will be some. It is refused only
    /// for want of memory: then `with` is not called, the key is given up, and the map is as it was.
    pub fn append_hashed_with<F: FnOnce() -> V + Drop>(
        &mut self,
        hash: u64,
        key: K,
        with: F,
    ) -> Result<&mut V, AllocError>
    where
        K: Drop,
        requires hash { NeedsHash (length self.old.entries) self.old.buckets → hash ≡ S.hash_of self.old.hasher (K.text_of key) }
        requires absent { lookup (K.text_of key) self.old.entries ≡ None }
        requires with { F.pre with }
        ensures* writes_back { sem 𝓛 (LendsEntry K.row V.row S.row K.KeyText S.KeyHasher self.entry (key, K.text_of key) result) }
        ensures made { IfOk result (λ v. F.post with v.now) }
    {
        if let Err(why) = make_room(&mut self.store, &self.hasher, hash) {
            return Err(why);
        }
        let value = with();
        self.store.push_reserved((key, value));
        let last = self.store.len() - 1;
        Ok(self.value_at_mut(last))
    }
}
