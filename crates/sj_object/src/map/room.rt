//! What makes room for a member, and the index of a list that grows past 32 members.

ghost use Rattle.std.specs.Prelude.{◌≡◌, ◌+◌, ◌<◌, ◌≤◌, ◌∷◌, ◌++◌, [], ℕ, List, length, map, Some, None, IfOk, OnOk, OnErr};
ghost use Rattle.std.specs.Vec.{vec_len, vec_capacity};
ghost use Rattle.sj_object.specs.Index.{buckets_for, IsTableOf, NeedsHash};
ghost use Rattle.sj_object.specs.Stored.{pairs_of, buckets_of, IsIndexOf};
ghost use Rattle.sj_object.specs.inner.Stored.{HasSpare};

use super::index::Table;
use super::members::Members;
use super::store::{Hashed, Store};
use crate::hasher::KeyHasher;
use crate::key::KeyText;
use std::alloc::{AllocError, Global};
use std::mem;

/// Puts the hashes of the keys last, in order.
fn push_hashes<K: KeyText, V, S: KeyHasher>(
    pairs: &[(K, V)],
    hasher: &S,
    hashes: &mut Vec<u64>,
) -> Result<(), AllocError>
    ensures space { vec_capacity hashes.old ≤ vec_capacity hashes.new }
    ensures hashes { OnOk result (hashes.new.items ≡ hashes.old.items ++ map (λ p. S.hash_of hasher.now (K.text_of p.0)) pairs.now) }
{
    for pair in pairs {
        hashes.push(hasher.hash_text(pair.0.text()))?;
    }
    Ok(())
}

/// The hashes of the keys in order, and one more, with room for 80.
fn hashes_of<K: KeyText, V, S: KeyHasher>(
    alloc: Global,
    store: &Store<K, V>,
    hasher: &S,
    last: u64,
) -> Result<Vec<u64>, AllocError>
    ensures hashes { IfOk result (λ hs. hs.items ≡ map (λ p. S.hash_of hasher.now (K.text_of p.0)) (pairs_of store.now) ++ last ∷ []) }
    ensures space { IfOk result (λ hs. 80 ≤ vec_capacity hs) }
{
    let (front, back) = store.as_slices();
    let mut hashes = Vec::with_capacity(alloc, 80)?;
    push_hashes(front, hasher, &mut hashes)?;
    push_hashes(back, hasher, &mut hashes)?;
    hashes.push(last)?;
    Ok(hashes)
}

impl<K, V> Store<K, V> {
    /// Makes a place for one more member.
    #[inline(always)]
    fn reserve(&mut self) -> Result<(), AllocError>
        ensures pairs { pairs_of self.new ≡ pairs_of self.old }
        ensures place { OnOk result (HasSpare self.new) }
        ensures index { (hashes : List ℕ) → IsIndexOf hashes self.old → IsIndexOf hashes self.new }
        ensures buckets { buckets_of self.new ≡ buckets_of self.old }
    {
        match self {
            Store::Plain(pairs) => pairs.reserve(1),
            Store::Hashed(hashed) => hashed.members.reserve(),
        }
    }

    /// The members beside their index. Where there is no memory they are a plain list.
    fn with_index(alloc: Global, pairs: Vec<(K, V)>, table: Table) -> (Self, Result<(), AllocError>)
        ensures pairs { pairs_of result.0 ≡ pairs.items }
        ensures place { vec_len pairs < vec_capacity pairs → HasSpare result.0 }
        ensures index { (hashes : List ℕ) → IsTableOf hashes table → OnOk result.1 (IsIndexOf hashes result.0) }
        ensures buckets { OnOk result.1 (buckets_of result.0 ≡ Some (length table.heads.items)) }
        ensures refused { OnErr result.1 (buckets_of result.0 ≡ None) }
    {
        let members = Members::Listed(pairs);
        match Box::new(alloc, Hashed { members, table }) {
            Ok(hashed) => (Store::Hashed(hashed), Ok(())),
            Err(refused) => {
                let Hashed { members, table: _ } = refused.value;
                (Store::Plain(members.into_vec()), Err(AllocError))
            }
        }
    }

    /// Puts the members beside their index. Where there is no memory they are a plain list then.
    fn put_beside(&mut self, table: Table) -> Result<(), AllocError>
        ensures pairs { pairs_of self.new ≡ pairs_of self.old }
        ensures place { HasSpare self.old → HasSpare self.new }
        ensures index { (hashes : List ℕ) → IsTableOf hashes table → OnOk result (IsIndexOf hashes self.new) }
        ensures buckets { OnOk result (buckets_of self.new ≡ Some (length table.heads.items)) }
        ensures refused { OnErr result (buckets_of self.new ≡ None) }
    {
        let alloc = self.allocator();
        let pairs = mem::replace(self, Store::Plain(Vec::new(alloc))).into_vec();
        let (store, done) = Store::with_index(alloc, pairs, table);
        mem::replace(self, store).into_vec().destroy_empty();
        done
    }
}

/// Puts the hash of one more member last, where there are buckets, or will be some for the 33rd.
#[inline(never)]
fn add_hash<K: KeyText, V, S: KeyHasher>(
    store: &mut Store<K, V>,
    hasher: &S,
    hash: u64,
) -> Result<(), AllocError>
    requires index { IsIndexOf (map (λ p. S.hash_of hasher.now (K.text_of p.0)) (pairs_of store.old)) store.old }
    requires many { NeedsHash (length (pairs_of store.old)) (buckets_of store.old) }
    ensures pairs { pairs_of store.new ≡ pairs_of store.old }
    ensures place { HasSpare store.old → HasSpare store.new }
    ensures ok { OnOk result (IsIndexOf (map (λ p. S.hash_of hasher.now (K.text_of p.0)) (pairs_of store.old) ++ hash ∷ []) store.new) }
    ensures buckets { OnOk result (buckets_of store.new ≡ buckets_for (length (pairs_of store.old) + 1) (buckets_of store.old)) }
    ensures refused { OnErr result (IsIndexOf (map (λ p. S.hash_of hasher.now (K.text_of p.0)) (pairs_of store.old)) store.new) }
    ensures refused_buckets { OnErr result (buckets_of store.new ≡ buckets_of store.old) }
{
    let alloc = store.allocator();
    if let Store::Hashed(hashed) = store {
        return hashed.table.push(alloc, hash);
    }
    let hashes = hashes_of(alloc, store, hasher, hash)?;
    store.put_beside(Table::of_hashes(alloc, hashes)?)
}

/// Makes every growth for one more member, whose hash is then there: only the pair is missing.
#[inline]
pub fn make_room<K: KeyText, V, S: KeyHasher>(
    store: &mut Store<K, V>,
    hasher: &S,
    hash: u64,
) -> Result<(), AllocError>
    requires { IsIndexOf (map (λ p. S.hash_of hasher.now (K.text_of p.0)) (pairs_of store.old)) store.old }
    ensures pairs { pairs_of store.new ≡ pairs_of store.old }
    ensures place { OnOk result (HasSpare store.new) }
    ensures ok { OnOk result (IsIndexOf (map (λ p. S.hash_of hasher.now (K.text_of p.0)) (pairs_of store.old) ++ hash ∷ []) store.new) }
    ensures buckets { OnOk result (buckets_of store.new ≡ buckets_for (length (pairs_of store.old) + 1) (buckets_of store.old)) }
    ensures refused { OnErr result (IsIndexOf (map (λ p. S.hash_of hasher.now (K.text_of p.0)) (pairs_of store.old)) store.new) }
    ensures refused_buckets { OnErr result (buckets_of store.new ≡ buckets_of store.old) }
{
    store.reserve()?;
    if store.reads_hash() {
        add_hash(store, hasher, hash)
    } else {
        Ok(())
    }
}
