//! What keeps some members and lets the others go.

ghost use Rattle.std.specs.Prelude.{◌≡◌, ◌+◌, ◌≤◌, ◌++◌, length, map};
ghost use Rattle.std.specs.Map.Calls.{CalledAtPair, RetainsPairs};
ghost use Rattle.sj_object.specs.Index.{hashes_in, IsTable, IsTableOf};
ghost use Rattle.sj_object.specs.Stored.{stored_members, pairs_of, buckets_of, IsIndexOf};

use super::HashMap;
use super::index::Table;
use super::members::Members;
use super::store::{Hashed, Store};
use crate::hasher::KeyHasher;
use crate::key::KeyText;
use std::collections::VecDeque;
use std::mem;

impl<K: KeyText, V, S: KeyHasher> HashMap<K, V, S> {
    ghost use Rattle.sj_object.specs.Retained.{RetainsEntries};

    /// Keeps the members for which `keep` answers true, and lets the others go. It is called once for
    /// each member, in order, and may write the value. Those that are kept close up, and no memory is
    /// asked for.
    pub fn retain<F: FnMut(&K, &mut V) -> bool + Drop>(&mut self, keep: F)
    where
        K: Drop,
        V: Drop,
        requires { F.IsAlwaysCallable keep }
        ensures retained { RetainsEntries K.text_of (CalledAtPair F.FnMut) keep self.old.entries self.new.entries }
        ensures hasher { self.new.hasher ≡ self.old.hasher }
        ensures buckets { self.new.buckets ≡ self.old.buckets }
    {
        self.store.retain(&self.hasher, keep);
    }
}

impl<K: KeyText + Drop, V: Drop> Store<K, V> {
    /// Keeps the members for which `keep` answers true, in the memory that there is.
    fn retain<S: KeyHasher, F: FnMut(&K, &mut V) -> bool + Drop>(&mut self, hasher: &S, keep: F)
        requires callable { F.IsAlwaysCallable keep }
        requires index { IsIndexOf (map (λ p. S.hash_of hasher.now (K.text_of p.0)) (pairs_of self.old)) self.old }
        ensures retained { RetainsPairs (CalledAtPair F.FnMut) keep (pairs_of self.old) (pairs_of self.new) }
        ensures index { IsIndexOf (map (λ p. S.hash_of hasher.now (K.text_of p.0)) (pairs_of self.new)) self.new }
        ensures buckets { buckets_of self.new ≡ buckets_of self.old }
    {
        match self {
            Store::Plain(pairs) => {
                let alloc = *pairs.allocator();
                *pairs = retain_pairs(mem::replace(pairs, Vec::new(alloc)), keep);
            }
            Store::Hashed(hashed) => hashed.retain(hasher, keep),
        }
    }
}

impl<K: KeyText + Drop, V: Drop> Hashed<K, V> {
    /// Keeps the members for which `keep` answers true, and their hashes.
    fn retain<S: KeyHasher, F: FnMut(&K, &mut V) -> bool + Drop>(&mut self, hasher: &S, keep: F)
        requires callable { F.IsAlwaysCallable keep }
        requires table { IsTableOf (map (λ p. S.hash_of hasher.now (K.text_of p.0)) (stored_members self.old.members)) self.old.table }
        ensures retained { RetainsPairs (CalledAtPair F.FnMut) keep (stored_members self.old.members) (stored_members self.new.members) }
        ensures table { IsTableOf (map (λ p. S.hash_of hasher.now (K.text_of p.0)) (stored_members self.new.members)) self.new.table }
        ensures buckets { length self.new.table.heads.items ≡ length self.old.table.heads.items }
    {
        let before = self.members.len();
        self.members.retain(keep);
        // Where all are kept, so are their hashes.
        if self.members.len() < before {
            index_anew(&self.members, hasher, &mut self.table);
        }
    }
}

impl<K: Drop, V: Drop> Members<K, V> {
    /// Keeps those for which `keep` answers true, as a list.
    fn retain<F: FnMut(&K, &mut V) -> bool + Drop>(&mut self, keep: F)
        requires { F.IsAlwaysCallable keep }
        ensures { RetainsPairs (CalledAtPair F.FnMut) keep (stored_members self.old) (stored_members self.new) }
    {
        let alloc = self.allocator();
        let pairs = mem::replace(self, Members::Listed(Vec::new(alloc))).into_vec();
        *self = Members::Listed(retain_pairs(pairs, keep));
    }
}

/// The pairs for which `keep` answers true, in the memory of all.
fn retain_pairs<K: Drop, V: Drop, F: FnMut(&K, &mut V) -> bool + Drop>(
    pairs: Vec<(K, V)>,
    keep: F,
) -> Vec<(K, V)>
    requires { F.IsAlwaysCallable keep }
    ensures { RetainsPairs (CalledAtPair F.FnMut) keep pairs.items result.items }
{
    let mut ring = VecDeque::from_vec(pairs);
    retain_in(&mut ring, keep);
    ring.into_vec()
}

/// Asks `keep` at each pair in turn, and puts those for which it answers true last.
fn retain_in<K: Drop, V: Drop, F: FnMut(&K, &mut V) -> bool + Drop>(
    ring: &mut VecDeque<(K, V)>,
    keep: F,
)
    requires { F.IsAlwaysCallable keep }
    ensures { RetainsPairs (CalledAtPair F.FnMut) keep ring.old.items ring.new.items }
{
    let mut keep = keep;
    for _ in 0..ring.len() {
        let Some((key, value)) = ring.pop_front() else {
            break;
        };
        let mut value = value;
        if keep(&key, &mut value) {
            ring.push_back_reserved((key, value));
        }
    }
}

/// Makes the table that of the members, for which it has buckets.
pub(super) fn index_anew<K: KeyText, V, S: KeyHasher>(
    members: &Members<K, V>,
    hasher: &S,
    table: &mut Table,
)
    requires table { IsTable table.old }
    requires room { length (stored_members members.now) ≤ length table.old.heads.items }
    ensures table { IsTableOf (map (λ p. S.hash_of hasher.now (K.text_of p.0)) (stored_members members.now)) table.new }
    ensures buckets { length table.new.heads.items ≡ length table.old.heads.items }
{
    let (front, back) = members.as_slices();
    table.clear();
    push_keys(front, hasher, table);
    push_keys(back, hasher, table);
}

/// Puts the hashes of the keys last, in order, for which there are buckets.
fn push_keys<K: KeyText, V, S: KeyHasher>(pairs: &[(K, V)], hasher: &S, table: &mut Table)
    requires table { IsTable table.old }
    requires room { length (hashes_in table.old) + length pairs.now ≤ length table.old.heads.items }
    ensures hashes { hashes_in table.new ≡ hashes_in table.old ++ map (λ p. S.hash_of hasher.now (K.text_of p.0)) pairs.now }
    ensures buckets { length table.new.heads.items ≡ length table.old.heads.items }
    ensures table { IsTable table.new }
{
    for pair in pairs {
        table.push_reserved(hasher.hash_text(pair.0.text()));
    }
}
