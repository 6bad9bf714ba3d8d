//! Where a key stands among the members.

ghost use Rattle.std.specs.Prelude.{◌≡◌, ◌+◌, ◌<◌, ◌%◌, ◌^◌, ◌∷◌, ◌++◌, [], true, map, length, slice_index_or, IsSome, bytes_eq};
ghost use Rattle.std.specs.List.{position_from};
ghost use Rattle.std.specs.Option.{is_some};
ghost use Rattle.sj_object.specs.Edits.{lookup};
ghost use Rattle.sj_object.specs.Entries.{entries_of, entry_texts};
ghost use Rattle.sj_object.specs.Texts.{no_repeats};
ghost use Rattle.sj_object.specs.Steps.{entries_visited, walk};
ghost use Rattle.sj_object.specs.inner.Steps.{entries_compared};
ghost use Rattle.sj_object.specs.Index.{IsTableOf};
ghost use Rattle.sj_object.specs.Stored.{stored_members, pairs_of, buckets_of, IsIndexOf};

use super::chain::bucket_of;
use super::holes::pass;
use super::index::Table;
use super::members::Members;
use super::store::{Hashed, Store};
use crate::hasher::KeyHasher;
use crate::key::KeyText;
use sj_text_core::{Steps, are_same_bytes};
use std::collections::VecDeque;
use std::marker::Brand;
use std::sync::ledger::{Blank, Ledger};

/// Compares a key, which is one step. No other look-up in a map compares keys.
#[inline]
fn is_key<K: KeyText, L: Ledger>(key: &K, text: &[u8], steps: &mut Steps<L>) -> bool
    ensures answer { result ≡ bytes_eq text.now (K.text_of key.now) }
    ensures step { steps.new ≡ steps.old + 1 }
{
    steps.tick();
    are_same_bytes(text, key.text().as_bytes())
}

/// The position of the first pair whose key has the text.
#[inline(always)]
fn position_in_list<K: KeyText, V, L: Ledger>(
    pairs: &[(K, V)],
    text: &[u8],
    steps: &mut Steps<L>,
) -> Option<usize>
    ensures found { result ≡ position_from (λ p. bytes_eq text.now (K.text_of p.0)) 0 pairs.now }
    ensures exact { steps.new ≡ steps.old + entries_visited text.now (entries_of K.text_of pairs.now) }
{
    // How many are left. The list is counted down with it, so that a step counts no position.
    let mut left = pairs.len();
    for pair in pairs {
        if is_key(&pair.0, text, steps) {
            return Some(pairs.len() - left);
        }
        left -= 1;
    }
    None
}

/// Whether a pair has a key with the text, where nobody reads the steps.
fn has_key_blank<K: KeyText, V, L: Ledger>(pairs: &[(K, V)], text: &[u8], blank: Blank) -> bool
    requires name { blank.name ≡ L.name }
    requires parts { blank.parts ≡ L.parts }
    requires some { 0 < L.parts }
    ensures { result ≡ is_some (lookup text.now (entries_of K.text_of pairs.now)) }
{
    let mut steps = Steps::<L>::new(blank);
    position_in_list(pairs, text, &mut steps).is_some()
}

/// Whether a pair has a key with the text.
pub fn has_key<K: KeyText, V>(pairs: &[(K, V)], text: &str) -> bool
    ensures { result ≡ is_some (lookup text.now (entries_of K.text_of pairs.now)) }
{
    has_key_blank::<K, V, Brand>(pairs, text.as_bytes(), Blank::new(1))
}

/// The pair at a position of two parts.
#[inline]
fn pair_at<'a, K, V>(front: &'a [(K, V)], back: &'a [(K, V)], position: usize) -> &'a (K, V)
    requires { position < length (front.now ++ back.now) }
    ensures { result.now ≡ slice_index_or (front.now ++ back.now) position result.now }
{
    if back.is_empty() || position < front.len() {
        &front[position]
    } else {
        &back[position - front.len()]
    }
}

/// The position of the pair whose key has the text, along the chain of the text's bucket, where
/// the pairs stand in two parts.
#[inline(always)]
fn position_in_parts<K: KeyText, V, S: KeyHasher, L: Ledger>(
    front: &[(K, V)],
    back: &[(K, V)],
    table: &Table,
    _hasher: &S,
    hash: u64,
    text: &[u8],
    steps: &mut Steps<L>,
) -> Option<usize>
    requires distinct { no_repeats (entry_texts (entries_of K.text_of (front.now ++ back.now))) ≡ true }
    requires table { IsTableOf (map (λ p. S.hash_of _hasher.now (K.text_of p.0)) (front.now ++ back.now)) table.now }
    requires hash { hash ≡ S.hash_of _hasher.now text.now }
    ensures found { result ≡ position_from (λ p. bytes_eq text.now (K.text_of p.0)) 0 (front.now ++ back.now) }
    ensures exact { steps.new ≡ steps.old + walk (S.hash_of _hasher.now) (length table.now.heads.items) text.now (entries_of K.text_of (front.now ++ back.now)) }
{
    let mut place = table.heads[bucket_of(hash, table.bits)];
    let mut passed = 0;
    while place > table.gone {
        if table.hashes[place - 1] == hash {
            passed = pass(&table.holes, passed, place);
            let i = place - (table.holes.len() - passed) - 1 - table.gone;
            if is_key(&pair_at(front, back, i).0, text, steps) {
                return Some(i);
            }
        } else {
            // A key of another hash is passed by that alone, which is one step as well.
            Steps::tick(steps);
        }
        place = table.links[place - 1];
    }
    None
}

/// The same, where the pairs stand in a ring. It stands apart from its callers, whose pairs are
/// mostly a list.
#[inline(never)]
fn position_in_ring<K: KeyText, V, S: KeyHasher, L: Ledger>(
    ring: &VecDeque<(K, V)>,
    table: &Table,
    hasher: &S,
    hash: u64,
    text: &[u8],
    steps: &mut Steps<L>,
) -> Option<usize>
    requires distinct { no_repeats (entry_texts (entries_of K.text_of ring.now.items)) ≡ true }
    requires table { IsTableOf (map (λ p. S.hash_of hasher.now (K.text_of p.0)) ring.now.items) table.now }
    requires hash { hash ≡ S.hash_of hasher.now text.now }
    ensures found { result ≡ position_from (λ p. bytes_eq text.now (K.text_of p.0)) 0 ring.now.items }
    ensures exact { steps.new ≡ steps.old + walk (S.hash_of hasher.now) (length table.now.heads.items) text.now (entries_of K.text_of ring.now.items) }
{
    let (front, back) = ring.as_slices();
    // A ring that has not come round is one part, in which no step looks for the other.
    if back.is_empty() {
        position_in_parts(front, &front[..0], table, hasher, hash, text, steps)
    } else {
        position_in_parts(front, back, table, hasher, hash, text, steps)
    }
}

/// The same, where the pairs are those beside an index.
#[inline(always)]
fn position_in_chain<K: KeyText, V, S: KeyHasher, L: Ledger>(
    hashed: &Hashed<K, V>,
    hasher: &S,
    hash: u64,
    text: &[u8],
    steps: &mut Steps<L>,
) -> Option<usize>
    requires distinct { no_repeats (entry_texts (entries_of K.text_of (stored_members hashed.now.members))) ≡ true }
    requires table { IsTableOf (map (λ p. S.hash_of hasher.now (K.text_of p.0)) (stored_members hashed.now.members)) hashed.now.table }
    requires hash { hash ≡ S.hash_of hasher.now text.now }
    ensures found { result ≡ position_from (λ p. bytes_eq text.now (K.text_of p.0)) 0 (stored_members hashed.now.members) }
    ensures exact { steps.new ≡ steps.old + walk (S.hash_of hasher.now) (length hashed.now.table.heads.items) text.now (entries_of K.text_of (stored_members hashed.now.members)) }
{
    let table = &hashed.table;
    match &hashed.members {
        Members::Listed(list) => {
            position_in_parts(list, &list[..0], table, hasher, hash, text, steps)
        }
        Members::Ring(ring) => position_in_ring(ring, table, hasher, hash, text, steps),
    }
}

/// The position of the pair whose key has the text, and, where there are buckets, the hash.
#[inline(always)]
pub fn position_counted<K: KeyText, V, S: KeyHasher, L: Ledger>(
    store: &Store<K, V>,
    hasher: &S,
    hash: u64,
    text: &[u8],
    steps: &mut Steps<L>,
) -> Option<usize>
    requires distinct { no_repeats (entry_texts (entries_of K.text_of (pairs_of store.now))) ≡ true }
    requires index { IsIndexOf (map (λ p. S.hash_of hasher.now (K.text_of p.0)) (pairs_of store.now)) store.now }
    requires hash { IsSome (buckets_of store.now) → hash ≡ S.hash_of hasher.now text.now }
    ensures found { result ≡ position_from (λ p. bytes_eq text.now (K.text_of p.0)) 0 (pairs_of store.now) }
    ensures exact { steps.new ≡ steps.old + entries_compared (S.hash_of hasher.now) (buckets_of store.now) text.now (entries_of K.text_of (pairs_of store.now)) }
{
    match store {
        Store::Plain(pairs) => position_in_list(pairs, text, steps),
        Store::Hashed(hashed) => position_in_chain(hashed, hasher, hash, text, steps),
    }
}

/// The same, where nobody reads the steps.
#[inline(always)]
fn position_blank<K: KeyText, V, S: KeyHasher, L: Ledger>(
    store: &Store<K, V>,
    hasher: &S,
    hash: u64,
    text: &[u8],
    blank: Blank,
) -> Option<usize>
    requires name { blank.name ≡ L.name }
    requires parts { blank.parts ≡ L.parts }
    requires some { 0 < L.parts }
    requires distinct { no_repeats (entry_texts (entries_of K.text_of (pairs_of store.now))) ≡ true }
    requires index { IsIndexOf (map (λ p. S.hash_of hasher.now (K.text_of p.0)) (pairs_of store.now)) store.now }
    requires hash { IsSome (buckets_of store.now) → hash ≡ S.hash_of hasher.now text.now }
    ensures { result ≡ position_from (λ p. bytes_eq text.now (K.text_of p.0)) 0 (pairs_of store.now) }
{
    let mut steps = Steps::<L>::new(blank);
    position_counted(store, hasher, hash, text, &mut steps)
}

/// The position of the pair whose key has the text, and, where there are buckets, the hash. It is
/// taken into its callers.
#[inline(always)]
pub fn position_here<K: KeyText, V, S: KeyHasher>(
    store: &Store<K, V>,
    hasher: &S,
    hash: u64,
    text: &str,
) -> Option<usize>
    requires distinct { no_repeats (entry_texts (entries_of K.text_of (pairs_of store.now))) ≡ true }
    requires index { IsIndexOf (map (λ p. S.hash_of hasher.now (K.text_of p.0)) (pairs_of store.now)) store.now }
    requires hash { IsSome (buckets_of store.now) → hash ≡ S.hash_of hasher.now text.now }
    ensures { result ≡ position_from (λ p. bytes_eq text.now (K.text_of p.0)) 0 (pairs_of store.now) }
{
    position_blank::<K, V, S, Brand>(store, hasher, hash, text.as_bytes(), Blank::new(1))
}

/// The same by a call.
#[inline(never)]
pub fn position_of<K: KeyText, V, S: KeyHasher>(
    store: &Store<K, V>,
    hasher: &S,
    hash: u64,
    text: &str,
) -> Option<usize>
    requires distinct { no_repeats (entry_texts (entries_of K.text_of (pairs_of store.now))) ≡ true }
    requires index { IsIndexOf (map (λ p. S.hash_of hasher.now (K.text_of p.0)) (pairs_of store.now)) store.now }
    requires hash { IsSome (buckets_of store.now) → hash ≡ S.hash_of hasher.now text.now }
    ensures { result ≡ position_from (λ p. bytes_eq text.now (K.text_of p.0)) 0 (pairs_of store.now) }
{
    position_here(store, hasher, hash, text)
}
