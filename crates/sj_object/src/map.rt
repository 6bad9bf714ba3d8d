//! `HashMap`, and the types that its calls answer.

ghost use Rattle.std.specs.Prelude.{◌≡◌, ◌↔◌, [], length, true, None, IsTrue, IfOk};
ghost use Rattle.sj_object.specs.Texts.{no_repeats};
ghost use Rattle.sj_object.specs.Entries.{entry_texts, keys, values, entries_of};
ghost use Rattle.sj_object.specs.Index.{HasRoom};
ghost use Rattle.sj_object.specs.inner.Index.{HasRoom-prop};
ghost use Rattle.sj_object.specs.Stored.{pairs_of, buckets_of};

mod chain;
mod debug;
mod get;
mod holes;
mod index;
mod insert;
mod iter;
mod kept_room;
mod members;
mod or_insert;
mod pairs;
mod remove;
mod restore;
mod retain;
mod room;
mod search;
mod shift;
mod store;

use crate::hasher::{KeyHasher, ObjectHasher};
use crate::key::KeyText;
pub use iter::{IntoIter, Iter, Keys, Values};
pub use kept_room::Room;
use std::alloc::{AllocError, Global};
use std::marker::Model;
use store::Store;

/// A map from texts that keeps its members in the order of their insertion.
///
/// Contracts see the list of its members, no two of one text, beside its hasher and how many
/// buckets it has. Up to 32 members it is a plain list, which is searched from its front. The
/// insert that makes 33 members hashes them to 64 buckets, an insert that makes one member more
/// than there are buckets doubles them, and nothing lowers them.
#[derive(Drop)]
pub struct HashMap<K: KeyText, V, S: KeyHasher> {
    store: Store<K, V>,
    hasher: S,
    ghost distinct: { no_repeats (entry_texts (entries_of K.text_of (pairs_of store))) ≡ true },
    ghost room: { HasRoom (length (entries_of K.text_of (pairs_of store))) (buckets_of store) } by { HasRoom-prop _ _ },
}

impl<K: KeyText, V, S: KeyHasher> Model for HashMap<K, V, S> {
    ghost use Rattle.std.specs.Prelude.{map};
    ghost use Rattle.sj_object.specs.Entries.{entries_of};
    ghost use Rattle.sj_object.specs.HashMap.{Contents, contents_code};
    ghost use Rattle.sj_object.specs.Stored.{IsIndexOf, pairs_of, buckets_of};

    ghost Value = { Contents K V S };

    ghost coded = { contents_code K.code V.code S.code };

    ghost view = { λ m. record { entries = entries_of K.text_of (pairs_of m.store); hasher = m.hasher; buckets = buckets_of m.store; distinct = m.distinct; room = m.room } };

    ghost invariant = { λ m. IsIndexOf (map (λ p. S.hash_of m.hasher (K.text_of p.0)) (pairs_of m.store)) m.store };
}

impl<K: KeyText, V> HashMap<K, V, ObjectHasher> {
    /// An empty map, which takes no memory before its first member.
    pub fn new(alloc: Global) -> Self
        ensures entries { result.entries ≡ [] }
        ensures buckets { result.buckets ≡ None }
    {
        HashMap {
            store: Store::Plain(Vec::new(alloc)),
            hasher: ObjectHasher::default(),
        }
    }
}

impl<K: KeyText, V, S: KeyHasher> HashMap<K, V, S> {
    /// An empty map with room for `capacity` members. It is refused only for want of memory.
    pub fn with_capacity_and_hasher(
        alloc: Global,
        capacity: usize,
        hasher: S,
    ) -> Result<Self, AllocError>
    where
        S: Drop,
        ensures entries { IfOk result (λ m. m.entries ≡ []) }
        ensures hasher { IfOk result (λ m. m.hasher ≡ hasher) }
        ensures buckets { IfOk result (λ m. m.buckets ≡ None) }
    {
        Ok(HashMap {
            store: Store::Plain(Vec::with_capacity(alloc, capacity)?),
            hasher,
        })
    }

    /// How many members there are.
    pub fn len(&self) -> usize
        ensures { result ≡ length self.now.entries }
    {
        self.store.len()
    }

    /// Whether there are no members.
    pub fn is_empty(&self) -> bool
        ensures { IsTrue result ↔ (self.now.entries ≡ []) }
    {
        self.store.len() == 0
    }

    /// How many buckets the members are hashed to; None where the map is a plain list. Past 32
    /// members there are at least as many as members.
    pub fn buckets(&self) -> Option<usize>
        ensures buckets { result ≡ self.now.buckets }
        ensures room { HasRoom (length self.now.entries) self.now.buckets }
    {
        self.store.buckets()
    }

    /// What hashes the keys.
    pub fn hasher(&self) -> &S
        ensures { result.now ≡ self.now.hasher }
    {
        &self.hasher
    }

    /// What the map's memory is taken from.
    pub fn allocator(&self) -> Global {
        self.store.allocator()
    }

    /// The members in order, each a key and its value.
    pub fn iter(&self) -> Iter<'_, K, V>
        ensures { entries_of K.text_of result ≡ self.now.entries }
    {
        Iter::new(&self.store)
    }

    /// The keys in order.
    pub fn keys(&self) -> Keys<'_, K, V>
        ensures { result ≡ keys self.now.entries }
    {
        Keys::new(&self.store)
    }

    /// The values in order.
    pub fn values(&self) -> Values<'_, K, V>
        ensures { result ≡ values self.now.entries }
    {
        Values::new(&self.store)
    }
}
