//! What a document type gives for its reading.

ghost use Rattle.std.specs.Prelude.{◌≡◌, ℕ, List, [], ◌∷◌, ◌++◌, length, map, false, IfOk, OnOk, All};
ghost use Rattle.sj_text_core.specs.Tree.{Tree, text, list, obj, items_from};
ghost use Rattle.sj_text_core.specs.Scalars.{static_tree};
ghost use Rattle.sj_text_core.specs.Keep.{is_seen};
ghost use Rattle.sj_text_core.specs.Hash.{hash as hash_of_text};
ghost use Rattle.sj_object.specs.Edits.{put_entry};
ghost use Rattle.sj_object.specs.Entries.{Entry, entry_texts};
ghost use Rattle.sj_object.specs.Members.{entry_members};
ghost use Rattle.sj_object.specs.Builder.{AreMade};
ghost use Rattle.sj_object.specs.Index.{NeedsHash};

use crate::hasher::ObjectHasher;
use crate::key::{KeyMade, KeyText};
use crate::map::HashMap;
use sj_text_core::StaticNode;
use std::alloc::{AllocError, Global};

/// A map that the members of an object are put in: `HashMap<Key, V, ObjectHasher>`.
pub trait MapOf<Key: KeyText, V>: Sized + Drop {
    /// The members in order.
    ghost entries: { Self → List (Entry Key V) };

    /// An empty map with room for `capacity` members. It is refused only for want of memory.
    fn with_capacity(alloc: Global, capacity: usize) -> Result<Self, AllocError>
        ensures { IfOk result (λ m. entries m ≡ []) };

    /// Holds of the numbers that the map takes as the hash of a text.
    ghost takes: { Self → ℕ → List ℕ → Type 0 };

    /// The hash of the key, as far as the map reads it.
    fn hash_for(&self, key: &str) -> u64
        ensures { takes self.now result key.now };

    /// Whether a member has the key, whose hash is that.
    fn has_hashed(&self, hash: u64, key: &str) -> bool
        requires { takes self.now hash key.now }
        ensures { result ≡ is_seen key.now (entry_texts (entries self.now)) };

    /// Puts a member last, whose key is not there and has that hash. It is refused only for want of
    /// memory, and the key and the value are then given up.
    fn add_hashed(&mut self, hash: u64, key: Key, value: V) -> Result<(), AllocError>
        requires absent { is_seen (Key.text_of key) (entry_texts (entries self.old)) ≡ false }
        requires hash { takes self.old hash (Key.text_of key) }
        ensures { OnOk result (entries self.new ≡ entries self.old ++ ((key, Key.text_of key), value) ∷ []) };

    /// Sets the value of the key, in its place where it is there, else last. It is refused only for
    /// want of memory, and the key and the value are then given up.
    fn set(&mut self, key: Key, value: V) -> Result<(), AllocError>
        ensures { OnOk result (entries self.new ≡ put_entry (key, Key.text_of key) value (entries self.old)) };
}

impl<K: KeyText + Drop, V: Drop> MapOf<K, V> for HashMap<K, V, ObjectHasher> {
    ghost entries = { λ m. m.entries };

    fn with_capacity(alloc: Global, capacity: usize) -> Result<Self, AllocError>
        ensures { IfOk result (λ m. m.entries ≡ []) }
    {
        HashMap::with_capacity_and_hasher(alloc, capacity, ObjectHasher::default())
    }

    ghost takes = { λ m h k. NeedsHash (length m.entries) m.buckets → h ≡ hash_of_text k };

    fn hash_for(&self, key: &str) -> u64
        ensures { NeedsHash (length self.now.entries) self.now.buckets → result ≡ hash_of_text key.now }
    {
        HashMap::hash_for(self, key)
    }

    fn has_hashed(&self, hash: u64, key: &str) -> bool
        requires { NeedsHash (length self.now.entries) self.now.buckets → hash ≡ hash_of_text key.now }
        ensures { result ≡ is_seen key.now (entry_texts self.now.entries) }
    {
        self.find(hash, key).is_some()
    }

    fn add_hashed(&mut self, hash: u64, key: K, value: V) -> Result<(), AllocError>
        requires absent { is_seen (K.text_of key) (entry_texts self.old.entries) ≡ false }
        requires hash { NeedsHash (length self.old.entries) self.old.buckets → hash ≡ hash_of_text (K.text_of key) }
        ensures { OnOk result (self.new.entries ≡ self.old.entries ++ ((key, K.text_of key), value) ∷ []) }
    {
        match self.append_hashed(hash, key, value) {
            Ok(()) => Ok(()),
            Err(refused) => Err(refused.why),
        }
    }

    fn set(&mut self, key: K, value: V) -> Result<(), AllocError>
        ensures { OnOk result (self.new.entries ≡ put_entry (key, K.text_of key) value self.old.entries) }
    {
        match self.insert(key, value) {
            Ok(_) => Ok(()),
            Err(failed) => Err(failed.why),
        }
    }
}

// Why so: docs/REFUSED.md, "`Builder` is split".
/// A document type that is made of parts which lend nothing.
pub trait Made<Key: KeyMade>: Sized + Drop {
    /// `HashMap<Key, Self, ObjectHasher>`.
    type Map: MapOf<Key, Self>;

    /// The tree of a value.
    ghost tree: { Self → Tree };

    /// Holds of the values that are made of keys and values that are.
    ghost built: { Self → Type 0 };

    /// A scalar.
    fn from_static(scalar: StaticNode) -> Self
        ensures means { tree result ≡ static_tree scalar }
        ensures property { built result };

    /// An array of the items. It is refused only for want of memory, and they are then given up.
    fn from_vec(alloc: Global, items: Vec<Self>) -> Result<Self, AllocError>
        ensures means { IfOk result (λ v. tree v ≡ list (items_from (map tree items.items))) }
        ensures property { All built items.items → IfOk result built };

    /// An object of the members. It is refused only for want of memory, and they are then given
    /// up.
    fn from_map(alloc: Global, members: Self::Map) -> Result<Self, AllocError>
        ensures means { IfOk result (λ v. tree v ≡ obj (entry_members tree (Self.Map.entries members))) }
        ensures property { AreMade Key.is_made built (Self.Map.entries members) → IfOk result built };
}

/// A document type that texts which live as long as `'de` are read to.
pub trait Builder<'de, Key: KeyMade>: Made<Key> {
    /// A text. It is refused only for want of memory.
    fn from_text(alloc: Global, string: &'de str) -> Result<Self, AllocError>
        ensures means { IfOk result (λ v. Self.tree v ≡ text string.now) }
        ensures property { IfOk result Self.built };
}
