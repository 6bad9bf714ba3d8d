//! What takes members out.

ghost use Rattle.std.specs.Prelude.{◌≡◌, ◌++◌, [], IfNone, option_to_list};

use super::HashMap;
use crate::hasher::KeyHasher;
use crate::key::KeyText;

impl<K: KeyText, V, S: KeyHasher> HashMap<K, V, S> {
    ghost use Rattle.sj_object.specs.Edits.{lookup, cut_entry};
    ghost use Rattle.sj_object.specs.Entries.{entries_of};

    /// Takes the key's member out, and answers its value; None where it is absent. The members
    /// after it close up.
    pub fn remove(&mut self, key: &str) -> Option<V>
    where
        K: Drop,
        ensures answer { result ≡ lookup key.now self.old.entries }
        ensures entries { self.new.entries ≡ cut_entry key.now self.old.entries }
        ensures hasher { self.new.hasher ≡ self.old.hasher }
        ensures buckets { self.new.buckets ≡ self.old.buckets }
    {
        let (_, _, value) = self.shift_remove_full(key)?;
        Some(value)
    }

    /// Takes the last member out; None where there is none.
    #[inline(always)]
    pub fn pop(&mut self) -> Option<(K, V)>
    where
        ensures entries { self.old.entries ≡ self.new.entries ++ entries_of K.text_of (option_to_list result) }
        ensures none { IfNone result (self.new.entries ≡ []) }
        ensures hasher { self.new.hasher ≡ self.old.hasher }
        ensures buckets { self.new.buckets ≡ self.old.buckets }
    {
        self.store.pop()
    }

    /// Lets all members go. The memory that the map has stays for members to come, and so do its
    /// buckets.
    pub fn clear(&mut self)
    where
        K: Drop,
        V: Drop,
        ensures entries { self.new.entries ≡ [] }
        ensures hasher { self.new.hasher ≡ self.old.hasher }
        ensures buckets { self.new.buckets ≡ self.old.buckets }
    {
        self.store.clear();
    }

    /// Lets a map without members go, whatever its keys and values are.
    pub fn destroy_empty(self)
    where
        S: Drop,
        requires { self.entries ≡ [] }
    {
        let HashMap { store, hasher: _ } = self;
        store.into_vec().destroy_empty();
    }
}
