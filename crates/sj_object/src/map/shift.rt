//! What puts a member at a position, and what tells the position of a member that it takes out.

ghost use Rattle.std.specs.Prelude.{◌≡◌, ◌≤◌, length, None, IfErr, IfNone, IfSome, OnErr, OnOk, option_map};
ghost use Rattle.std.specs.List.{insert};

use super::HashMap;
use super::room::make_room;
use super::search::position_of;
use crate::hasher::KeyHasher;
use crate::key::KeyText;
use sj_text_core::Refused;
use std::alloc::AllocError;

impl<K: KeyText, V, S: KeyHasher> HashMap<K, V, S> {
    ghost use Rattle.sj_object.specs.Edits.{lookup, position, cut_entry};
    ghost use Rattle.sj_object.specs.Index.{buckets_for};

    /// Takes the key's member out, and answers its position, counted from 0, its key and its value; None
    /// where the key is absent, and the map is as it was. The members after it close up. `shift_insert`
    /// at that position undoes it.
    #[inline(always)]
    pub fn shift_remove_full(&mut self, key: &str) -> Option<(usize, K, V)>
        ensures index { option_map (λ t. t.0) result ≡ position key.now self.old.entries }
        ensures answer { option_map (λ t. t.2) result ≡ lookup key.now self.old.entries }
        ensures entries { self.new.entries ≡ cut_entry key.now self.old.entries }
        ensures back { IfSome result (λ t. insert self.new.entries t.0 ((t.1, K.text_of t.1), t.2) ≡ self.old.entries) }
        ensures within { IfSome result (λ t. t.0 ≤ length self.new.entries) }
        ensures missing { IfNone result (self.new ≡ self.old) }
        ensures hasher { self.new.hasher ≡ self.old.hasher }
        ensures buckets { self.new.buckets ≡ self.old.buckets }
    {
        let hash = self.hash_in(key);
        let i = position_of(&self.store, &self.hasher, hash, key)?;
        let (stored, value) = self.store.remove(i)?;
        Some((i, stored, value))
    }

    /// Puts a member, whose key is not there, at a position, counted from 0; each from there on goes to
    /// the position behind its own. It is refused only for want of memory: the key and the value come
    /// back, and the map is as it was.
    pub fn shift_insert(
        &mut self,
        index: usize,
        key: K,
        value: V,
    ) -> Result<(), Refused<AllocError, (K, V)>>
        requires absent { lookup (K.text_of key) self.old.entries ≡ None }
        requires within { index ≤ length self.old.entries }
        ensures entries { OnOk result (self.new.entries ≡ insert self.old.entries index ((key, K.text_of key), value)) }
        ensures hasher { self.new.hasher ≡ self.old.hasher }
        ensures buckets { OnOk result (self.new.buckets ≡ buckets_for (length self.new.entries) self.old.buckets) }
        ensures refused { OnErr result (self.new ≡ self.old) }
        ensures returned { IfErr result (λ r. r.value ≡ (key, value)) }
    {
        let hash = self.hash_for(key.text());
        match make_room(&mut self.store, &self.hasher, hash) {
            Ok(()) => {
                self.store.insert_reserved(index, (key, value));
                Ok(())
            }
            Err(why) => Err(Refused {
                why,
                value: (key, value),
            }),
        }
    }
}
