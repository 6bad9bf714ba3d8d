//! What puts members back that were taken out, without asking for memory.

ghost use Rattle.std.specs.Prelude.{◌≡◌, ◌<◌, ◌≤◌, length, map, None, IfOk};
ghost use Rattle.std.specs.List.{insert};
ghost use Rattle.std.specs.Vec.{vec_capacity};
ghost use Rattle.sj_object.specs.Entries.{entries_of};
ghost use Rattle.sj_object.specs.Index.{IsTable, IsTableOf};
ghost use Rattle.sj_object.specs.Rooms.{indexed, places, takes, restored_all};
ghost use Rattle.sj_object.specs.Stored.{stored_members, pairs_of, IsIndexOf};
ghost use Rattle.sj_object.specs.inner.Stored.{IsEmptied};

use super::HashMap;
use super::kept_room::Room;
use super::members::Members;
use super::retain::index_anew;
use super::search::has_key;
use super::store::{Hashed, Store};
use crate::hasher::KeyHasher;
use crate::key::KeyText;
use std::alloc::{AllocError, Global};
use std::mem;

impl<K, V> Room<K, V> {
    /// How many members it has memory for.
    pub fn places(&self) -> usize
        ensures { result ≡ places self.now }
    {
        let most = match &self.hashed {
            None => 32,
            Some(hashed) => hashed.table.buckets(),
        };
        usize::min(self.pairs.capacity(), most)
    }
}

impl<K, V> Store<K, V> {
    /// Moves the members into memory that has a place for each. There are none left.
    fn move_into(&mut self, pairs: &mut Vec<(K, V)>)
        requires empty { length pairs.old.items ≡ 0 }
        requires places { length (pairs_of self.old) ≤ vec_capacity pairs.old }
        ensures pairs { pairs.new.items ≡ pairs_of self.old }
        ensures capacity { vec_capacity pairs.old ≤ vec_capacity pairs.new }
        ensures none { length (pairs_of self.new) ≡ 0 }
    {
        let alloc = self.allocator();
        let mut members = mem::replace(self, Store::Plain(Vec::new(alloc))).into_vec();
        pairs.append(&mut members).unwrap();
        members.destroy_empty();
    }
}

impl<K: KeyText, V> Store<K, V> {
    /// Takes the pairs for its members, of which there are none, with what there is for their index.
    fn take<S: KeyHasher>(
        &mut self,
        pairs: Vec<(K, V)>,
        hashed: Option<Box<Hashed<K, V>>>,
        hasher: &S,
    )
        requires none { length (pairs_of self.old) ≡ 0 }
        requires emptied { IsEmptied hashed }
        requires places { length pairs.items ≤ indexed hashed }
        ensures pairs { pairs_of self.new ≡ pairs.items }
        ensures index { IsIndexOf (map (λ p. S.hash_of hasher.now (K.text_of p.0)) (pairs_of self.new)) self.new }
    {
        let store = match hashed {
            None => Store::Plain(pairs),
            Some(mut hashed) => {
                hashed.take(pairs, hasher);
                Store::Hashed(hashed)
            }
        };
        mem::replace(self, store).into_vec().destroy_empty();
    }
}

impl<K: KeyText, V> Hashed<K, V> {
    /// Takes the pairs for its members, of which there are none, and makes the index theirs.
    fn take<S: KeyHasher>(&mut self, pairs: Vec<(K, V)>, hasher: &S)
        requires none { length (stored_members self.old.members) ≡ 0 }
        requires table { IsTable self.old.table }
        requires buckets { length pairs.items ≤ length self.old.table.heads.items }
        ensures members { stored_members self.new.members ≡ pairs.items }
        ensures table { IsTableOf (map (λ p. S.hash_of hasher.now (K.text_of p.0)) pairs.items) self.new.table }
    {
        mem::replace(&mut self.members, Members::Listed(pairs))
            .into_vec()
            .destroy_empty();
        index_anew(&self.members, hasher, &mut self.table);
    }
}

impl<K: KeyText, V, S: KeyHasher> HashMap<K, V, S> {
    ghost use Rattle.sj_object.specs.Edits.{lookup};

    /// Memory for as many members as there are. It is refused only for want of memory.
    pub fn room(&self) -> Result<Room<K, V>, AllocError>
    where
        K: Drop,
        V: Drop,
        ensures { IfOk result (λ r. length self.now.entries ≤ places r) }
    {
        let alloc = self.allocator();
        let pairs = Vec::with_capacity(alloc, self.len())?;
        let hashed = match &self.store {
            Store::Plain(_) => None,
            Store::Hashed(hashed) => Some(hashed.emptied(alloc)?),
        };
        Ok(Room { pairs, hashed })
    }

    /// Puts a member, whose key is not there, at a position, counted from 0, in memory that was asked
    /// for before: with `room` of the map that `shift_remove_full` took it out of, it undoes that.
    pub fn restore(&mut self, room: Room<K, V>, index: usize, key: K, value: V)
        requires absent { lookup (K.text_of key) self.old.entries ≡ None }
        requires within { index ≤ length self.old.entries }
        requires places { length self.old.entries < places room }
        ensures entries { self.new.entries ≡ insert self.old.entries index ((key, K.text_of key), value) }
        ensures hasher { self.new.hasher ≡ self.old.hasher }
    {
        let Room { mut pairs, hashed } = room;
        self.store.move_into(&mut pairs);
        pairs.insert(index, (key, value)).unwrap();
        self.store.take(pairs, hashed, &self.hasher);
    }

    /// Puts members back that were taken out one after another, the last first, each at the position
    /// that it had, counted from 0, in memory that was asked for before. One is let go whose key is
    /// there, whose position is behind all, or for which the room has no place.
    pub fn restore_all(&mut self, room: Room<K, V>, taken: Vec<(usize, K, V)>)
    where
        K: Drop,
        V: Drop,
        ensures entries { self.new.entries ≡ restored_all K.text_of (places room) taken.items self.old.entries }
        ensures hasher { self.new.hasher ≡ self.old.hasher }
    {
        let most = room.places();
        if most <= self.len() {
            return;
        }
        let Room { mut pairs, hashed } = room;
        self.store.move_into(&mut pairs);
        put_back(&mut pairs, most, taken);
        self.store.take(pairs, hashed, &self.hasher);
    }
}

/// Whether a member with the text goes among the pairs at the position, in room for so many.
fn has_place<K: KeyText, V>(pairs: &[(K, V)], most: usize, position: usize, text: &str) -> bool
    ensures { result ≡ takes most position text.now (entries_of K.text_of pairs.now) }
{
    pairs.len() < most && position <= pairs.len() && !has_key(pairs, text)
}

/// Puts those back that were taken out one after another, the last first, where there is memory for
/// so many.
fn put_back<K: KeyText + Drop, V: Drop>(
    pairs: &mut Vec<(K, V)>,
    most: usize,
    taken: Vec<(usize, K, V)>,
)
    requires { most ≤ vec_capacity pairs.old }
    ensures { entries_of K.text_of pairs.new.items ≡ restored_all K.text_of most taken.items (entries_of K.text_of pairs.old.items) }
{
    let mut taken = taken;
    while let Some((position, key, value)) = taken.pop() {
        if has_place(pairs, most, position, key.text()) {
            pairs.insert(position, (key, value)).unwrap();
        }
    }
}

impl<K, V> Hashed<K, V> {
    /// No members, beside as many buckets.
    fn emptied(&self, alloc: Global) -> Result<Box<Self>, AllocError>
        requires { IsTable self.now.table }
        ensures members { IfOk result (λ b. length (stored_members b.value.members) ≡ 0) }
        ensures table { IfOk result (λ b. IsTable b.value.table) }
        ensures buckets { IfOk result (λ b. length b.value.table.heads.items ≡ length self.now.table.heads.items) }
    {
        let table = self.table.emptied(alloc)?;
        let members = Members::Listed(Vec::new(alloc));
        match Box::new(alloc, Hashed { members, table }) {
            Ok(hashed) => Ok(hashed),
            Err(refused) => {
                let Hashed { members, table: _ } = refused.value;
                members.into_vec().destroy_empty();
                Err(AllocError)
            }
        }
    }
}
