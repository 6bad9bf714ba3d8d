//! How a map stores its members.

ghost use Rattle.std.specs.Prelude.{◌≡◌, ◌↔◌, ◌+◌, ◌-◌, ◌<◌, ◌≤◌, ◌∷◌, ◌++◌, [], ℕ, List, length, take, slice_set, slice_index_or, IsTrue, IsSome, IfNone, IfSome};
ghost use Rattle.std.specs.List.{insert, remove};
ghost use Rattle.std.specs.Option.{option_to_list};
ghost use Rattle.std.specs.Vec.{vec_len, vec_capacity};
ghost use Rattle.sj_object.specs.Index.{NeedsHash, IsTable, hashes_in};
ghost use Rattle.sj_object.specs.Stored.{stored_members, pairs_of, buckets_of, IsIndexOf};
ghost use Rattle.sj_object.specs.inner.Stored.{HasSpare, HasSpareIn, IsIndexed, IsIndexedAhead};

use super::index::Table;
use super::members::Members;
use std::alloc::Global;
use std::mem;

/// The members of a map in order: a plain list, or members with an index. These stand in a box, so
/// that a plain list has little beside its members.
#[derive(Drop)]
pub enum Store<K, V> {
    Plain(Vec<(K, V)>),
    Hashed(Box<Hashed<K, V>>),
}

/// Members and the index of their hashes.
#[derive(Drop)]
pub struct Hashed<K, V> {
    pub(super) members: Members<K, V>,
    pub(super) table: Table,
}

// What is small is taken into its callers, so that a plain list costs one test.
impl<K, V> Store<K, V> {
    /// How many members there are.
    pub fn len(&self) -> usize
        ensures { result ≡ length (pairs_of self.now) }
    {
        match self {
            Store::Plain(pairs) => pairs.len(),
            Store::Hashed(hashed) => hashed.members.len(),
        }
    }

    /// How many buckets there are; None for a plain list.
    pub fn buckets(&self) -> Option<usize>
        ensures { result ≡ buckets_of self.now }
    {
        match self {
            Store::Plain(_) => None,
            Store::Hashed(hashed) => Some(hashed.table.buckets()),
        }
    }

    /// Whether the hash of a member to come is read: there are buckets, or it makes some.
    #[inline(always)]
    pub fn reads_hash(&self) -> bool
        ensures { IsTrue result ↔ NeedsHash (length (pairs_of self.now)) (buckets_of self.now) }
    {
        match self {
            Store::Plain(pairs) => pairs.len() >= 32,
            Store::Hashed(_) => true,
        }
    }

    /// What the memory is taken from.
    pub fn allocator(&self) -> Global {
        match self {
            Store::Plain(pairs) => *pairs.allocator(),
            Store::Hashed(hashed) => hashed.members.allocator(),
        }
    }

    /// The members in order, in two parts.
    #[inline(always)]
    pub fn as_slices(&self) -> (&[(K, V)], &[(K, V)])
        ensures { result.0.now ++ result.1.now ≡ pairs_of self.now }
    {
        match self {
            Store::Plain(pairs) => (pairs.as_slice(), &[]),
            Store::Hashed(hashed) => hashed.members.as_slices(),
        }
    }

    /// The member at a position.
    #[inline(always)]
    pub fn pair(&self, position: usize) -> &(K, V)
        requires { position < length (pairs_of self.now) }
        ensures { result.now ≡ slice_index_or (pairs_of self.now) position result.now }
    {
        match self {
            Store::Plain(pairs) => &pairs[position],
            Store::Hashed(hashed) => hashed.members.pair(position),
        }
    }

    /// Sets the value of the member at a position, and answers the one before.
    #[inline(always)]
    pub fn replace(&mut self, position: usize, value: V) -> V
        requires { position < length (pairs_of self.old) }
        ensures before { (pair : K × V) → pair ≡ slice_index_or (pairs_of self.old) position pair → result ≡ pair.1 }
        ensures pairs { (pair : K × V) → pair ≡ slice_index_or (pairs_of self.old) position pair → pairs_of self.new ≡ slice_set (pairs_of self.old) position (pair.0, value) }
        ensures index { (hashes : List ℕ) → IsIndexOf hashes self.old → IsIndexOf hashes self.new }
        ensures buckets { buckets_of self.new ≡ buckets_of self.old }
    {
        match self {
            Store::Plain(pairs) => mem::replace(&mut pairs[position].1, value),
            Store::Hashed(hashed) => hashed.members.replace(position, value),
        }
    }

    /// Puts a member last, for which there is a place.
    #[inline(always)]
    pub fn push_reserved(&mut self, pair: (K, V))
        requires { HasSpare self.old }
        ensures pairs { pairs_of self.new ≡ pairs_of self.old ++ pair ∷ [] }
        ensures index { (hashes : List ℕ) → IsIndexOf hashes self.old → IsIndexOf hashes self.new }
        ensures buckets { buckets_of self.new ≡ buckets_of self.old }
    {
        match self {
            Store::Plain(pairs) => pairs.push_reserved(pair),
            Store::Hashed(hashed) => hashed.members.push_reserved(pair),
        }
    }

    /// Puts a member at a position, for which there is a place, and whose hash stands last. Each from
    /// there on goes to the position behind its own.
    pub fn insert_reserved(&mut self, position: usize, pair: (K, V))
        requires place { HasSpare self.old }
        requires within { position ≤ length (pairs_of self.old) }
        requires indexed { IsIndexedAhead self.old }
        ensures pairs { pairs_of self.new ≡ insert (pairs_of self.old) position pair }
        ensures index { (hashes : List ℕ) → (hash : ℕ) → length hashes ≡ length (pairs_of self.old) → IsIndexOf (hashes ++ hash ∷ []) self.old → IsIndexOf (insert hashes position hash) self.new }
        ensures buckets { buckets_of self.new ≡ buckets_of self.old }
    {
        match self {
            Store::Plain(pairs) => pairs.insert(position, pair).unwrap(),
            Store::Hashed(hashed) => hashed.insert_reserved(position, pair),
        }
    }

    /// Lets all members go. The memory and the buckets stay.
    pub fn clear(&mut self)
    where
        K: Drop,
        V: Drop,
        requires { IsIndexed self.old }
        ensures pairs { pairs_of self.new ≡ [] }
        ensures index { IsIndexOf [] self.new }
        ensures buckets { buckets_of self.new ≡ buckets_of self.old }
    {
        match self {
            Store::Plain(pairs) => pairs.clear(),
            Store::Hashed(hashed) => {
                hashed.table.clear();
                hashed.members.clear();
            }
        }
    }

    /// Takes the member at a position out. The members after it close up.
    #[inline(always)]
    pub fn remove(&mut self, position: usize) -> Option<(K, V)>
        requires within { position < length (pairs_of self.old) }
        requires indexed { IsIndexed self.old }
        ensures pair { IfSome result (λ p. p ≡ slice_index_or (pairs_of self.old) position p) }
        ensures some { IsSome result }
        ensures pairs { pairs_of self.new ≡ remove (pairs_of self.old) position }
        ensures index { (hashes : List ℕ) → length hashes ≡ length (pairs_of self.old) → IsIndexOf hashes self.old → IsIndexOf (remove hashes position) self.new }
        ensures buckets { buckets_of self.new ≡ buckets_of self.old }
    {
        match self {
            Store::Plain(pairs) => Some(pairs.remove(position)),
            Store::Hashed(hashed) => hashed.remove(position),
        }
    }

    /// Takes the last member out.
    #[inline(always)]
    pub fn pop(&mut self) -> Option<(K, V)>
        requires { IsIndexed self.old }
        ensures pairs { pairs_of self.old ≡ pairs_of self.new ++ option_to_list result }
        ensures rest { pairs_of self.new ≡ take (length (pairs_of self.old) - 1) (pairs_of self.old) }
        ensures none { IfNone result (pairs_of self.new ≡ []) }
        ensures index { (hashes : List ℕ) → length hashes ≡ length (pairs_of self.old) → IsIndexOf hashes self.old → IsIndexOf (take (length hashes - 1) hashes) self.new }
        ensures buckets { buckets_of self.new ≡ buckets_of self.old }
    {
        match self {
            Store::Plain(pairs) => pairs.pop(),
            Store::Hashed(hashed) => hashed.pop(),
        }
    }

    /// The members in order, as a list.
    #[inline(always)]
    pub fn into_vec(self) -> Vec<(K, V)>
        ensures pairs { result.items ≡ pairs_of self }
        ensures place { HasSpare self → vec_len result < vec_capacity result }
    {
        match self {
            Store::Plain(pairs) => pairs,
            Store::Hashed(hashed) => list_of(hashed),
        }
    }
}

impl<K, V> Hashed<K, V> {
    /// Puts a member at a position, for which there is a place, and moves its hash there, which stands
    /// last.
    fn insert_reserved(&mut self, position: usize, pair: (K, V))
        requires place { HasSpareIn self.old.members }
        requires within { position ≤ length (stored_members self.old.members) }
        requires table { IsTable self.old.table }
        requires ahead { length (hashes_in self.old.table) ≡ length (stored_members self.old.members) + 1 }
        ensures pairs { stored_members self.new.members ≡ insert (stored_members self.old.members) position pair }
        ensures hashes { (before : List ℕ) → (hash : ℕ) → hashes_in self.old.table ≡ before ++ hash ∷ [] → hashes_in self.new.table ≡ insert before position hash }
        ensures table { IsTable self.new.table }
        ensures buckets { length self.new.table.heads.items ≡ length self.old.table.heads.items }
    {
        if position < self.members.len() {
            self.table.move_last(position);
        }
        self.members.insert_reserved(position, pair);
    }

    /// Takes the member at a position out, and its hash. It stands apart, so that it takes no room in
    /// a caller.
    #[inline(never)]
    fn remove(&mut self, position: usize) -> Option<(K, V)>
        requires within { position < length (stored_members self.old.members) }
        requires table { IsTable self.old.table }
        requires same { length (hashes_in self.old.table) ≡ length (stored_members self.old.members) }
        ensures pair { IfSome result (λ p. p ≡ slice_index_or (stored_members self.old.members) position p) }
        ensures some { IsSome result }
        ensures pairs { stored_members self.new.members ≡ remove (stored_members self.old.members) position }
        ensures hashes { hashes_in self.new.table ≡ remove (hashes_in self.old.table) position }
        ensures table { IsTable self.new.table }
        ensures buckets { length self.new.table.heads.items ≡ length self.old.table.heads.items }
    {
        self.table.remove(position);
        self.members.remove(position)
    }

    /// Takes the last member out, and its hash.
    #[inline(always)]
    fn pop(&mut self) -> Option<(K, V)>
        requires table { IsTable self.old.table }
        requires same { length (hashes_in self.old.table) ≡ length (stored_members self.old.members) }
        ensures pairs { stored_members self.old.members ≡ stored_members self.new.members ++ option_to_list result }
        ensures rest { stored_members self.new.members ≡ take (length (stored_members self.old.members) - 1) (stored_members self.old.members) }
        ensures none { IfNone result (stored_members self.new.members ≡ []) }
        ensures hashes { hashes_in self.new.table ≡ take (length (hashes_in self.old.table) - 1) (hashes_in self.old.table) }
        ensures table { IsTable self.new.table }
        ensures buckets { length self.new.table.heads.items ≡ length self.old.table.heads.items }
    {
        if self.members.len() == 0 {
            return None;
        }
        self.table.pop();
        self.members.pop()
    }
}

/// The members in order, without their index.
#[inline(never)]
fn list_of<K, V>(hashed: Box<Hashed<K, V>>) -> Vec<(K, V)>
    ensures pairs { result.items ≡ stored_members hashed.value.members }
    ensures place { HasSpareIn hashed.value.members → vec_len result < vec_capacity result }
{
    let Hashed { members, table: _ } = Box::into_inner(hashed);
    members.into_vec()
}
