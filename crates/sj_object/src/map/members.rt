//! The members of a map beside an index.

ghost use Rattle.std.specs.Prelude.{◌≡◌, ◌-◌, ◌<◌, ◌≤◌, ◌∷◌, ◌++◌, [], length, take, slice_set, slice_index_or, IsSome, IfNone, IfSome, OnOk};
ghost use Rattle.std.specs.List.{insert, remove};
ghost use Rattle.std.specs.Option.{option_to_list};
ghost use Rattle.std.specs.Vec.{vec_len, vec_capacity};
ghost use Rattle.sj_object.specs.Stored.{stored_members};
ghost use Rattle.sj_object.specs.inner.Stored.{HasSpareIn};

use std::alloc::{AllocError, Global};
use std::collections::VecDeque;
use std::mem;

/// Members in order: a list, until one leaves from elsewhere than the end, and a ring from there on,
/// of which a removal moves those in front of it or those behind it, whichever are fewer.
#[derive(Drop)]
pub enum Members<K, V> {
    Listed(Vec<(K, V)>),
    Ring(VecDeque<(K, V)>),
}

// What is small is taken into its callers, so that a list costs one test.
impl<K, V> Members<K, V> {
    /// How many there are.
    #[inline(always)]
    pub fn len(&self) -> usize
        ensures { result ≡ length (stored_members self.now) }
    {
        match self {
            Members::Listed(pairs) => pairs.len(),
            Members::Ring(pairs) => pairs.len(),
        }
    }

    /// What the memory is taken from.
    pub fn allocator(&self) -> Global {
        match self {
            Members::Listed(pairs) => *pairs.allocator(),
            Members::Ring(pairs) => *pairs.allocator(),
        }
    }

    /// All in order, in two parts.
    #[inline(always)]
    pub fn as_slices(&self) -> (&[(K, V)], &[(K, V)])
        ensures { result.0.now ++ result.1.now ≡ stored_members self.now }
    {
        match self {
            Members::Listed(pairs) => (pairs.as_slice(), &[]),
            Members::Ring(pairs) => parts(pairs),
        }
    }

    /// The member at a position.
    #[inline(always)]
    pub fn pair(&self, position: usize) -> &(K, V)
        requires { position < length (stored_members self.now) }
        ensures { result.now ≡ slice_index_or (stored_members self.now) position result.now }
    {
        match self {
            Members::Listed(pairs) => &pairs[position],
            Members::Ring(pairs) => pair_in(pairs, position),
        }
    }

    /// Sets the value of the member at a position, and answers the one before.
    #[inline(always)]
    pub fn replace(&mut self, position: usize, value: V) -> V
        requires { position < length (stored_members self.old) }
        ensures before { (pair : K × V) → pair ≡ slice_index_or (stored_members self.old) position pair → result ≡ pair.1 }
        ensures pairs { (pair : K × V) → pair ≡ slice_index_or (stored_members self.old) position pair → stored_members self.new ≡ slice_set (stored_members self.old) position (pair.0, value) }
    {
        match self {
            Members::Listed(pairs) => mem::replace(&mut pairs[position].1, value),
            Members::Ring(pairs) => mem::replace(&mut pairs[position].1, value),
        }
    }

    /// Makes a place for one more.
    #[inline(always)]
    pub fn reserve(&mut self) -> Result<(), AllocError>
        ensures pairs { stored_members self.new ≡ stored_members self.old }
        ensures place { OnOk result (HasSpareIn self.new) }
    {
        match self {
            Members::Listed(pairs) => pairs.reserve(1),
            Members::Ring(pairs) => pairs.reserve(1),
        }
    }

    /// Puts a member last, for which there is a place.
    #[inline(always)]
    pub fn push_reserved(&mut self, pair: (K, V))
        requires { HasSpareIn self.old }
        ensures { stored_members self.new ≡ stored_members self.old ++ pair ∷ [] }
    {
        match self {
            Members::Listed(pairs) => pairs.push_reserved(pair),
            Members::Ring(pairs) => pairs.push_back_reserved(pair),
        }
    }

    /// Puts a member at a position, for which there is a place. Each from there on goes to the position
    /// behind its own.
    pub fn insert_reserved(&mut self, position: usize, pair: (K, V))
        requires place { HasSpareIn self.old }
        requires within { position ≤ length (stored_members self.old) }
        ensures { stored_members self.new ≡ insert (stored_members self.old) position pair }
    {
        match self {
            Members::Listed(pairs) => pairs.insert(position, pair).unwrap(),
            Members::Ring(pairs) => pairs.insert(position, pair).unwrap(),
        }
    }

    /// Lets all go. The memory stays.
    pub fn clear(&mut self)
    where
        K: Drop,
        V: Drop,
        ensures { stored_members self.new ≡ [] }
    {
        match self {
            Members::Listed(pairs) => pairs.clear(),
            Members::Ring(pairs) => pairs.clear(),
        }
    }

    /// Takes the one at a position out. Those after it close up.
    pub fn remove(&mut self, position: usize) -> Option<(K, V)>
        requires { position < length (stored_members self.old) }
        ensures pair { IfSome result (λ p. p ≡ slice_index_or (stored_members self.old) position p) }
        ensures some { IsSome result }
        ensures pairs { stored_members self.new ≡ remove (stored_members self.old) position }
    {
        if position + 1 < self.len() {
            self.turn();
        }
        match self {
            Members::Listed(pairs) => Some(pairs.remove(position)),
            Members::Ring(pairs) => pairs.remove(position),
        }
    }

    /// Takes the last one out.
    #[inline(always)]
    pub fn pop(&mut self) -> Option<(K, V)>
        ensures pairs { stored_members self.old ≡ stored_members self.new ++ option_to_list result }
        ensures rest { stored_members self.new ≡ take (length (stored_members self.old) - 1) (stored_members self.old) }
        ensures none { IfNone result (stored_members self.new ≡ []) }
    {
        match self {
            Members::Listed(pairs) => pairs.pop(),
            Members::Ring(pairs) => pairs.pop_back(),
        }
    }

    /// Makes a ring of a list, in its memory.
    fn turn(&mut self)
        ensures { stored_members self.new ≡ stored_members self.old }
    {
        let alloc = self.allocator();
        let ring = mem::replace(self, Members::Listed(Vec::new(alloc))).into_ring();
        mem::replace(self, Members::Ring(ring))
            .into_vec()
            .destroy_empty();
    }

    fn into_ring(self) -> VecDeque<(K, V)>
        ensures { result.items ≡ stored_members self }
    {
        match self {
            Members::Listed(pairs) => VecDeque::from_vec(pairs),
            Members::Ring(pairs) => pairs,
        }
    }

    /// All in order, as a list.
    pub fn into_vec(self) -> Vec<(K, V)>
        ensures pairs { result.items ≡ stored_members self }
        ensures place { HasSpareIn self → vec_len result < vec_capacity result }
    {
        match self {
            Members::Listed(pairs) => pairs,
            Members::Ring(pairs) => pairs.into_vec(),
        }
    }
}

// What a ring alone needs stands apart, so that it takes no room in a caller.

/// The member at a position of a ring.
#[inline(never)]
fn pair_in<K, V>(ring: &VecDeque<(K, V)>, position: usize) -> &(K, V)
    requires { position < length ring.now.items }
    ensures { result.now ≡ slice_index_or ring.now.items position result.now }
{
    &ring[position]
}

/// The two parts of a ring.
#[inline(never)]
fn parts<K, V>(ring: &VecDeque<(K, V)>) -> (&[(K, V)], &[(K, V)])
    ensures { result.0.now ++ result.1.now ≡ ring.now.items }
{
    ring.as_slices()
}
