//! The index of a map's members by their hashes.

ghost use Rattle.std.specs.Prelude.{◌≡◌, ◌+◌, ◌-◌, ◌/◌, ◌<◌, ◌≤◌, ◌^◌, ◌∷◌, ◌++◌, [], ℕ, List, length, take, slice_index, IsTrue, Some, IfOk, OnOk, OnErr};
ghost use Rattle.std.specs.List.{insert, remove};
ghost use Rattle.std.specs.Vec.{vec_capacity};
ghost use Rattle.sj_object.specs.Holes.{AreHoles, IsChained};
ghost use Rattle.sj_object.specs.Index.{buckets_for, hashes_in, IsTable};

use super::chain::{bucket_of, link, pass_over};
use super::holes::{HOLES, close, put_hole};
use std::alloc::{AllocError, Global};

/// The hash of each member, the link to the next one in its chain, and where the chains begin, one
/// for each bucket.
///
/// The hashes and links of members that are taken out by key stay where they are, so that no place
/// changes: of those taken from the front, while there is no hole, a chain ends at them; of the
/// others, each place is a hole, which its chain passes over. All are forgotten by the removal behind
/// the eighth hole, or behind as many of both as a quarter of the buckets, and by a doubling of the
/// buckets, and a hole that stands last by a pop. There is room for all.
#[derive(Drop)]
pub struct Table {
    pub(super) bits: u32,
    pub(super) gone: usize,
    pub(super) holes: Vec<usize>,
    pub(super) hashes: Vec<u64>,
    pub(super) links: Vec<usize>,
    pub(super) heads: Vec<usize>,
}

impl Table {
    /// How many buckets there are.
    pub fn buckets(&self) -> usize
        ensures { result ≡ length self.now.heads.items }
    {
        self.heads.len()
    }

    /// The table of 33 members, with 64 buckets.
    pub fn of_hashes(alloc: Global, hashes: Vec<u64>) -> Result<Self, AllocError>
        requires members { length hashes.items ≡ 33 }
        requires space { 80 ≤ vec_capacity hashes }
        ensures hashes { IfOk result (λ i. hashes_in i ≡ hashes.items) }
        ensures table { IfOk result IsTable }
        ensures buckets { IfOk result (λ i. length i.heads.items ≡ 64) }
    {
        let holes = Vec::with_capacity(alloc, HOLES)?;
        let mut links = vec![in alloc; 0; 80]?;
        links.truncate(hashes.len());
        let mut heads = vec![in alloc; 0; 64]?;
        link(6, &hashes, &mut links, &mut heads);
        Ok(Table {
            bits: 6,
            gone: 0,
            holes,
            hashes,
            links,
            heads,
        })
    }

    /// An empty table with as many buckets.
    pub fn emptied(&self, alloc: Global) -> Result<Self, AllocError>
        requires { IsTable self.now }
        ensures hashes { IfOk result (λ i. hashes_in i ≡ []) }
        ensures table { IfOk result IsTable }
        ensures buckets { IfOk result (λ i. length i.heads.items ≡ length self.now.heads.items) }
    {
        let buckets = self.heads.len();
        let holes = Vec::with_capacity(alloc, HOLES)?;
        let hashes = Vec::with_capacity(alloc, buckets + buckets / 4)?;
        let mut links = Vec::with_capacity(alloc, buckets + buckets / 4)?;
        let mut heads = vec![in alloc; 0; buckets]?;
        link(self.bits, &hashes, &mut links, &mut heads);
        Ok(Table {
            bits: self.bits,
            gone: 0,
            holes,
            hashes,
            links,
            heads,
        })
    }

    /// How many members there are.
    fn len(&self) -> usize
        requires { IsTable self.now }
        ensures { result ≡ length (hashes_in self.now) }
    {
        self.hashes.len() - self.holes.len() - self.gone
    }

    /// Puts one more hash last, where there are buckets: twice as many once each has a member. Only
    /// these ask for memory.
    pub fn push(&mut self, alloc: Global, hash: u64) -> Result<(), AllocError>
        requires { IsTable self.old }
        ensures hashes { OnOk result (hashes_in self.new ≡ hashes_in self.old ++ hash ∷ []) }
        ensures buckets { OnOk result (Some (length self.new.heads.items) ≡ buckets_for (length (hashes_in self.new)) (Some (length self.old.heads.items))) }
        ensures table { IsTable self.new }
        ensures refused { OnErr result (hashes_in self.new ≡ hashes_in self.old) }
        ensures refused_buckets { OnErr result (self.new.heads.items ≡ self.old.heads.items) }
    {
        if self.len() == self.heads.len() {
            return self.grow(alloc, hash);
        }
        self.push_reserved(hash);
        Ok(())
    }

    /// Puts one more hash last, where there are more buckets than members.
    #[inline(always)]
    pub fn push_reserved(&mut self, hash: u64)
        requires table { IsTable self.old }
        requires room { length (hashes_in self.old) < length self.old.heads.items }
        ensures hashes { hashes_in self.new ≡ hashes_in self.old ++ hash ∷ [] }
        ensures buckets { length self.new.heads.items ≡ length self.old.heads.items }
        ensures table { IsTable self.new }
    {
        let bucket = bucket_of(hash, self.bits);
        self.links.push_reserved(self.heads[bucket]);
        self.hashes.push_reserved(hash);
        self.heads[bucket] = self.hashes.len();
    }

    /// Puts one more hash last, and doubles the buckets.
    fn grow(&mut self, alloc: Global, hash: u64) -> Result<(), AllocError>
        requires table { IsTable self.old }
        requires full { length (hashes_in self.old) ≡ length self.old.heads.items }
        ensures hashes { OnOk result (hashes_in self.new ≡ hashes_in self.old ++ hash ∷ []) }
        ensures buckets { OnOk result (length self.new.heads.items ≡ length self.old.heads.items + length self.old.heads.items) }
        ensures table { IsTable self.new }
        ensures refused { OnErr result (hashes_in self.new ≡ hashes_in self.old) }
        ensures refused_buckets { OnErr result (self.new.heads.items ≡ self.old.heads.items) }
    {
        let Some(buckets) = self.heads.len().checked_mul(2) else {
            return Err(AllocError);
        };
        let mut heads = vec![in alloc; 0; buckets]?;
        // A quarter more, for those that will have left.
        let more = heads.len() + heads.len() / 4 - self.hashes.len();
        self.hashes.reserve(more)?;
        self.links.reserve(more)?;
        self.forget();
        self.hashes.push_reserved(hash);
        self.links.push_reserved(0);
        self.bits += 1;
        link(self.bits, &self.hashes, &mut self.links, &mut heads);
        self.heads = heads;
        Ok(())
    }

    /// Takes the hash at a position out.
    pub fn remove(&mut self, position: usize)
        requires within { position < length (hashes_in self.old) }
        requires table { IsTable self.old }
        ensures hashes { hashes_in self.new ≡ remove (hashes_in self.old) position }
        ensures buckets { length self.new.heads.items ≡ length self.old.heads.items }
        ensures table { IsTable self.new }
    {
        self.make_room_to_leave();
        if position == 0 && self.holes.is_empty() {
            // The first is the end of its chain, so that no link or head changes.
            self.gone += 1;
        } else {
            self.leave_hole(position);
        }
    }

    /// How many can leave before the table is linked anew.
    fn spare_count(&self) -> usize
        requires { IsTable self.now }
        ensures holes { result + length self.now.holes.items ≤ 8 }
        ensures few { self.now.gone + length self.now.holes.items + result ≤ length self.now.heads.items / 4 }
    {
        let left = self.gone + self.holes.len();
        usize::min(HOLES - self.holes.len(), self.heads.len() / 4 - left)
    }

    /// Forgets those that left where no other can leave before.
    fn make_room_to_leave(&mut self)
        requires { IsTable self.old }
        ensures hashes { hashes_in self.new ≡ hashes_in self.old }
        ensures buckets { length self.new.heads.items ≡ length self.old.heads.items }
        ensures table { IsTable self.new }
        ensures room { length self.new.holes.items < 8 }
        ensures few { self.new.gone + length self.new.holes.items < length self.new.heads.items / 4 }
    {
        if self.spare_count() > 0 {
            return;
        }
        self.settle();
    }

    /// Takes the hash at a position out. Its place is a hole then.
    fn leave_hole(&mut self, position: usize)
        requires within { position < length (hashes_in self.old) }
        requires table { IsTable self.old }
        requires few { self.old.gone + length self.old.holes.items < length self.old.heads.items / 4 }
        requires room { length self.old.holes.items < 8 }
        ensures hashes { hashes_in self.new ≡ remove (hashes_in self.old) position }
        ensures buckets { length self.new.heads.items ≡ length self.old.heads.items }
        ensures table { IsTable self.new }
    {
        let position = self.gone + position;
        let hole = pass_over(
            self.bits,
            &self.holes,
            position,
            &self.hashes,
            &mut self.links,
            &mut self.heads,
        );
        put_hole(&mut self.holes, hole);
    }

    /// Forgets the members that left, and links the others anew.
    fn settle(&mut self)
        requires { IsTable self.old }
        ensures hashes { hashes_in self.new ≡ hashes_in self.old }
        ensures buckets { length self.new.heads.items ≡ length self.old.heads.items }
        ensures table { IsTable self.new }
        ensures none { (self.new.gone ≡ 0) × (self.new.holes.items ≡ []) }
    {
        self.forget();
        self.link_anew();
    }

    /// Links the members anew, none of which left.
    fn link_anew(&mut self)
        requires bits { self.old.bits < 64 }
        requires count { length self.old.heads.items ≡ 2 ^ self.old.bits }
        requires size { length self.old.links.items ≡ length self.old.hashes.items }
        ensures linked { IsChained (2 ^ self.new.bits) [] self.new.hashes.items self.new.links.items self.new.heads.items }
        ensures space { vec_capacity self.new.links ≡ vec_capacity self.old.links }
        ensures buckets { length self.new.heads.items ≡ length self.old.heads.items }
        ensures rest { (self.new.bits ≡ self.old.bits) × (self.new.gone ≡ self.old.gone) × (self.new.holes ≡ self.old.holes) × (self.new.hashes ≡ self.old.hashes) }
    {
        self.heads.fill(0);
        link(self.bits, &self.hashes, &mut self.links, &mut self.heads);
    }

    /// Moves the last hash to a position, and each from there on to the one behind it.
    pub fn move_last(&mut self, position: usize)
        requires within { position < length (hashes_in self.old) }
        requires table { IsTable self.old }
        ensures hashes { (before : List ℕ) → (hash : ℕ) → hashes_in self.old ≡ before ++ hash ∷ [] → hashes_in self.new ≡ insert before position hash }
        ensures buckets { length self.new.heads.items ≡ length self.old.heads.items }
        ensures table { IsTable self.new }
    {
        self.forget();
        self.move_last_hash(position);
        self.link_anew();
    }

    /// Moves the last hash, where those that left are forgotten.
    fn move_last_hash(&mut self, position: usize)
        requires { position < length self.old.hashes.items }
        ensures hashes { (before : List ℕ) → (hash : ℕ) → self.old.hashes.items ≡ before ++ hash ∷ [] → self.new.hashes.items ≡ insert before position hash }
        ensures size { length self.new.hashes.items ≡ length self.old.hashes.items }
        ensures space { vec_capacity self.new.hashes ≡ vec_capacity self.old.hashes }
        ensures rest { (self.new.bits ≡ self.old.bits) × (self.new.gone ≡ self.old.gone) × (self.new.holes ≡ self.old.holes) × (self.new.links ≡ self.old.links) × (self.new.heads ≡ self.old.heads) }
    {
        let hash = self.hashes.remove(self.hashes.len() - 1);
        let _ = self.hashes.insert(position, hash);
    }

    /// Takes all hashes out. The buckets stay.
    pub fn clear(&mut self)
        requires { IsTable self.old }
        ensures hashes { hashes_in self.new ≡ [] }
        ensures buckets { length self.new.heads.items ≡ length self.old.heads.items }
        ensures table { IsTable self.new }
    {
        self.gone = 0;
        self.holes.clear();
        self.hashes.clear();
        self.links.clear();
        self.link_anew();
    }

    /// Forgets the members that left. The others are in no chain then.
    fn forget(&mut self)
        requires { IsTable self.old }
        ensures hashes { self.new.hashes.items ≡ hashes_in self.old }
        ensures links { length self.new.links.items ≡ length self.new.hashes.items }
        ensures none { (self.new.gone ≡ 0) × (self.new.holes.items ≡ []) }
        ensures space { (vec_capacity self.new.hashes ≡ vec_capacity self.old.hashes) × (vec_capacity self.new.links ≡ vec_capacity self.old.links) }
        ensures holes { vec_capacity self.new.holes ≡ vec_capacity self.old.holes }
        ensures rest { (self.new.bits ≡ self.old.bits) × (self.new.heads ≡ self.old.heads) }
    {
        close(self.gone, &self.holes, &mut self.hashes);
        self.links.truncate(self.hashes.len());
        self.holes.clear();
        self.gone = 0;
    }

    /// Takes the last hash out, once holes behind it are cut off. It stands apart, so that it takes no
    /// room in a caller.
    #[inline(never)]
    pub fn pop(&mut self)
        requires within { 0 < length (hashes_in self.old) }
        requires table { IsTable self.old }
        ensures hashes { hashes_in self.new ≡ take (length (hashes_in self.old) - 1) (hashes_in self.old) }
        ensures buckets { length self.new.heads.items ≡ length self.old.heads.items }
        ensures table { IsTable self.new }
    {
        if self.has_last_hole() {
            self.pop_behind_holes();
        } else {
            self.take_last();
        }
    }

    /// Whether a hole stands last.
    #[inline(always)]
    fn has_last_hole(&self) -> bool
        requires { IsTable self.now }
        ensures some { IsTrue result → 0 < length self.now.holes.items }
        ensures last { IsTrue result → slice_index self.now.holes.items 0 + 1 ≡ length self.now.hashes.items }
        ensures none { ¬ (IsTrue result) → AreHoles self.now.gone self.now.holes.items (length self.now.hashes.items - 1) }
    {
        !self.holes.is_empty() && self.holes[0] + 1 == self.hashes.len()
    }

    /// Takes the last hash out of a table in which a hole stands last, by a call, since most have none.
    #[inline(never)]
    fn pop_behind_holes(&mut self)
        requires within { 0 < length (hashes_in self.old) }
        requires table { IsTable self.old }
        ensures hashes { hashes_in self.new ≡ take (length (hashes_in self.old) - 1) (hashes_in self.old) }
        ensures buckets { length self.new.heads.items ≡ length self.old.heads.items }
        ensures table { IsTable self.new }
    {
        self.cut_last_holes();
        self.take_last();
    }

    /// Cuts off the holes that stand last.
    fn cut_last_holes(&mut self)
        requires { IsTable self.old }
        ensures hashes { hashes_in self.new ≡ hashes_in self.old }
        ensures buckets { length self.new.heads.items ≡ length self.old.heads.items }
        ensures table { IsTable self.new }
        ensures last { AreHoles self.new.gone self.new.holes.items (length self.new.hashes.items - 1) }
    {
        while self.has_last_hole() {
            self.cut_hole();
        }
    }

    /// Cuts off a hole that stands last.
    fn cut_hole(&mut self)
        requires table { IsTable self.old }
        requires some { 0 < length self.old.holes.items }
        requires last { slice_index self.old.holes.items 0 + 1 ≡ length self.old.hashes.items }
        ensures hashes { hashes_in self.new ≡ hashes_in self.old }
        ensures buckets { length self.new.heads.items ≡ length self.old.heads.items }
        ensures table { IsTable self.new }
        ensures fewer { length self.new.holes.items < length self.old.holes.items }
    {
        let last = self.holes.remove(0);
        self.hashes.truncate(last);
        self.links.truncate(last);
    }

    /// Takes the last hash out, behind which there is no hole. Its member heads a chain, so no other
    /// link changes.
    #[inline(always)]
    fn take_last(&mut self)
        requires within { 0 < length (hashes_in self.old) }
        requires table { IsTable self.old }
        requires last { AreHoles self.old.gone self.old.holes.items (length self.old.hashes.items - 1) }
        ensures hashes { hashes_in self.new ≡ take (length (hashes_in self.old) - 1) (hashes_in self.old) }
        ensures buckets { length self.new.heads.items ≡ length self.old.heads.items }
        ensures table { IsTable self.new }
    {
        let last = self.hashes.len() - 1;
        let bucket = bucket_of(self.hashes[last], self.bits);
        self.heads[bucket] = self.links[last];
        self.hashes.truncate(last);
        self.links.truncate(last);
    }
}
