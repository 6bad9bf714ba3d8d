//! Places of the items of large arrays, so that few are passed on the way to any.

ghost use Rattle.std.specs.Prelude.{◌≡◌, ◌+◌, ◌<◌, ◌≤◌, ◌^◌, length, map, drop, take, IfSome};
ghost use Rattle.sj_text_core.specs.Nodes.{IsPreorder};
ghost use Rattle.sj_text_core.specs.Tree.{items_len};
ghost use Rattle.sj_tape.specs.Marks.{packed_marks};
ghost use Rattle.sj_tape.specs.Parts.{items_in};
ghost use Rattle.sj_tape.specs.inner.Parts.{AreItemNodes, ItemsFrom};
ghost use Rattle.sj_tape.specs.inner.Places.{AllPlaced, ArePlaces, IsArrayPlaced};

use crate::landmarks::{Begins, FREE_CHANGES, MANY_ITEMS, PER_CHANGE, STEP, index_of};
use crate::packed::Packed;
use crate::stored_node::{StoredNode, between, kept_at, pass_run};
use std::alloc::Global;

/// How many nodes an item has on an average at least where places are kept. An array of narrower ones
/// is read so fast that they would cost more than one in twenty of it.
const WIDE_ITEM: usize = 5;

/// The places of some items of an array, counted from the first item's.
#[derive(Drop)]
pub(crate) struct ArrayPlaces {
    start: usize,
    end: usize,
    places: Vec<usize>,
}

impl Begins for ArrayPlaces {
    fn start(&self) -> usize {
        self.start
    }
}

/// The position of an item, at most this one, and its place, where the nodes from `start` on and
/// before `end` are those of items.
pub(crate) fn place_before(
    arrays: &[ArrayPlaces],
    _nodes: &[Packed<'_>],
    start: usize,
    end: usize,
    position: usize,
) -> (usize, usize)
    requires placed { AllPlaced (packed_marks _nodes.now) arrays.now }
    requires are { AreItemNodes (drop start (take end (packed_marks _nodes.now))) }
    requires some { position ≤ items_len (items_in (drop start (take end (packed_marks _nodes.now)))) }
    ensures before { result.0 ≤ position }
    ensures there { ItemsFrom (drop start (take end (packed_marks _nodes.now))) result.0 result.1 }
{
    if position < STEP {
        return (0, 0);
    }
    let index = index_of(arrays, start);
    if index >= arrays.len() {
        return (0, 0);
    }
    let array = &arrays[index];
    if array.start != start || array.end != end {
        return (0, 0);
    }
    let kept = (position / STEP + 1).min(array.places.len());
    if kept == 0 {
        return (0, 0);
    }
    ((kept - 1) * STEP, array.places[kept - 1])
}

/// The place of the item at that position, from the one at an earlier position on, and how many of the
/// items behind that one differ in width from the one before.
fn pass_block<'i, N: StoredNode<'i>>(
    nodes: &[N],
    passed: usize,
    place: usize,
    position: usize,
) -> (usize, usize)
    requires from { ItemsFrom (map N.mark_of nodes.now) passed place }
    requires more { passed < position }
    requires some { position ≤ items_len (items_in (map N.mark_of nodes.now)) }
    requires fits { length nodes.now < 2 ^ 64 }
    ensures { ItemsFrom (map N.mark_of nodes.now) position result.0 }
{
    let mut behind = pass_run(nodes, passed, place, position);
    let mut changes = 0usize;
    while behind.0 < position {
        behind = pass_run(nodes, behind.0, behind.1, position);
        changes = changes.saturating_add(1);
    }
    (behind.1, changes)
}

/// The place of each item whose position is a multiple of `STEP`, up to where too many items differ in
/// width from the one before. None where memory was refused.
fn places_of<'i, N: StoredNode<'i>>(alloc: Global, nodes: &[N], len: usize) -> Option<Vec<usize>>
    requires are { AreItemNodes (map N.mark_of nodes.now) }
    requires counted { len ≡ items_len (items_in (map N.mark_of nodes.now)) }
    requires fits { length nodes.now < 2 ^ 64 }
    ensures { IfSome result (λ places. ArePlaces (map N.mark_of nodes.now) places.items) }
{
    let mut places = Vec::with_capacity(alloc, len / STEP + 1).ok()?;
    let mut passed = 0;
    let mut at = 0;
    let mut changes = 0usize;
    while passed < len && changes <= FREE_CHANGES + passed / PER_CHANGE {
        places.push(at).ok()?;
        let next = passed + STEP.min(len - passed);
        let (place, more) = pass_block(nodes, passed, at, next);
        changes = changes.saturating_add(more);
        at = place;
        passed = next;
    }
    Some(places)
}

/// The places of the array that begins with the node there, where it has many items that are wide.
pub(crate) fn array_at(alloc: Global, nodes: &[Packed<'_>], at: usize) -> Option<ArrayPlaces>
    requires tree { IsPreorder (packed_marks nodes.now) }
    requires at { at < length (packed_marks nodes.now) }
    ensures { IfSome result (λ a. IsArrayPlaced (packed_marks nodes.now) a) }
{
    let node = kept_at(nodes, at);
    let len = node.array_len()?;
    let start = at + 1;
    let end = at + node.width();
    if len < MANY_ITEMS || (end - start) / WIDE_ITEM < len {
        return None;
    }
    let places = places_of(alloc, between(nodes, start, end), len)?;
    Some(ArrayPlaces { start, end, places })
}
