//! Landmarks: the places of items and the tags of keys that are kept of large arrays and objects.

ghost use Rattle.std.specs.Prelude.{◌≡◌, ◌+◌, ◌<◌, ◌≤◌, length, IfSome};
ghost use Rattle.sj_text_core.specs.Nodes.{IsPreorder};
ghost use Rattle.sj_tape.specs.Marks.{packed_marks};
ghost use Rattle.sj_tape.specs.inner.Places.{AllPlaced};
ghost use Rattle.sj_tape.specs.inner.Tags.{AllTagged};

use crate::item_places::{ArrayPlaces, array_at};
use crate::key_tags::{KeyTags, object_at};
use crate::packed::Packed;
use crate::stored_node::{StoredNode, kept_at};
use std::alloc::Global;

/// How many items an array has at least of which places are kept.
pub(crate) const MANY_ITEMS: usize = 256;

/// How many members an object has at least of whose keys tags are kept.
pub(crate) const MANY_MEMBERS: usize = 1024;

/// Of so many items or members the place of one is kept.
pub(crate) const STEP: usize = 64;

/// Landmarks end where more items or members than these, and one in `PER_CHANGE`, differ in width from
/// the one before: the way to the next then waits for them.
pub(crate) const FREE_CHANGES: usize = 16;

/// See `FREE_CHANGES`.
pub(crate) const PER_CHANGE: usize = 8;

/// How many arrays have landmarks at most, and how many objects.
const MOST: usize = 64;

/// How many members an object has at most in which large arrays and objects are looked for.
const FEW: usize = 64;

/// Of so many nodes one is looked at, at most, where large arrays and objects are looked for.
const PER_LOOK: usize = 32;

/// The landmarks of a tape.
#[derive(Drop)]
pub(crate) struct Landmarks {
    pub(crate) arrays: Vec<ArrayPlaces>,
    pub(crate) objects: Vec<KeyTags>,
}

/// Landmarks of an array or an object, by where its items or members begin among the nodes.
pub(crate) trait Begins {
    /// The place of the first one.
    fn start(&self) -> usize;
}

/// Which of these begins at that place. They are in that order; where none of them does, the first one
/// behind it, or how many they are.
pub(crate) fn index_of<T: Begins>(parts: &[T], start: usize) -> usize {
    let mut low = 0;
    let mut high = parts.len();
    while low < high {
        let middle = low + (high - low) / 2;
        if parts[middle].start() < start {
            low = middle + 1;
        } else {
            high = middle;
        }
    }
    low
}

/// Keeps the landmarks of the array or object that begins with the node there, where it is large. Where
/// memory for them is refused, it has none.
fn keep_landmarks(
    alloc: Global,
    nodes: &[Packed<'_>],
    at: usize,
    arrays: &mut Vec<ArrayPlaces>,
    objects: &mut Vec<KeyTags>,
)
    requires tree { IsPreorder (packed_marks nodes.now) }
    requires at { at < length (packed_marks nodes.now) }
    requires placed { AllPlaced (packed_marks nodes.now) arrays.old.items }
    requires tagged { AllTagged (packed_marks nodes.now) objects.old.items }
    ensures placed { AllPlaced (packed_marks nodes.now) arrays.new.items }
    ensures tagged { AllTagged (packed_marks nodes.now) objects.new.items }
{
    if let Some(array) = array_at(alloc, nodes, at) {
        let _ = arrays.push(array);
    }
    if let Some(object) = object_at(alloc, nodes, at) {
        let _ = objects.push(object);
    }
}

/// The landmarks of the large arrays and objects that stand in nothing but objects of few members, up
/// to the first so many of either. Of the nodes one in so many is looked at on the way to them. None
/// where there are none, or where memory for them is refused.
pub(crate) fn landmarks_in(alloc: Global, nodes: &[Packed<'_>]) -> Option<Box<Landmarks>>
    requires { IsPreorder (packed_marks nodes.now) }
    ensures placed { IfSome result (λ b. AllPlaced (packed_marks nodes.now) b.value.arrays.items) }
    ensures tagged { IfSome result (λ b. AllTagged (packed_marks nodes.now) b.value.objects.items) }
{
    if nodes.len() <= MANY_ITEMS {
        return None;
    }
    let mut arrays = Vec::new(alloc);
    let mut objects = Vec::new(alloc);
    let mut at = 0;
    let mut left = nodes.len() / PER_LOOK;
    while at < nodes.len() && left > 0 && arrays.len().max(objects.len()) < MOST {
        left -= 1;
        let width = width_at(nodes, at);
        if width > MANY_ITEMS {
            keep_landmarks(alloc, nodes, at, &mut arrays, &mut objects);
        }
        at += step_at(nodes, at, width);
    }
    if arrays.is_empty() && objects.is_empty() {
        return None;
    }
    Box::new(alloc, Landmarks { arrays, objects }).ok()
}

/// How many nodes the tree has that begins with the node there.
fn width_at(nodes: &[Packed<'_>], at: usize) -> usize
    requires tree { IsPreorder (packed_marks nodes.now) }
    requires at { at < length (packed_marks nodes.now) }
    ensures some { 0 < result }
    ensures within { at + result ≤ length (packed_marks nodes.now) }
{
    kept_at(nodes, at).width()
}

/// How many nodes to go on from one, whose tree has so many: into a wide object of few members, else
/// past the tree.
fn step_at(nodes: &[Packed<'_>], at: usize, width: usize) -> usize
    requires at { at < length (packed_marks nodes.now) }
    requires some { 0 < width }
    requires within { at + width ≤ length (packed_marks nodes.now) }
    ensures some { 0 < result }
    ensures within { at + result ≤ length (packed_marks nodes.now) }
{
    match kept_at(nodes, at).object_len() {
        Some(len) if len <= FEW && width > MANY_ITEMS => 1,
        _ => width,
    }
}
