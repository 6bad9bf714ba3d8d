//! The nodes of a whole tape.

ghost use Rattle.std.specs.Prelude.{◌≡◌, ◌≤◌, drop, take, IfSome};
ghost use Rattle.std.specs.Option.{ForSome};
ghost use Rattle.sj_text_core.specs.Nodes.{IsPreorder};
ghost use Rattle.sj_text_core.specs.Tree.{items_len};
ghost use Rattle.sj_tape.specs.Marks.{packed_marks};
ghost use Rattle.sj_tape.specs.Parts.{items_in};
ghost use Rattle.sj_tape.specs.inner.Parts.{AreItemNodes, ItemsFrom};
ghost use Rattle.sj_tape.specs.inner.Places.{AllPlaced};
ghost use Rattle.sj_tape.specs.inner.Tags.{AllTagged, IsTagged};

use crate::item_places::place_before;
use crate::key_tags::{KeyTags, tags_of_object};
use crate::landmarks::{Landmarks, landmarks_in};
use crate::node::Node;
use crate::packed::Packed;
use std::fmt;

/// Packed nodes, and the places of items and tags of keys that are kept of them.
pub(crate) struct PackedList<'i> {
    nodes: Vec<Packed<'i>>,
    landmarks: Option<Box<Landmarks>>,
    ghost placed: { ForSome landmarks (λ b. AllPlaced (packed_marks nodes.items) b.value.arrays.items) },
    ghost tagged: { ForSome landmarks (λ b. AllTagged (packed_marks nodes.items) b.value.objects.items) },
}

impl<'i> PackedList<'i> {
    /// The nodes, without places and tags.
    pub(crate) fn new(nodes: Vec<Packed<'i>>) -> PackedList<'i>
        ensures { result.nodes ≡ nodes.entry }
    {
        PackedList {
            nodes,
            landmarks: None,
        }
    }

    /// The nodes of one tree, with places of its large arrays and tags of its large objects. Where memory
    /// for these is refused, fewer are kept, or none.
    pub(crate) fn with_landmarks(nodes: Vec<Packed<'i>>) -> PackedList<'i>
        requires { IsPreorder (packed_marks nodes.items) }
        ensures { result.nodes ≡ nodes.entry }
    {
        let landmarks = landmarks_in(*nodes.allocator(), &nodes);
        PackedList { nodes, landmarks }
    }

    /// The nodes.
    #[inline(always)]
    pub(crate) fn nodes(&self) -> &Vec<Packed<'i>>
        ensures { result.now ≡ self.now.nodes }
    {
        &self.nodes
    }

    /// The position of an item, at most this one, and its place, where the nodes from `start` on and
    /// before `end` are those of items.
    pub(crate) fn place_before(&self, start: usize, end: usize, position: usize) -> (usize, usize)
        requires are { AreItemNodes (drop start (take end (packed_marks self.now.nodes.items))) }
        requires some { position ≤ items_len (items_in (drop start (take end (packed_marks self.now.nodes.items)))) }
        ensures before { result.0 ≤ position }
        ensures there { ItemsFrom (drop start (take end (packed_marks self.now.nodes.items))) result.0 result.1 }
    {
        match &self.landmarks {
            Some(landmarks) => {
                place_before(&landmarks.arrays, &self.nodes, start, end, position)
            }
            None => place_before(&[], &self.nodes, start, end, position),
        }
    }

    /// The tags that are kept of the object whose members' nodes are those from `start` on and before
    /// `end`; None where there are none.
    pub(crate) fn key_tags(&self, start: usize, end: usize) -> Option<&KeyTags>
        ensures { IfSome result (λ k. IsTagged (drop start (take end (packed_marks self.now.nodes.items))) k.now) }
    {
        match &self.landmarks {
            Some(landmarks) => tags_of_object(&landmarks.objects, &self.nodes, start, end),
            None => None,
        }
    }

    /// The nodes; the places and tags are let go.
    pub(crate) fn into_nodes(self) -> Vec<Packed<'i>> {
        let PackedList {
            nodes,
            landmarks: _,
        } = self;
        nodes
    }
}

/// One call lets the nodes and the landmarks go: a proof about a caller then has one step for them.
impl<'i> Drop for PackedList<'i> {
    fn drop(self) {
        let PackedList {
            nodes: _,
            landmarks: _,
        } = self;
    }
}

/// How the nodes are kept: packed by the reader, or as a caller gave them, since a refusal hands
/// them back and takes no memory.
#[derive(Drop)]
pub(crate) enum List<'i> {
    Packed(PackedList<'i>),
    Plain(Vec<Node<'i>>),
}

impl<'i> List<'i> {
    ghost use Rattle.std.specs.Prelude.{◌≡◌, length};
    ghost use Rattle.sj_tape.specs.Whole.{list_nodes};

    /// How many they are.
    pub(crate) fn len(&self) -> usize
        ensures { result ≡ length (list_nodes self.now) }
    {
        match self {
            List::Packed(list) => list.nodes.len(),
            List::Plain(nodes) => nodes.len(),
        }
    }
}

impl<'i> fmt::Debug for List<'i> {
    fn fmt<W: fmt::Write>(&self, f: &mut fmt::Formatter<W>) -> fmt::Result {
        match self {
            List::Packed(list) => f.debug_list().entries(list.nodes.iter()).finish(),
            List::Plain(nodes) => f.debug_list().entries(nodes.iter()).finish(),
        }
    }
}
