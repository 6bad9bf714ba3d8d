//! Nodes one behind another, as reads of a tape see them.
#![tactic(auto, unfolding(crate::specs::Stretches::nodes_in))]

ghost use Rattle.std.specs.Prelude.{◌≤◌, ◌<◌, ◌^◌, length};
ghost use Rattle.sj_tape.specs.Whole.{all_nodes};

use crate::key_tags::KeyTags;
use crate::node::Node;
use crate::node_list::List;
use crate::packed::Packed;
use crate::stored_node::{StoredNode, between, item_place, kept_at};
use sj_text_core::StaticNode;
use std::alloc::Global;
use std::{fmt, slice};

// Why so: docs/REFUSED.md, "A part of a tape refers to its list".
/// A stretch of the nodes of a tape, whose list is the one in `lists`, or the one node of a null.
#[derive(Clone, Copy)]
pub struct Nodes<'t, 'i> {
    lists: &'t [List<'i>],
    from: usize,
    end: usize,
    ghost order: { from ≤ end },
    ghost within: { end ≤ length (all_nodes lists.now) },
    ghost fits: { end < 2 ^ 64 },
}

impl<'t, 'i> Nodes<'t, 'i> {
    ghost use Rattle.std.specs.Prelude.{◌≡◌, ◌∷◌, [], nat_eq, get_or, take, drop, IfNone, IfSome, option_map};
    ghost use Rattle.sj_text_core.specs.Nodes.{nothing, width};
    ghost use Rattle.sj_tape.specs.Marks.{mark, packed_marks, text_in};
    ghost use Rattle.sj_tape.specs.inner.Marks.{array_len, object_len};
    ghost use Rattle.sj_tape.specs.Stretches.{nodes_in};
    ghost use Rattle.sj_tape.specs.Whole.{list_nodes};
    ghost use Rattle.sj_text_core.specs.Tree.{items_len};
    ghost use Rattle.sj_tape.specs.Parts.{items_in};
    ghost use Rattle.sj_tape.specs.inner.Parts.{AreItemNodes, ItemsFrom};
    ghost use Rattle.sj_tape.specs.inner.Tags.{IsTagged};

    /// The one node of a null.
    pub(crate) fn null() -> Nodes<'t, 'i>
        ensures { nodes_in result ≡ nothing ∷ [] }
    {
        Nodes {
            lists: &[],
            from: 0,
            end: 1,
        }
    }

    /// All nodes of a tape.
    #[inline(always)]
    pub(crate) fn all(list: &'t List<'i>) -> Nodes<'t, 'i>
        ensures { nodes_in result ≡ list_nodes list.now }
    {
        Nodes {
            lists: slice::from_ref(list),
            from: 0,
            end: list.len(),
        }
    }

    /// Where the memory of their tape is from; None where there is no tape.
    pub(crate) fn allocator(&self) -> Option<Global>
        ensures { IfNone result (all_nodes self.now.lists.now ≡ nothing ∷ []) }
    {
        match self.lists.first()? {
            List::Packed(list) => Some(*list.nodes().allocator()),
            List::Plain(nodes) => Some(*nodes.allocator()),
        }
    }

    /// The nodes, where they are packed.
    #[inline(always)]
    pub(crate) fn packed(&self) -> Option<&'t [Packed<'i>]>
        ensures { IfSome result (λ p. packed_marks p.now ≡ nodes_in self.now) }
    {
        match self.lists.first()? {
            List::Packed(list) => Some(between(list.nodes().as_slice(), self.from, self.end)),
            List::Plain(_) => None,
        }
    }

    /// How many they are.
    #[inline(always)]
    pub fn len(&self) -> usize
        ensures { result ≡ length (nodes_in self.now) }
    {
        self.end - self.from
    }

    /// Whether there are none.
    #[inline(always)]
    pub fn is_empty(&self) -> bool
        ensures { result ≡ nat_eq (length (nodes_in self.now)) 0 }
    {
        self.from == self.end
    }

    /// The node at that place, which has to be below `len`.
    #[inline(always)]
    pub fn at(&self, place: usize) -> Node<'i>
        requires { place < length (nodes_in self.now) }
        ensures { mark result ≡ get_or (nodes_in self.now) place nothing }
    {
        match self.lists.first() {
            Some(List::Packed(list)) => kept_at(list.nodes().as_slice(), self.from + place).node(),
            Some(List::Plain(nodes)) => kept_at(nodes.as_slice(), self.from + place).node(),
            None => Node::Static(StaticNode::Null),
        }
    }

    /// The text that the node at that place is, which has to be below `len`; None where it is none.
    #[inline(always)]
    pub fn text_at(&self, place: usize) -> Option<&'i str>
        requires { place < length (nodes_in self.now) }
        ensures { option_map (λ s. s.now) result ≡ text_in (get_or (nodes_in self.now) place nothing) }
    {
        match self.lists.first() {
            Some(List::Packed(list)) => kept_at(list.nodes().as_slice(), self.from + place).text(),
            Some(List::Plain(nodes)) => kept_at(nodes.as_slice(), self.from + place).text(),
            None => None,
        }
    }

    /// How many items the first node says, where it is an array's.
    #[inline(always)]
    pub(crate) fn array_len(&self) -> Option<usize>
        requires { 0 < length (nodes_in self.now) }
        ensures { result ≡ array_len (get_or (nodes_in self.now) 0 nothing) }
    {
        match self.lists.first() {
            Some(List::Packed(list)) => kept_at(list.nodes().as_slice(), self.from).array_len(),
            Some(List::Plain(nodes)) => kept_at(nodes.as_slice(), self.from).array_len(),
            None => None,
        }
    }

    /// How many members the first node says, where it is an object's.
    #[inline(always)]
    pub(crate) fn object_len(&self) -> Option<usize>
        requires { 0 < length (nodes_in self.now) }
        ensures { result ≡ object_len (get_or (nodes_in self.now) 0 nothing) }
    {
        match self.lists.first() {
            Some(List::Packed(list)) => kept_at(list.nodes().as_slice(), self.from).object_len(),
            Some(List::Plain(nodes)) => kept_at(nodes.as_slice(), self.from).object_len(),
            None => None,
        }
    }

    /// The first node and those behind it; None where there are none.
    #[inline(always)]
    pub fn split_first(&self) -> Option<(Node<'i>, Nodes<'t, 'i>)>
        ensures none { IfNone result (nodes_in self.now ≡ []) }
        ensures some { IfSome result (λ p. nodes_in self.now ≡ mark p.0 ∷ nodes_in p.1) }
    {
        if self.is_empty() {
            return None;
        }
        Some((self.at(0), self.from(1)))
    }

    /// How many nodes the tree has that begins at that place, which has to be below `len`.
    #[inline(always)]
    pub(crate) fn width_at(&self, place: usize) -> usize
        requires place { place < length (nodes_in self.now) }
        requires fits { width (get_or (nodes_in self.now) place nothing) < 2 ^ 64 }
        ensures { result ≡ width (get_or (nodes_in self.now) place nothing) }
    {
        match self.lists.first() {
            Some(List::Packed(list)) => kept_at(list.nodes().as_slice(), self.from + place).width(),
            Some(List::Plain(nodes)) => StoredNode::width(kept_at(
                nodes.as_slice(),
                self.from + place,
            )),
            None => 1,
        }
    }

    /// The place of the item at that position, which may be as many as they are.
    #[inline(always)]
    pub(crate) fn item_place(&self, position: usize) -> usize
        requires are { AreItemNodes (nodes_in self.now) }
        requires some { position ≤ items_len (items_in (nodes_in self.now)) }
        ensures { ItemsFrom (nodes_in self.now) position result }
    {
        match self.lists.first() {
            Some(List::Packed(list)) => {
                let nodes = between(list.nodes().as_slice(), self.from, self.end);
                let (passed, place) = list.place_before(self.from, self.end, position);
                item_place(nodes, passed, place, position)
            }
            Some(List::Plain(nodes)) => {
                item_place(
                    between(nodes.as_slice(), self.from, self.end),
                    0,
                    0,
                    position,
                )
            }
            None => position,
        }
    }

    /// The tags that are kept of an object's keys, whose members have these nodes; None where there are
    /// none.
    pub(crate) fn key_tags(&self) -> Option<&'t KeyTags>
        ensures { IfSome result (λ k. IsTagged (nodes_in self.now) k.now) }
    {
        match self.lists.first()? {
            List::Packed(list) => list.key_tags(self.from, self.end),
            List::Plain(_) => None,
        }
    }

    /// The nodes before that place, which may be at most `len`, and those from it on.
    #[inline(always)]
    pub fn split_at(&self, place: usize) -> (Nodes<'t, 'i>, Nodes<'t, 'i>)
        requires { place ≤ length (nodes_in self.now) }
        ensures front { nodes_in result.0 ≡ take place (nodes_in self.now) }
        ensures back { nodes_in result.1 ≡ drop place (nodes_in self.now) }
    {
        (self.between(0, place), self.from(place))
    }

    /// The nodes from one place on and before another, which may be at most `len`.
    #[inline(always)]
    pub(crate) fn between(&self, place: usize, end: usize) -> Nodes<'t, 'i>
        requires order { place ≤ end }
        requires within { end ≤ length (nodes_in self.now) }
        ensures { nodes_in result ≡ drop place (take end (nodes_in self.now)) }
    {
        Nodes {
            lists: self.lists,
            from: self.from + place,
            end: self.from + end,
        }
    }

    /// Leaves out the nodes before that place, which may be at most `len`.
    #[inline(always)]
    pub(crate) fn skip(&mut self, place: usize)
        requires { place ≤ length (nodes_in self.old) }
        ensures { nodes_in self.new ≡ drop place (nodes_in self.old) }
    {
        self.from += place;
    }

    /// The nodes from that place on, which may be at most `len`.
    #[inline(always)]
    pub fn from(&self, place: usize) -> Nodes<'t, 'i>
        requires { place ≤ length (nodes_in self.now) }
        ensures { nodes_in result ≡ drop place (nodes_in self.now) }
    {
        Nodes {
            lists: self.lists,
            from: self.from + place,
            end: self.end,
        }
    }
}

/// The list of the nodes.
impl<'t, 'i> fmt::Debug for Nodes<'t, 'i> {
    fn fmt<W: fmt::Write>(&self, f: &mut fmt::Formatter<W>) -> fmt::Result {
        let mut list = f.debug_list();
        for place in 0..self.len() {
            list.entry(&self.at(place));
        }
        list.finish()
    }
}
