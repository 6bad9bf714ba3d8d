//! Packed nodes as a tree that is printed: each step is over the slice alone.

ghost use Rattle.std.specs.Prelude.{◌≡◌, ◌++◌, IfSome};
ghost use Rattle.std.specs.Coded.{Coded-set, coded_list};
ghost use Rattle.sj_text_core.specs.Code.{mark_code};
ghost use Rattle.sj_text_core.specs.Nodes.{IsPreorder};
ghost use Rattle.sj_text_core.specs.inner.Nodes.{AreMembers};
ghost use Rattle.sj_tape.specs.inner.Fronts.{BeginsTree};
ghost use Rattle.sj_tape.specs.Marks.{packed_marks};
ghost use Rattle.sj_tape.specs.inner.Parts.{AreItemNodes};

use super::Value;
use super::packed_key::{PackedKey, split_key};
use crate::node::Node;
use crate::packed::Packed;
use crate::stored_node::StoredNode;
use sj_print::{Level, Parts, PlainText};

/// The packed nodes of one tree.
#[derive(Clone, Copy)]
pub(super) struct PackedTree<'t, 'i> {
    nodes: &'t [Packed<'i>],
    ghost whole: { IsPreorder (packed_marks nodes.now) } by { Coded-set (coded_list mark_code) _ _ },
}

/// The packed nodes of an array's items that are left.
#[derive(Clone, Copy)]
pub(super) struct PackedItems<'t, 'i> {
    nodes: &'t [Packed<'i>],
    ghost whole: { AreItemNodes (packed_marks nodes.now) } by { Coded-set (coded_list mark_code) _ _ },
}

/// The packed nodes of an object's members that are left.
#[derive(Clone, Copy)]
pub(super) struct PackedMembers<'t, 'i> {
    nodes: &'t [Packed<'i>],
    ghost whole: { AreMembers (packed_marks nodes.now) } by { Coded-set (coded_list mark_code) _ _ },
}

/// The nodes of the first tree, and those behind it: one step by its `count`.
#[inline(always)]
fn split_packed<'t, 'i>(nodes: &'t [Packed<'i>]) -> (&'t [Packed<'i>], &'t [Packed<'i>])
    requires { BeginsTree (packed_marks nodes.now) }
    ensures whole { IsPreorder (packed_marks result.0.now) }
    ensures all { packed_marks nodes.now ≡ packed_marks result.0.now ++ packed_marks result.1.now }
{
    nodes.split_at(nodes[0].width())
}

impl<'t, 'i> Value<'t, 'i> {
    ghost use Rattle.sj_tape.specs.inner.PackedTree.{packed_tree};
    ghost use Rattle.sj_tape.specs.Value.{tape_tree};

    /// Its nodes, where they are packed.
    pub(super) fn packed(&self) -> Option<PackedTree<'t, 'i>>
        ensures { IfSome result (λ p. packed_tree p ≡ tape_tree self.now) }
    {
        let nodes = self.nodes.packed()?;
        Some(PackedTree { nodes })
    }
}

impl<'t, 'i> PackedTree<'t, 'i> {
    ghost use Rattle.std.specs.Prelude.{◌≡◌};
    ghost use Rattle.sj_text_core.specs.Nodes.{flat};
    ghost use Rattle.sj_tape.specs.inner.PackedTree.{packed_tree};

    /// The nodes.
    pub(super) fn nodes(&self) -> &'t [Packed<'i>]
        ensures { packed_marks result.now ≡ flat (packed_tree self.now) }
    {
        self.nodes
    }
}

impl<'t, 'i> Parts for PackedTree<'t, 'i> {
    type Items = PackedItems<'t, 'i>;

    type Members = PackedMembers<'t, 'i>;

    type Key = PackedKey<'i>;

    ghost use Rattle.sj_tape.specs.inner.PackedKey.{packed_key};
    ghost use Rattle.sj_tape.specs.inner.PackedTree.{packed_tree, packed_items, packed_members};

    ghost tree_of = { packed_tree };

    ghost items_left = { packed_items };

    ghost members_left = { packed_members };

    ghost key_of = { packed_key };

    #[inline(always)]
    fn level(&self) -> Level<'_, PackedItems<'t, 'i>, PackedMembers<'t, 'i>> {
        let Some((first, behind)) = self.nodes.split_first() else {
            unreachable!()
        };
        if let Some(plain) = first.plain() {
            return Level::Plain(plain);
        }
        match first.node() {
            Node::Static(scalar) => Level::Static(scalar),
            Node::String(text) => Level::String(text),
            Node::Array { .. } => Level::Array(PackedItems { nodes: behind }),
            Node::Object { .. } => Level::Object(PackedMembers { nodes: behind }),
        }
    }

    #[inline(always)]
    fn next_item(items: &mut PackedItems<'t, 'i>) -> Option<PackedTree<'t, 'i>> {
        if items.nodes.is_empty() {
            return None;
        }
        let (nodes, rest) = split_packed(items.nodes);
        *items = PackedItems { nodes: rest };
        Some(PackedTree { nodes })
    }

    #[inline(always)]
    fn next_member(
        members: &mut PackedMembers<'t, 'i>,
    ) -> Option<(PackedKey<'i>, PackedTree<'t, 'i>)> {
        let (key, values) = split_key(members.nodes)?;
        let (nodes, rest) = split_packed(values);
        *members = PackedMembers { nodes: rest };
        Some((key, PackedTree { nodes }))
    }

    #[inline(always)]
    fn key_text<'k>(key: &'k PackedKey<'i>) -> &'k str {
        match *key {
            PackedKey::Text(text) => text,
            PackedKey::Plain(plain) => plain.text,
        }
    }

    #[inline(always)]
    fn plain_key<'k>(key: &'k PackedKey<'i>) -> Option<PlainText<'k>> {
        match *key {
            PackedKey::Text(_) => None,
            PackedKey::Plain(plain) => Some(plain),
        }
    }
}
