//! Parts of a tape.

ghost use Rattle.std.specs.Prelude.{◌≡◌};
ghost use Rattle.std.specs.Coded.{Coded-set, coded_list};
ghost use Rattle.sj_text_core.specs.Code.{mark_code};
ghost use Rattle.sj_text_core.specs.Nodes.{IsPreorder};
ghost use Rattle.sj_tape.specs.Stretches.{nodes_in};

mod access;
mod cmp;
mod packed_count;
mod packed_key;
mod packed_tree;
mod scalar;
mod serialize;
mod typed;

use crate::nodes::Nodes;
use sj_text_core::Repeats;

/// A part of a tape, or a null of its own.
#[derive(Clone, Copy, Debug)]
pub struct Value<'t, 'i> {
    nodes: Nodes<'t, 'i>,
    repeats: Repeats,
    ghost whole: { IsPreorder (nodes_in nodes) } by { Coded-set (coded_list mark_code) _ _ },
}

impl<'t, 'i> Value<'t, 'i> {
    ghost use Rattle.std.specs.Prelude.{◌≡◌, ◌++◌, drop, get_or};
    ghost use Rattle.sj_text_core.specs.Nodes.{tree_of, nothing, width as node_width};
    ghost use Rattle.sj_text_core.specs.Tree.{null};
    ghost use Rattle.sj_tape.specs.inner.Ahead.{tree_from};
    ghost use Rattle.sj_tape.specs.inner.Fronts.{BeginsTree};
    ghost use Rattle.sj_tape.specs.Value.{tape_tree, tape_choice, tape_part};

    /// A null of its own.
    pub fn null() -> Self
        ensures tree { tape_tree result ≡ null }
        ensures choice { tape_choice result ≡ Repeats.First }
    {
        Value {
            nodes: Nodes::null(),
            repeats: Repeats::First,
        }
    }

    /// The part with those nodes and that choice.
    #[inline(always)]
    pub(crate) fn from_nodes(nodes: Nodes<'t, 'i>, repeats: Repeats) -> Self
        requires { IsPreorder (nodes_in nodes) }
        ensures { tape_part result ≡ (repeats, tree_of (nodes_in nodes.entry)) }
    {
        Value { nodes, repeats }
    }

    /// Takes the tree at that place, and what stands before it, off the front of the nodes: one
    /// step by its `count`.
    #[inline(always)]
    pub(crate) fn take(nodes: &mut Nodes<'t, 'i>, place: usize, repeats: Repeats) -> Self
        requires { BeginsTree (drop place (nodes_in nodes.old)) }
        ensures choice { tape_choice result ≡ repeats }
        ensures all { drop place (nodes_in nodes.old) ≡ nodes_in result.nodes ++ nodes_in nodes.new }
    {
        let end = place + nodes.width_at(place);
        let tree = nodes.between(place, end);
        nodes.skip(end);
        Value {
            nodes: tree,
            repeats,
        }
    }

    /// The tree at that place, which has `width` nodes.
    #[inline(always)]
    pub(crate) fn at(nodes: &Nodes<'t, 'i>, place: usize, width: usize, repeats: Repeats) -> Self
        requires begins { BeginsTree (drop place (nodes_in nodes.now)) }
        requires wide { width ≡ node_width (get_or (nodes_in nodes.now) place nothing) }
        ensures { tape_part result ≡ (repeats, tree_from (nodes_in nodes.now) place) }
    {
        Value::from_nodes(nodes.between(place, place + width), repeats)
    }

    /// Which member of several with one key counts.
    pub fn repeats(&self) -> Repeats
        ensures { result ≡ tape_choice self.now }
    {
        self.repeats
    }

    /// The nodes, a preorder.
    pub fn nodes(&self) -> Nodes<'t, 'i>
        ensures whole { IsPreorder (nodes_in result) }
        ensures tree { tree_of (nodes_in result) ≡ tape_tree self.now }
    {
        self.nodes
    }
}
