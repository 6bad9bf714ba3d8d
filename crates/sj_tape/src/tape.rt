//! Tapes.

use crate::node::Node;
use crate::node_list::{List, PackedList};
use crate::nodes::Nodes;
use crate::packed::Packed;
use crate::preorder::is_preorder;
use crate::reader::Spare;
use crate::value::Value;
use sj_text_core::{BadTape, Refused, Repeats};
use std::alloc::Global;
use std::marker::Model;

/// The nodes of one tree in preorder.
#[derive(Debug, Drop)]
pub struct Tape<'i> {
    nodes: List<'i>,
}

impl<'i> Model for Tape<'i> {
    ghost use Rattle.sj_text_core.specs.Tree.{Tree};
    ghost use Rattle.sj_text_core.specs.Code.{tree_code};
    ghost use Rattle.sj_text_core.specs.Nodes.{tree_of, IsPreorder};
    ghost use Rattle.sj_tape.specs.Whole.{list_nodes};

    ghost Value = { Tree };

    ghost coded = { tree_code };

    ghost view = { λ t. tree_of (list_nodes t.nodes) };

    ghost invariant = { λ t. IsPreorder (list_nodes t.nodes) };
}

impl<'i> Tape<'i> {
    ghost use Rattle.std.specs.Prelude.{◌≡◌, ◌↔◌, IsOk, IfOk, IfErr};
    ghost use Rattle.sj_text_core.specs.Nodes.{flat, tree_of, IsPreorder};
    ghost use Rattle.sj_tape.specs.Marks.{marks, packed_marks};
    ghost use Rattle.sj_tape.specs.Value.{tape_tree, tape_choice};

    /// The tape of the nodes, where they are the preorder of one tree, of any depth.
    ///
    /// Else they are refused, and come back as given. It takes no memory, and time in proportion
    /// to the number of nodes.
    pub fn new(nodes: Vec<Node<'i>>) -> Result<Tape<'i>, Refused<BadTape, Vec<Node<'i>>>>
        ensures accepts { IsOk result ↔ IsPreorder (marks nodes.entry.items) }
        ensures tree { IfOk result (λ t. flat t ≡ marks nodes.entry.items) }
        ensures back { IfErr result (λ r. r.value ≡ nodes.entry) }
    {
        if is_preorder(&nodes) {
            Ok(Tape {
                nodes: List::Plain(nodes),
            })
        } else {
            Err(Refused {
                why: BadTape,
                value: nodes,
            })
        }
    }

    /// The tape of packed nodes that are a preorder. It takes no memory.
    pub(crate) fn from_packed(nodes: Vec<Packed<'i>>) -> Tape<'i>
        requires { IsPreorder (packed_marks nodes.items) }
        ensures { result ≡ tree_of (packed_marks nodes.entry.items) }
    {
        Tape {
            nodes: List::Packed(PackedList::new(nodes)),
        }
    }

    /// The tape of packed nodes that are a preorder, with places of items of its large arrays and tags of
    /// the keys of its large objects, where memory for these is given.
    pub(crate) fn with_landmarks(nodes: Vec<Packed<'i>>) -> Tape<'i>
        requires { IsPreorder (packed_marks nodes.items) }
        ensures { result ≡ tree_of (packed_marks nodes.entry.items) }
    {
        Tape {
            nodes: List::Packed(PackedList::with_landmarks(nodes)),
        }
    }

    /// Its memory, for the next one. That of nodes of a caller's own is let go.
    pub fn into_spare(self, alloc: Global) -> Spare<'i> {
        match self.nodes {
            List::Packed(list) => Spare {
                nodes: list.into_nodes(),
            },
            List::Plain(_) => Spare::new(alloc),
        }
    }

    /// The whole tape.
    pub fn as_value(&self) -> Value<'_, 'i>
        ensures tree { tape_tree result ≡ self.now }
        ensures choice { tape_choice result ≡ Repeats.First }
    {
        self.as_value_repeats(Repeats::First)
    }

    /// The whole tape, where that member of several with one key counts.
    pub fn as_value_repeats(&self, repeats: Repeats) -> Value<'_, 'i>
        ensures tree { tape_tree result ≡ self.now }
        ensures choice { tape_choice result ≡ repeats }
    {
        Value::from_nodes(Nodes::all(&self.nodes), repeats)
    }
}
