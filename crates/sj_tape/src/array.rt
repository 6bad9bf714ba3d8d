//! Arrays of a tape.

ghost use Rattle.std.specs.Prelude.{◌≡◌};
ghost use Rattle.std.specs.Coded.{Coded-set, coded_list};
ghost use Rattle.sj_text_core.specs.Code.{mark_code};
ghost use Rattle.sj_text_core.specs.Tree.{items_len};
ghost use Rattle.sj_tape.specs.Stretches.{nodes_in};
ghost use Rattle.sj_tape.specs.Parts.{items_in};
ghost use Rattle.sj_tape.specs.inner.Parts.{AreItemNodes};

use crate::nodes::Nodes;
use crate::value::Value;
use sj_text_core::Repeats;

/// The items of an array of a tape.
#[derive(Clone, Copy, Debug)]
pub struct Array<'t, 'i> {
    len: usize,
    nodes: Nodes<'t, 'i>,
    repeats: Repeats,
    ghost whole: { AreItemNodes (nodes_in nodes) } by { Coded-set (coded_list mark_code) _ _ },
    ghost counted: { len ≡ items_len (items_in (nodes_in nodes)) },
}

impl<'t, 'i> Array<'t, 'i> {
    ghost use Rattle.std.specs.Prelude.{◌≡◌, ◌↔◌, IsTrue, option_map};
    ghost use Rattle.sj_text_core.specs.Find.{nth_item};
    ghost use Rattle.sj_text_core.specs.Tree.{no_items, listed};
    ghost use Rattle.std.specs.Prelude.{◌<◌, map, IfSome};
    ghost use Rattle.sj_tape.specs.Value.{tape_tree, tape_choice};
    ghost use Rattle.sj_tape.specs.Items.{items, items_ahead, items_parts_ahead, array_choice};
    ghost use Rattle.sj_tape.specs.inner.Parts.{ItemsFrom};

    /// The array with so many items, whose nodes are these.
    #[inline(always)]
    pub(crate) fn from_nodes(len: usize, nodes: Nodes<'t, 'i>, repeats: Repeats) -> Self
        requires whole { AreItemNodes (nodes_in nodes) }
        requires counted { len ≡ items_len (items_in (nodes_in nodes)) }
        ensures items { items result ≡ items_in (nodes_in nodes.entry) }
        ensures choice { array_choice result ≡ repeats }
    {
        Array {
            len,
            nodes,
            repeats,
        }
    }

    /// How many items it has.
    pub fn len(&self) -> usize
        ensures { result ≡ items_len (items self.now) }
    {
        self.len
    }

    /// Whether it has no items.
    pub fn is_empty(&self) -> bool
        ensures { IsTrue result ↔ (items self.now ≡ no_items) }
    {
        self.len == 0
    }

    /// The items in order.
    #[inline(always)]
    pub fn iter(&self) -> Iter<'t, 'i>
        ensures items { items_ahead result ≡ listed (items self.now) }
        ensures parts { items_parts_ahead result ≡ map (λ t. (array_choice self.now, t)) (listed (items self.now)) }
    {
        Iter {
            nodes: self.nodes,
            repeats: self.repeats,
        }
    }

    /// The item at that position, counted from 0; None past the last.
    pub fn get(&self, index: usize) -> Option<Value<'t, 'i>>
        ensures value { option_map tape_tree result ≡ nth_item index (items self.now) }
        ensures choice { IfSome result (λ v. tape_choice v ≡ array_choice self.now) }
    {
        if index >= self.len {
            return None;
        }
        let mut behind = self.nodes.from(self.node_index(index));
        Some(Value::take(&mut behind, 0, self.repeats))
    }

    /// The index among the nodes of the item at that position.
    #[inline(always)]
    fn node_index(&self, index: usize) -> usize
        requires { index < items_len (items self.now) }
        ensures { ItemsFrom (nodes_in self.now.nodes) index result }
    {
        // With as many nodes as items, each item is one node: none has to be passed.
        if self.nodes.len() == self.len {
            return index;
        }
        self.nodes.item_place(index)
    }
}

/// The items of an array in order, as parts of the tape.
#[derive(Debug, Drop)]
pub struct Iter<'t, 'i> {
    nodes: Nodes<'t, 'i>,
    repeats: Repeats,
    ghost whole: { AreItemNodes (nodes_in nodes) } by { Coded-set (coded_list mark_code) _ _ },
}

impl<'t, 'i> Iterator for Iter<'t, 'i> {
    type Item = Value<'t, 'i>;

    ghost use Rattle.std.specs.Iterator.{YieldsFirstBy, item_count};
    ghost use Rattle.sj_tape.specs.Items.{items_parts_ahead};
    ghost use Rattle.sj_tape.specs.Value.{tape_part};

    ghost next_gives = { YieldsFirstBy tape_part items_parts_ahead };

    ghost remaining = { item_count items_parts_ahead };

    #[inline(always)]
    fn next(&mut self) -> Option<Value<'t, 'i>> {
        if self.nodes.is_empty() {
            return None;
        }
        Some(Value::take(&mut self.nodes, 0, self.repeats))
    }
}
