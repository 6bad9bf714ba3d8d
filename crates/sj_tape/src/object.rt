//! Objects of a tape.

ghost use Rattle.std.specs.Prelude.{◌≡◌};
ghost use Rattle.std.specs.Coded.{Coded-set, coded_list};
ghost use Rattle.sj_text_core.specs.Code.{mark_code};
ghost use Rattle.sj_text_core.specs.Nodes.{members_in};
ghost use Rattle.sj_text_core.specs.inner.Nodes.{AreMembers};
ghost use Rattle.sj_text_core.specs.Tree.{members_len};
ghost use Rattle.sj_tape.specs.Stretches.{nodes_in};

use crate::key_tags::KeyTags;
use crate::landmarks::MANY_MEMBERS;
use crate::nodes::Nodes;
use crate::packed::Packed;
use crate::stored_node::{StoredNode, kept_at};
use crate::value::Value;
use sj_text_core::{Repeats, are_same_texts};

/// The members of an object of a tape, in order and repeats too.
#[derive(Clone, Copy, Debug)]
pub struct Object<'t, 'i> {
    len: usize,
    nodes: Nodes<'t, 'i>,
    repeats: Repeats,
    ghost whole: { AreMembers (nodes_in nodes) } by { Coded-set (coded_list mark_code) _ _ },
    ghost counted: { len ≡ members_len (members_in (nodes_in nodes)) },
}

impl<'t, 'i> Object<'t, 'i> {
    ghost use Rattle.std.specs.Prelude.{◌≡◌, ◌↔◌, ℕ, List, IsTrue, IfSome, map, drop, option_map};
    ghost use Rattle.sj_text_core.specs.Agree.{is_seen_before, pair_keys};
    ghost use Rattle.sj_text_core.specs.Find.{find_member};
    ghost use Rattle.sj_text_core.specs.Keep.{is_seen};
    ghost use Rattle.sj_text_core.specs.Repeats.{find_member_by};
    ghost use Rattle.sj_text_core.specs.Tree.{Tree, no_members, paired};
    ghost use Rattle.sj_tape.specs.Members.{members, members_ahead, keys_ahead, values_ahead, object_choice, members_parts_ahead, value_parts_ahead, chosen_pairs};
    ghost use Rattle.sj_tape.specs.inner.Ahead.{tree_from};
    ghost use Rattle.sj_tape.specs.inner.Fronts.{BeginsTree};
    ghost use Rattle.sj_tape.specs.Marks.{packed_marks};
    ghost use Rattle.sj_tape.specs.inner.Tags.{IsTagged};
    ghost use Rattle.sj_tape.specs.Value.{tape_tree, tape_choice, tape_part};

    /// The object with so many members, whose nodes are these.
    #[inline(always)]
    pub(crate) fn from_nodes(len: usize, nodes: Nodes<'t, 'i>, repeats: Repeats) -> Self
        requires whole { AreMembers (nodes_in nodes) }
        requires counted { len ≡ members_len (members_in (nodes_in nodes)) }
        ensures members { members result ≡ members_in (nodes_in nodes.entry) }
        ensures choice { object_choice result ≡ repeats }
    {
        Object {
            len,
            nodes,
            repeats,
        }
    }

    /// How many members it has, repeats counted.
    pub fn len(&self) -> usize
        ensures { result ≡ members_len (members self.now) }
    {
        self.len
    }

    /// Whether it has no members.
    pub fn is_empty(&self) -> bool
        ensures { IsTrue result ↔ (members self.now ≡ no_members) }
    {
        self.len == 0
    }

    /// The members in order, repeats too.
    #[inline(always)]
    pub fn iter(&self) -> Iter<'t, 'i>
        ensures members { members_ahead result ≡ paired (members self.now) }
        ensures parts { members_parts_ahead result ≡ chosen_pairs (object_choice self.now) (paired (members self.now)) }
    {
        Iter {
            nodes: self.nodes,
            repeats: self.repeats,
        }
    }

    /// The nodes of its members, where they are packed.
    #[inline(always)]
    pub(crate) fn packed(&self) -> Option<&'t [Packed<'i>]>
        ensures nodes { IfSome result (λ p. packed_marks p.now ≡ nodes_in self.now.nodes) }
        ensures are { IfSome result (λ p. AreMembers (packed_marks p.now)) }
    {
        self.nodes.packed()
    }

    /// The value at that place among its nodes, which are these.
    #[inline(always)]
    pub(crate) fn value_at(&self, nodes: &[Packed<'i>], place: usize) -> Value<'t, 'i>
        requires nodes { packed_marks nodes.now ≡ nodes_in self.now.nodes }
        requires begins { BeginsTree (drop place (packed_marks nodes.now)) }
        ensures { tape_part result ≡ (object_choice self.now, tree_from (packed_marks nodes.now) place) }
    {
        let width = kept_at(nodes, place).width();
        Value::at(&self.nodes, place, width, self.repeats)
    }

    /// The tags that are kept of the keys.
    pub(crate) fn key_tags(&self) -> Option<&'t KeyTags>
        ensures { IfSome result (λ k. IsTagged (nodes_in self.now.nodes) k.now) }
    {
        if self.len < MANY_MEMBERS {
            return None;
        }
        self.nodes.key_tags()
    }

    /// The keys in order, repeats too.
    pub fn keys(&self) -> Keys<'t, 'i>
        ensures { keys_ahead result ≡ map (λ (p : List ℕ × Tree). p.0) (paired (members self.now)) }
    {
        Keys {
            members: self.iter(),
        }
    }

    /// The values in order.
    pub fn values(&self) -> Values<'t, 'i>
        ensures values { values_ahead result ≡ map (λ (p : List ℕ × Tree). p.1) (paired (members self.now)) }
        ensures parts { value_parts_ahead result ≡ map (λ p. p.1) (chosen_pairs (object_choice self.now) (paired (members self.now))) }
    {
        Values {
            members: self.iter(),
        }
    }

    /// Which member of several with one key counts.
    pub(crate) fn repeats(&self) -> Repeats
        ensures { result ≡ object_choice self.now }
    {
        self.repeats
    }

    /// The value of the member with that key that counts; None where there is none.
    pub fn get(&self, key: &str) -> Option<Value<'t, 'i>>
        ensures value { option_map tape_tree result ≡ find_member_by (object_choice self.now) key.now (members self.now) }
        ensures choice { IfSome result (λ v. tape_choice v ≡ object_choice self.now) }
    {
        self.find(key)
    }

    /// The value of the first member with that key, whichever counts; None where there is none.
    pub(crate) fn first(&self, key: &str) -> Option<Value<'t, 'i>>
        ensures { option_map tape_tree result ≡ find_member key.now (members self.now) }
    {
        for (name, value) in self.iter() {
            if are_same_texts(key, name) {
                return Some(value);
            }
        }
        None
    }

    /// Whether one of the first `place` members has that key.
    pub fn has_before(&self, place: usize, key: &str) -> bool
        ensures { result ≡ is_seen_before place key.now (paired (members self.now)) }
    {
        let mut at = 0;
        for name in self.keys() {
            if at >= place {
                return false;
            }
            if are_same_texts(key, name) {
                return true;
            }
            at += 1;
        }
        false
    }

    /// Whether a member behind the first `place` has that key.
    pub fn has_behind(&self, place: usize, key: &str) -> bool
        ensures { result ≡ is_seen key.now (drop place (pair_keys (paired (members self.now)))) }
    {
        let mut known = place;
        for name in self.keys() {
            if known > 0 {
                known -= 1;
            } else if are_same_texts(key, name) {
                return true;
            }
        }
        false
    }
}

/// The members of an object in order, as keys and parts of the tape.
#[derive(Debug, Drop)]
pub struct Iter<'t, 'i> {
    nodes: Nodes<'t, 'i>,
    repeats: Repeats,
    ghost whole: { AreMembers (nodes_in nodes) } by { Coded-set (coded_list mark_code) _ _ },
}

impl<'t, 'i> Iterator for Iter<'t, 'i> {
    type Item = (&'i str, Value<'t, 'i>);

    ghost use Rattle.std.specs.Iterator.{YieldsFirstBy, item_count};
    ghost use Rattle.sj_tape.specs.Members.{members_parts_ahead};
    ghost use Rattle.sj_tape.specs.Value.{tape_part};

    ghost next_gives = { YieldsFirstBy (λ p. (p.0.now, tape_part p.1)) members_parts_ahead };

    ghost remaining = { item_count members_parts_ahead };

    #[inline(always)]
    fn next(&mut self) -> Option<(&'i str, Value<'t, 'i>)> {
        if self.nodes.is_empty() {
            return None;
        }
        let Some(name) = self.nodes.text_at(0) else {
            unreachable!()
        };
        Some((name, Value::take(&mut self.nodes, 1, self.repeats)))
    }
}

/// The keys of an object in order.
#[derive(Debug, Drop)]
pub struct Keys<'t, 'i> {
    members: Iter<'t, 'i>,
}

impl<'t, 'i> Iterator for Keys<'t, 'i> {
    type Item = &'i str;

    ghost use Rattle.std.specs.Iterator.{YieldsFirstBy, item_count};
    ghost use Rattle.sj_tape.specs.Members.{keys_ahead};

    ghost next_gives = { YieldsFirstBy (λ k. k.now) keys_ahead };

    ghost remaining = { item_count keys_ahead };

    fn next(&mut self) -> Option<&'i str> {
        let (key, _) = self.members.next()?;
        Some(key)
    }
}

/// The values of an object in order, as parts of the tape.
#[derive(Debug, Drop)]
pub struct Values<'t, 'i> {
    members: Iter<'t, 'i>,
}

impl<'t, 'i> Iterator for Values<'t, 'i> {
    type Item = Value<'t, 'i>;

    ghost use Rattle.std.specs.Iterator.{YieldsFirstBy, item_count};
    ghost use Rattle.sj_tape.specs.Members.{value_parts_ahead};
    ghost use Rattle.sj_tape.specs.Value.{tape_part};

    ghost next_gives = { YieldsFirstBy tape_part value_parts_ahead };

    ghost remaining = { item_count value_parts_ahead };

    fn next(&mut self) -> Option<Value<'t, 'i>> {
        let (_, value) = self.members.next()?;
        Some(value)
    }
}
