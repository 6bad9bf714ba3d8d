//! Lookups by key.

ghost use Rattle.std.specs.Prelude.{◌≡◌, ◌+◌, ◌<◌, ◌≤◌, bytes_eq, drop, length, option_map, IfSome};
ghost use Rattle.sj_text_core.specs.Find.{find_member};
ghost use Rattle.sj_text_core.specs.Nodes.{members_in};
ghost use Rattle.sj_text_core.specs.inner.Nodes.{AreMembers};
ghost use Rattle.sj_text_core.specs.Repeats.{find_last_member, find_member_by, visited, visited_by};
ghost use Rattle.sj_text_core.specs.Tree.{members_len};
ghost use Rattle.sj_tape.specs.inner.Ahead.{part_from, tree_from};
ghost use Rattle.sj_tape.specs.inner.Fronts.{BeginsTree};
ghost use Rattle.sj_tape.specs.inner.Lookup.{first_value, last_value, keys_compared};
ghost use Rattle.sj_tape.specs.Marks.{packed_marks};
ghost use Rattle.sj_tape.specs.Members.{members, object_choice, members_parts_ahead};
ghost use Rattle.sj_tape.specs.Stretches.{nodes_in};
ghost use Rattle.sj_tape.specs.Value.{tape_tree, tape_choice, tape_part};

mod places;
mod tagged;

use crate::object::{Iter, Object};
use crate::packed::Packed;
use crate::search::places::{first_in_runs, has_runs, last_in_runs, place_of_first, place_of_last};
use crate::search::tagged::first_of_wide;
use crate::value::Value;
use sj_text_core::{Repeats, Steps, are_same_bytes};
use std::marker::Brand;
use std::sync::ledger::{Blank, Ledger};

/// Compares a key, which is one step. Look-ups that count compare keys here alone.
fn is_key<L: Ledger>(name: &str, key: &[u8], steps: &mut Steps<L>) -> bool
    ensures answer { result ≡ bytes_eq key.now name.now }
    ensures step { steps.new ≡ steps.old + 1 }
{
    steps.tick();
    are_same_bytes(key, name.as_bytes())
}

/// The value of the first member ahead with the key, one by one: few tapes keep nodes that a caller gave.
fn first_plain<'t, 'i, L: Ledger>(
    ahead: Iter<'t, 'i>,
    key: &[u8],
    steps: &mut Steps<L>,
) -> Option<Value<'t, 'i>>
    ensures value { option_map tape_part result ≡ first_value key.now (members_parts_ahead ahead.entry) }
    ensures exact { steps.new ≡ steps.old + keys_compared key.now (members_parts_ahead ahead.entry) }
{
    for (name, value) in ahead {
        if is_key(name, key, steps) {
            return Some(value);
        }
    }
    None
}

/// The value of the last member ahead with the key, one by one as well.
fn last_plain<'t, 'i, L: Ledger>(
    ahead: Iter<'t, 'i>,
    key: &[u8],
    steps: &mut Steps<L>,
) -> Option<Value<'t, 'i>>
    ensures value { option_map tape_part result ≡ last_value key.now (members_parts_ahead ahead.entry) }
    ensures exact { steps.new ≡ steps.old + length (members_parts_ahead ahead.entry) }
{
    let mut found = None;
    for (name, value) in ahead {
        if is_key(name, key, steps) {
            found = Some(value);
        }
    }
    found
}

/// The value at the place that was found, if one was.
#[inline(always)]
fn value_there<'t, 'i>(
    object: &Object<'t, 'i>,
    nodes: &[Packed<'i>],
    place: Option<usize>,
) -> Option<Value<'t, 'i>>
    requires nodes { packed_marks nodes.now ≡ nodes_in object.now.nodes }
    requires begins { IfSome place (λ p. BeginsTree (drop p (packed_marks nodes.now))) }
    ensures { option_map tape_part result ≡ option_map (part_from (object_choice object.now) (packed_marks nodes.now)) place }
{
    match place {
        Some(place) => Some(object.value_at(nodes, place)),
        None => None,
    }
}

/// The place of the value of the first member with the key, among the nodes of an object.
#[inline(always)]
fn place_counted<L: Ledger>(
    nodes: &[Packed<'_>],
    len: usize,
    key: &[u8],
    steps: &mut Steps<L>,
) -> Option<usize>
    requires { AreMembers (packed_marks nodes.now) }
    ensures begins { IfSome result (λ p. BeginsTree (drop p (packed_marks nodes.now))) }
    ensures value { option_map (tree_from (packed_marks nodes.now)) result ≡ find_member key.now (members_in (packed_marks nodes.now)) }
    ensures exact { steps.new ≡ steps.old + visited key.now (members_in (packed_marks nodes.now)) }
{
    if has_runs(len, nodes) {
        return first_in_runs(nodes, 0, key, steps);
    }
    place_of_first(nodes, 0, key, steps)
}

/// The same of the last member with the key.
#[inline(always)]
fn last_place_counted<L: Ledger>(
    nodes: &[Packed<'_>],
    len: usize,
    key: &[u8],
    steps: &mut Steps<L>,
) -> Option<usize>
    requires { AreMembers (packed_marks nodes.now) }
    ensures begins { IfSome result (λ p. BeginsTree (drop p (packed_marks nodes.now))) }
    ensures value { option_map (tree_from (packed_marks nodes.now)) result ≡ find_last_member key.now (members_in (packed_marks nodes.now)) }
    ensures exact { steps.new ≡ steps.old + members_len (members_in (packed_marks nodes.now)) }
{
    if has_runs(len, nodes) {
        return last_in_runs(nodes, key, steps);
    }
    place_of_last(nodes, 0, None, key, steps)
}

/// The same by a call, so that a look-up of a first member has no loops but its own.
#[inline(never)]
fn last_place_apart<L: Ledger>(
    nodes: &[Packed<'_>],
    len: usize,
    key: &[u8],
    steps: &mut Steps<L>,
) -> Option<usize>
    requires { AreMembers (packed_marks nodes.now) }
    ensures begins { IfSome result (λ p. BeginsTree (drop p (packed_marks nodes.now))) }
    ensures value { option_map (tree_from (packed_marks nodes.now)) result ≡ find_last_member key.now (members_in (packed_marks nodes.now)) }
    ensures exact { steps.new ≡ steps.old + members_len (members_in (packed_marks nodes.now)) }
{
    last_place_counted(nodes, len, key, steps)
}

/// The place of the value of the member with the key that counts, with a step for each member that is
/// compared.
#[inline(always)]
fn place_exact<L: Ledger>(
    object: &Object<'_, '_>,
    nodes: &[Packed<'_>],
    key: &[u8],
    steps: &mut Steps<L>,
) -> Option<usize>
    requires { AreMembers (packed_marks nodes.now) }
    ensures begins { IfSome result (λ p. BeginsTree (drop p (packed_marks nodes.now))) }
    ensures value { option_map (tree_from (packed_marks nodes.now)) result ≡ find_member_by (object_choice object.now) key.now (members_in (packed_marks nodes.now)) }
    ensures exact { steps.new ≡ steps.old + visited_by (object_choice object.now) key.now (members_in (packed_marks nodes.now)) }
{
    match object.repeats() {
        Repeats::First => place_counted(nodes, object.len(), key, steps),
        Repeats::Last => last_place_counted(nodes, object.len(), key, steps),
    }
}

/// The place of the value of the first member with the key, by tags where they are kept, with no more
/// steps than `place_counted` takes.
#[inline(always)]
fn place_by_tags<L: Ledger>(
    object: &Object<'_, '_>,
    nodes: &[Packed<'_>],
    key: &[u8],
    steps: &mut Steps<L>,
) -> Option<usize>
    requires nodes { packed_marks nodes.now ≡ nodes_in object.now.nodes }
    requires are { AreMembers (packed_marks nodes.now) }
    ensures begins { IfSome result (λ p. BeginsTree (drop p (packed_marks nodes.now))) }
    ensures value { option_map (tree_from (packed_marks nodes.now)) result ≡ find_member key.now (members_in (packed_marks nodes.now)) }
    ensures most { steps.new ≤ steps.old + visited key.now (members_in (packed_marks nodes.now)) }
{
    if has_runs(object.len(), nodes) {
        return first_of_wide(object, nodes, key, steps);
    }
    place_of_first(nodes, 0, key, steps)
}

/// The place of the value of the member with the key that counts. No more members are compared than
/// `place_exact` does.
#[inline(always)]
fn place_at_most<L: Ledger>(
    object: &Object<'_, '_>,
    nodes: &[Packed<'_>],
    key: &[u8],
    steps: &mut Steps<L>,
) -> Option<usize>
    requires nodes { packed_marks nodes.now ≡ nodes_in object.now.nodes }
    requires are { AreMembers (packed_marks nodes.now) }
    ensures begins { IfSome result (λ p. BeginsTree (drop p (packed_marks nodes.now))) }
    ensures value { option_map (tree_from (packed_marks nodes.now)) result ≡ find_member_by (object_choice object.now) key.now (members_in (packed_marks nodes.now)) }
    ensures most { steps.new ≤ steps.old + visited_by (object_choice object.now) key.now (members_in (packed_marks nodes.now)) }
{
    match object.repeats() {
        Repeats::First => place_by_tags(object, nodes, key, steps),
        Repeats::Last => last_place_apart(nodes, object.len(), key, steps),
    }
}

/// The value of the member with the key that counts, where a caller gave the nodes.
#[inline(never)]
fn find_plain<'t, 'i, L: Ledger>(
    object: &Object<'t, 'i>,
    key: &[u8],
    steps: &mut Steps<L>,
) -> Option<Value<'t, 'i>>
    ensures value { option_map tape_part result ≡ option_map (λ t. (object_choice object.now, t)) (find_member_by (object_choice object.now) key.now (members object.now)) }
    ensures exact { steps.new ≡ steps.old + visited_by (object_choice object.now) key.now (members object.now) }
{
    match object.repeats() {
        Repeats::First => first_plain(object.iter(), key, steps),
        Repeats::Last => last_plain(object.iter(), key, steps),
    }
}

/// The value of the member with the key that counts, with a step for each member that is compared.
pub(crate) fn find_counted<'t, 'i, L: Ledger>(
    object: &Object<'t, 'i>,
    key: &[u8],
    steps: &mut Steps<L>,
) -> Option<Value<'t, 'i>>
    ensures value { option_map tape_tree result ≡ find_member_by (object_choice object.now) key.now (members object.now) }
    ensures choice { IfSome result (λ v. tape_choice v ≡ object_choice object.now) }
    ensures exact { steps.new ≡ steps.old + visited_by (object_choice object.now) key.now (members object.now) }
{
    match object.packed() {
        Some(nodes) => value_there(object, nodes, place_exact(object, nodes, key, steps)),
        None => find_plain(object, key, steps),
    }
}

impl<'t, 'i> Object<'t, 'i> {
    ghost use Rattle.sj_tape.specs.Members.{members};

    /// The same, where nobody reads the steps; by the tags of its keys, where they are kept.
    fn find_blank<L: Ledger>(&self, key: &[u8], blank: Blank) -> Option<Value<'t, 'i>>
        requires name { blank.name ≡ L.name }
        requires parts { blank.parts ≡ L.parts }
        requires some { 0 < L.parts }
        ensures value { option_map tape_tree result ≡ find_member_by (object_choice self.now) key.now (members self.now) }
        ensures choice { IfSome result (λ v. tape_choice v ≡ object_choice self.now) }
    {
        let mut steps = Steps::<L>::new(blank);
        match self.packed() {
            Some(nodes) => value_there(self, nodes, place_at_most(self, nodes, key, &mut steps)),
            None => find_plain(self, key, &mut steps),
        }
    }

    /// The value of the member with the key that counts.
    pub(crate) fn find(&self, key: &str) -> Option<Value<'t, 'i>>
        ensures value { option_map tape_tree result ≡ find_member_by (object_choice self.now) key.now (members self.now) }
        ensures choice { IfSome result (λ v. tape_choice v ≡ object_choice self.now) }
    {
        self.find_blank::<Brand>(key.as_bytes(), Blank::new(1))
    }
}
