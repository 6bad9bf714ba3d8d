//! Look-ups by key in objects of many wide members, by the tags of their keys where these are kept. None
//! compares a key more than it would without tags.

ghost use Rattle.std.specs.Prelude.{◌≡◌, ◌+◌, ◌<◌, ◌≤◌, ◌*◌, Some, drop, length, min, option_map, IfNone, IfSome, IfOk, IfErr};
ghost use Rattle.sj_text_core.specs.Find.{find_member};
ghost use Rattle.sj_text_core.specs.Nodes.{members_in};
ghost use Rattle.sj_text_core.specs.inner.Nodes.{AreMembers};
ghost use Rattle.sj_text_core.specs.Repeats.{visited};
ghost use Rattle.sj_text_core.specs.Tree.{members_len};
ghost use Rattle.sj_tape.specs.inner.Ahead.{members_at, tree_from};
ghost use Rattle.sj_tape.specs.inner.Fronts.{BeginsTree};
ghost use Rattle.sj_tape.specs.Marks.{packed_marks};
ghost use Rattle.sj_tape.specs.Stretches.{nodes_in};
ghost use Rattle.sj_tape.specs.inner.Tags.{IsTagged, member_node, tag as tag_is};

use crate::key_tags::KeyTags;
use crate::landmarks::STEP;
use crate::object::Object;
use crate::packed::Packed;
use crate::search::is_key;
use crate::search::places::{first_in_runs, name_at, value_width};
use crate::tag::{is_among, tag_of};
use sj_text_core::Steps;
use std::sync::ledger::Ledger;

/// So many members are compared before tags are looked for.
const FIRST_COMPARED: usize = 4;

/// The place of the value of the first member with the key, among those from one position, at that place,
/// on and before another; else where the member at that other position begins.
#[inline(always)]
fn first_among<L: Ledger>(
    nodes: &[Packed<'_>],
    from: usize,
    place: usize,
    next: usize,
    key: &[u8],
    steps: &mut Steps<L>,
) -> Result<usize, usize>
    requires are { AreMembers (packed_marks nodes.now) }
    requires at { place ≡ member_node (packed_marks nodes.now) from }
    requires order { from ≤ next }
    requires within { next ≤ members_len (members_in (packed_marks nodes.now)) }
    ensures begins { IfOk result (λ p. BeginsTree (drop p (packed_marks nodes.now))) }
    ensures found { IfOk result (λ p. Some (tree_from (packed_marks nodes.now) p) ≡ find_member key.now (members_at (packed_marks nodes.now) place)) }
    ensures found_exact { IfOk result (λ _. steps.new ≡ steps.old + visited key.now (members_at (packed_marks nodes.now) place)) }
    ensures at { IfErr result (λ p. p ≡ member_node (packed_marks nodes.now) next) }
    ensures passed { IfErr result (λ p. find_member key.now (members_at (packed_marks nodes.now) p) ≡ find_member key.now (members_at (packed_marks nodes.now) place)) }
    ensures passed_exact { IfErr result (λ p. steps.new + visited key.now (members_at (packed_marks nodes.now) p) ≡ steps.old + visited key.now (members_at (packed_marks nodes.now) place)) }
{
    let mut at = place;
    for _ in from..next {
        if is_key(name_at(nodes, at), key, steps) {
            return Ok(at + 1);
        }
        at += 1 + value_width(nodes, at);
    }
    Err(at)
}

/// The same of a block, where none of them is looked at if no tag is the key's.
fn first_in_block<L: Ledger>(
    nodes: &[Packed<'_>],
    kept: &KeyTags,
    tag: u16,
    from: usize,
    place: usize,
    next: usize,
    key: &[u8],
    steps: &mut Steps<L>,
) -> Option<usize>
    requires are { AreMembers (packed_marks nodes.now) }
    requires tagged { IsTagged (packed_marks nodes.now) kept.now }
    requires tag { tag ≡ tag_is key.now }
    requires at { place ≡ member_node (packed_marks nodes.now) from }
    requires order { from ≤ next }
    requires within { next ≤ length kept.now.tags.items }
    ensures begins { IfSome result (λ p. BeginsTree (drop p (packed_marks nodes.now))) }
    ensures found { IfSome result (λ p. Some (tree_from (packed_marks nodes.now) p) ≡ find_member key.now (members_at (packed_marks nodes.now) place)) }
    ensures found_most { IfSome result (λ _. steps.new ≤ steps.old + visited key.now (members_at (packed_marks nodes.now) place)) }
    ensures passed { IfNone result (find_member key.now (members_at (packed_marks nodes.now) (member_node (packed_marks nodes.now) next)) ≡ find_member key.now (members_at (packed_marks nodes.now) place)) }
    ensures passed_most { IfNone result (steps.new + visited key.now (members_at (packed_marks nodes.now) (member_node (packed_marks nodes.now) next)) ≤ steps.old + visited key.now (members_at (packed_marks nodes.now) place)) }
{
    if !is_among(tag, &kept.tags[from..next]) {
        return None;
    }
    match first_among(nodes, from, place, next, key, steps) {
        Ok(found) => Some(found),
        Err(_) => None,
    }
}

/// Where the first member of a block begins, or behind the last block the first one without a tag.
#[inline(always)]
fn place_of_block(_nodes: &[Packed<'_>], kept: &KeyTags, block: usize, from: usize) -> usize
    requires tagged { IsTagged (packed_marks _nodes.now) kept.now }
    requires from { from ≡ min (block * 64) (length kept.now.tags.items) }
    ensures { result ≡ member_node (packed_marks _nodes.now) from }
{
    if from < kept.tags.len() {
        kept.places[block]
    } else {
        kept.rest
    }
}

/// The place of the value of the first member with the key, from the one at that position and place in the
/// first block on.
fn first_by_tags<L: Ledger>(
    nodes: &[Packed<'_>],
    kept: &KeyTags,
    from: usize,
    place: usize,
    key: &[u8],
    steps: &mut Steps<L>,
) -> Option<usize>
    requires are { AreMembers (packed_marks nodes.now) }
    requires tagged { IsTagged (packed_marks nodes.now) kept.now }
    requires at { place ≡ member_node (packed_marks nodes.now) from }
    requires few { from < 64 }
    requires within { from ≤ length kept.now.tags.items }
    ensures begins { IfSome result (λ p. BeginsTree (drop p (packed_marks nodes.now))) }
    ensures value { option_map (tree_from (packed_marks nodes.now)) result ≡ find_member key.now (members_at (packed_marks nodes.now) place) }
    ensures most { steps.new ≤ steps.old + visited key.now (members_at (packed_marks nodes.now) place) }
{
    let tag = tag_of(key);
    let mut block = 0;
    let mut first = from;
    let mut at = place;
    while first < kept.tags.len() {
        let next = kept.tags.len().min((block + 1) * STEP);
        if let Some(found) = first_in_block(nodes, kept, tag, first, at, next, key, steps) {
            return Some(found);
        }
        block += 1;
        first = next;
        at = place_of_block(nodes, kept, block, first);
    }
    first_in_runs(nodes, at, key, steps)
}

/// The same by tags where they are kept, else by runs.
#[inline(never)]
fn first_behind<L: Ledger>(
    object: &Object<'_, '_>,
    nodes: &[Packed<'_>],
    from: usize,
    place: usize,
    key: &[u8],
    steps: &mut Steps<L>,
) -> Option<usize>
    requires nodes { packed_marks nodes.now ≡ nodes_in object.now.nodes }
    requires are { AreMembers (packed_marks nodes.now) }
    requires at { place ≡ member_node (packed_marks nodes.now) from }
    requires few { from < 64 }
    requires within { from ≤ members_len (members_in (packed_marks nodes.now)) }
    ensures begins { IfSome result (λ p. BeginsTree (drop p (packed_marks nodes.now))) }
    ensures value { option_map (tree_from (packed_marks nodes.now)) result ≡ find_member key.now (members_at (packed_marks nodes.now) place) }
    ensures most { steps.new ≤ steps.old + visited key.now (members_at (packed_marks nodes.now) place) }
{
    match object.key_tags() {
        Some(kept) if from <= kept.tags.len() => {
            first_by_tags(nodes, kept, from, place, key, steps)
        }
        _ => first_in_runs(nodes, place, key, steps),
    }
}

/// The place of the value of the first member with the key, in an object of many wide members.
#[inline(always)]
pub(super) fn first_of_wide<L: Ledger>(
    object: &Object<'_, '_>,
    nodes: &[Packed<'_>],
    key: &[u8],
    steps: &mut Steps<L>,
) -> Option<usize>
    requires nodes { packed_marks nodes.now ≡ nodes_in object.now.nodes }
    requires are { AreMembers (packed_marks nodes.now) }
    ensures begins { IfSome result (λ p. BeginsTree (drop p (packed_marks nodes.now))) }
    ensures value { option_map (tree_from (packed_marks nodes.now)) result ≡ find_member key.now (members_in (packed_marks nodes.now)) }
    ensures most { steps.new ≤ steps.old + visited key.now (members_in (packed_marks nodes.now)) }
{
    let few = FIRST_COMPARED.min(object.len());
    match first_among(nodes, 0, 0, few, key, steps) {
        Ok(found) => Some(found),
        Err(place) => first_behind(object, nodes, few, place, key, steps),
    }
}
