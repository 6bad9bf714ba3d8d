//! Look-ups by key in packed nodes, which answer a place. A run is members behind one another whose
//! values have equally many nodes.

ghost use Rattle.std.specs.Prelude.{◌≡◌, ◌+◌, ◌<◌, Some, None, if◌then◌else◌, length, get_or, drop, option_map, IfSome, IfOk, IfErr};
ghost use Rattle.std.specs.Option.{option_or};
ghost use Rattle.sj_text_core.specs.Find.{find_member};
ghost use Rattle.sj_text_core.specs.Nodes.{nothing, string, width as node_width};
ghost use Rattle.sj_text_core.specs.Repeats.{find_last_member, visited};
ghost use Rattle.sj_text_core.specs.Tree.{members_len};
ghost use Rattle.sj_tape.specs.inner.Ahead.{MembersAhead, members_at, tree_from};
ghost use Rattle.sj_tape.specs.inner.Fronts.{BeginsTree};
ghost use Rattle.sj_tape.specs.Marks.{packed_marks};

use crate::packed::Packed;
use crate::search::is_key;
use crate::stored_node::{StoredNode, kept_at};
use sj_text_core::Steps;
use std::sync::ledger::Ledger;

/// How many members an object has at least that is searched by runs.
const MANY_IN_RUNS: usize = 64;

/// How many nodes such a member has on an average at least, its key's too.
const WIDE_IN_RUNS: usize = 4;

/// A search by runs ends where more than these, and one for each `PER_RUN` nodes, have begun: the way
/// to the next member then waits for its node all the same.
const FREE_RUNS: usize = 4;

/// See `FREE_RUNS`.
const PER_RUN: usize = 64;

/// Whether an object of so many members, with these nodes, is searched by runs.
#[inline(always)]
pub(super) fn has_runs(len: usize, nodes: &[Packed<'_>]) -> bool {
    len >= MANY_IN_RUNS && nodes.len() / WIDE_IN_RUNS >= len
}

/// The key of the member at that place.
#[inline(always)]
pub(super) fn name_at<'i>(nodes: &[Packed<'i>], place: usize) -> &'i str
    requires ahead { MembersAhead (packed_marks nodes.now) place }
    requires more { place < length (packed_marks nodes.now) }
    ensures { get_or (packed_marks nodes.now) place nothing ≡ string result.now }
{
    let Some(name) = kept_at(nodes, place).text() else {
        unreachable!()
    };
    name
}

/// How many nodes the value has of the member at that place.
#[inline(always)]
pub(super) fn value_width(nodes: &[Packed<'_>], place: usize) -> usize
    requires ahead { MembersAhead (packed_marks nodes.now) place }
    requires more { place < length (packed_marks nodes.now) }
    ensures { result ≡ node_width (get_or (packed_marks nodes.now) (place + 1) nothing) }
{
    kept_at(nodes, place + 1).width()
}

/// The place of the value of the first member with the key, from the member at that place on.
#[inline(always)]
pub(super) fn place_of_first<L: Ledger>(
    nodes: &[Packed<'_>],
    from: usize,
    key: &[u8],
    steps: &mut Steps<L>,
) -> Option<usize>
    requires { MembersAhead (packed_marks nodes.now) from }
    ensures begins { IfSome result (λ p. BeginsTree (drop p (packed_marks nodes.now))) }
    ensures value { option_map (tree_from (packed_marks nodes.now)) result ≡ find_member key.now (members_at (packed_marks nodes.now) from) }
    ensures exact { steps.new ≡ steps.old + visited key.now (members_at (packed_marks nodes.now) from) }
{
    let mut at = from;
    while at < nodes.len() {
        if is_key(name_at(nodes, at), key, steps) {
            return Some(at + 1);
        }
        at += 1 + value_width(nodes, at);
    }
    None
}

/// The place of the value of the first member with the key, among the member at that place and those
/// behind it whose values are as wide; else where the members behind these begin.
#[inline(always)]
fn first_in_run<L: Ledger>(
    nodes: &[Packed<'_>],
    from: usize,
    key: &[u8],
    steps: &mut Steps<L>,
) -> Result<usize, usize>
    requires ahead { MembersAhead (packed_marks nodes.now) from }
    requires more { from < length (packed_marks nodes.now) }
    ensures begins { IfOk result (λ p. BeginsTree (drop p (packed_marks nodes.now))) }
    ensures found { IfOk result (λ p. Some (tree_from (packed_marks nodes.now) p) ≡ find_member key.now (members_at (packed_marks nodes.now) from)) }
    ensures found_exact { IfOk result (λ _. steps.new ≡ steps.old + visited key.now (members_at (packed_marks nodes.now) from)) }
    ensures ahead { IfErr result (λ p. MembersAhead (packed_marks nodes.now) p) }
    ensures on { IfErr result (λ p. from < p) }
    ensures passed { IfErr result (λ p. find_member key.now (members_at (packed_marks nodes.now) p) ≡ find_member key.now (members_at (packed_marks nodes.now) from)) }
    ensures passed_exact { IfErr result (λ p. steps.new + visited key.now (members_at (packed_marks nodes.now) p) ≡ steps.old + visited key.now (members_at (packed_marks nodes.now) from)) }
{
    let width = value_width(nodes, from);
    let mut at = from;
    while at < nodes.len() {
        if value_width(nodes, at) != width {
            return Err(at);
        }
        if is_key(name_at(nodes, at), key, steps) {
            return Ok(at + 1);
        }
        at += 1 + width;
    }
    Err(at)
}

/// The same by a call, so that the loop stands alone.
#[inline(never)]
fn first_apart<L: Ledger>(
    nodes: &[Packed<'_>],
    from: usize,
    key: &[u8],
    steps: &mut Steps<L>,
) -> Option<usize>
    requires { MembersAhead (packed_marks nodes.now) from }
    ensures begins { IfSome result (λ p. BeginsTree (drop p (packed_marks nodes.now))) }
    ensures value { option_map (tree_from (packed_marks nodes.now)) result ≡ find_member key.now (members_at (packed_marks nodes.now) from) }
    ensures exact { steps.new ≡ steps.old + visited key.now (members_at (packed_marks nodes.now) from) }
{
    place_of_first(nodes, from, key, steps)
}

/// The same as `place_of_first`, by runs of members whose values are equally wide: the place of the next
/// one waits for no node there. Where the widths change too often, the rest is searched without.
#[inline(never)]
pub(super) fn first_in_runs<L: Ledger>(
    nodes: &[Packed<'_>],
    from: usize,
    key: &[u8],
    steps: &mut Steps<L>,
) -> Option<usize>
    requires { MembersAhead (packed_marks nodes.now) from }
    ensures begins { IfSome result (λ p. BeginsTree (drop p (packed_marks nodes.now))) }
    ensures value { option_map (tree_from (packed_marks nodes.now)) result ≡ find_member key.now (members_at (packed_marks nodes.now) from) }
    ensures exact { steps.new ≡ steps.old + visited key.now (members_at (packed_marks nodes.now) from) }
{
    let mut at = from;
    let mut runs = 0usize;
    while at < nodes.len() {
        if runs > FREE_RUNS + at / PER_RUN {
            return first_apart(nodes, at, key, steps);
        }
        match first_in_run(nodes, at, key, steps) {
            Ok(place) => return Some(place),
            Err(next) => at = next,
        }
        runs = runs.saturating_add(1);
    }
    None
}

/// The place where the key is met, else the one before.
#[inline(always)]
fn later_place(is_met: bool, place: usize, before: Option<usize>) -> Option<usize>
    ensures { result ≡ if is_met then Some place else before }
{
    if is_met { Some(place) } else { before }
}

/// The place of the value of the last member with the key, from the member at that place on; where none
/// of these has it, the one that was found before.
#[inline(always)]
pub(super) fn place_of_last<L: Ledger>(
    nodes: &[Packed<'_>],
    from: usize,
    before: Option<usize>,
    key: &[u8],
    steps: &mut Steps<L>,
) -> Option<usize>
    requires ahead { MembersAhead (packed_marks nodes.now) from }
    requires before { IfSome before (λ p. BeginsTree (drop p (packed_marks nodes.now))) }
    ensures begins { IfSome result (λ p. BeginsTree (drop p (packed_marks nodes.now))) }
    ensures value { option_map (tree_from (packed_marks nodes.now)) result ≡ option_or (find_last_member key.now (members_at (packed_marks nodes.now) from)) (option_map (tree_from (packed_marks nodes.now)) before) }
    ensures exact { steps.new ≡ steps.old + members_len (members_at (packed_marks nodes.now) from) }
{
    let mut at = from;
    let mut last = before;
    while at < nodes.len() {
        let is_met = is_key(name_at(nodes, at), key, steps);
        last = later_place(is_met, at + 1, last);
        at += 1 + value_width(nodes, at);
    }
    last
}

/// The place of the value of the last member with the key, among the member at that place and those
/// behind it whose values are as wide, else the one that was found before; and where the members behind
/// these begin.
#[inline(always)]
fn last_in_run<L: Ledger>(
    nodes: &[Packed<'_>],
    from: usize,
    before: Option<usize>,
    key: &[u8],
    steps: &mut Steps<L>,
) -> (Option<usize>, usize)
    requires ahead { MembersAhead (packed_marks nodes.now) from }
    requires more { from < length (packed_marks nodes.now) }
    requires before { IfSome before (λ p. BeginsTree (drop p (packed_marks nodes.now))) }
    ensures begins { IfSome result.0 (λ p. BeginsTree (drop p (packed_marks nodes.now))) }
    ensures ahead { MembersAhead (packed_marks nodes.now) result.1 }
    ensures on { from < result.1 }
    ensures value { option_or (find_last_member key.now (members_at (packed_marks nodes.now) result.1)) (option_map (tree_from (packed_marks nodes.now)) result.0) ≡ option_or (find_last_member key.now (members_at (packed_marks nodes.now) from)) (option_map (tree_from (packed_marks nodes.now)) before) }
    ensures exact { steps.new + members_len (members_at (packed_marks nodes.now) result.1) ≡ steps.old + members_len (members_at (packed_marks nodes.now) from) }
{
    let wide = value_width(nodes, from);
    let mut at = from;
    let mut last = before;
    while at < nodes.len() {
        if value_width(nodes, at) != wide {
            return (last, at);
        }
        let is_met = is_key(name_at(nodes, at), key, steps);
        last = later_place(is_met, at + 1, last);
        at += 1 + wide;
    }
    (last, at)
}

/// The same by a call, so that the loop stands alone.
#[inline(never)]
fn last_apart<L: Ledger>(
    nodes: &[Packed<'_>],
    from: usize,
    before: Option<usize>,
    key: &[u8],
    steps: &mut Steps<L>,
) -> Option<usize>
    requires ahead { MembersAhead (packed_marks nodes.now) from }
    requires before { IfSome before (λ p. BeginsTree (drop p (packed_marks nodes.now))) }
    ensures begins { IfSome result (λ p. BeginsTree (drop p (packed_marks nodes.now))) }
    ensures value { option_map (tree_from (packed_marks nodes.now)) result ≡ option_or (find_last_member key.now (members_at (packed_marks nodes.now) from)) (option_map (tree_from (packed_marks nodes.now)) before) }
    ensures exact { steps.new ≡ steps.old + members_len (members_at (packed_marks nodes.now) from) }
{
    place_of_last(nodes, from, before, key, steps)
}

/// The same as `place_of_last` of all members, by runs as `first_in_runs` does it.
#[inline(never)]
pub(super) fn last_in_runs<L: Ledger>(
    nodes: &[Packed<'_>],
    key: &[u8],
    steps: &mut Steps<L>,
) -> Option<usize>
    requires { MembersAhead (packed_marks nodes.now) 0 }
    ensures begins { IfSome result (λ p. BeginsTree (drop p (packed_marks nodes.now))) }
    ensures value { option_map (tree_from (packed_marks nodes.now)) result ≡ find_last_member key.now (members_at (packed_marks nodes.now) 0) }
    ensures exact { steps.new ≡ steps.old + members_len (members_at (packed_marks nodes.now) 0) }
{
    let mut at = 0;
    let mut last = None;
    let mut runs = 0usize;
    while at < nodes.len() {
        if runs > FREE_RUNS + at / PER_RUN {
            return last_apart(nodes, at, last, key, steps);
        }
        let (found, next) = last_in_run(nodes, at, last, key, steps);
        last = found;
        at = next;
        runs = runs.saturating_add(1);
    }
    last
}
