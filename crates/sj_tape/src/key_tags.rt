//! Tags of the keys of large objects, so that a look-up passes most members unseen.

ghost use Rattle.std.specs.Prelude.{◌≡◌, ◌+◌, ◌<◌, ◌≤◌, length, get_or, drop, take, IfSome};
ghost use Rattle.sj_text_core.specs.Nodes.{IsPreorder, members_in, nothing, width as node_width};
ghost use Rattle.sj_text_core.specs.inner.Nodes.{AreMembers};
ghost use Rattle.sj_text_core.specs.Tree.{members_len};
ghost use Rattle.sj_tape.specs.Marks.{packed_marks};
ghost use Rattle.sj_tape.specs.inner.Tags.{AllTagged, AreTags, IsTagged, MembersFrom, key_tag};

use crate::landmarks::{Begins, FREE_CHANGES, MANY_MEMBERS, PER_CHANGE, STEP, index_of};
use crate::packed::Packed;
use crate::stored_node::{StoredNode, between, kept_at};
use crate::tag::tag_of;
use std::alloc::Global;

/// How many nodes a member has on an average at least, its key's too, where tags are kept. An object of
/// narrower ones is read so fast that they would cost more than one in twenty of it.
const WIDE_MEMBER: usize = 12;

/// The tags of the keys of an object's first members, the places of some of these, counted from the
/// first one's, and where the members behind them begin.
#[derive(Drop)]
pub(crate) struct KeyTags {
    pub(crate) start: usize,
    pub(crate) end: usize,
    pub(crate) tags: Vec<u16>,
    pub(crate) places: Vec<usize>,
    pub(crate) rest: usize,
}

impl Begins for KeyTags {
    fn start(&self) -> usize {
        self.start
    }
}

/// The tag of the key that the node at a place is.
#[inline(always)]
fn tag_at(nodes: &[Packed<'_>], place: usize) -> u16
    requires { place < length (packed_marks nodes.now) }
    ensures { result ≡ key_tag (get_or (packed_marks nodes.now) place nothing) }
{
    match kept_at(nodes, place).text() {
        Some(text) => tag_of(text.as_bytes()),
        None => 0,
    }
}

/// How many nodes the value has of the member at that place.
#[inline(always)]
fn value_width(nodes: &[Packed<'_>], position: usize, place: usize) -> usize
    requires from { MembersFrom (packed_marks nodes.now) position place }
    requires more { position < members_len (members_in (packed_marks nodes.now)) }
    ensures { result ≡ node_width (get_or (packed_marks nodes.now) (place + 1) nothing) }
{
    kept_at(nodes, place + 1).width()
}

/// Puts the tag of the key of the member at that place, whose value has so many nodes: where the next
/// member begins. None where memory was refused.
#[inline(always)]
fn tag_member(
    nodes: &[Packed<'_>],
    place: usize,
    width: usize,
    tags: &mut Vec<u16>,
) -> Option<usize>
    requires are { AreMembers (packed_marks nodes.now) }
    requires from { MembersFrom (packed_marks nodes.now) (length tags.old.items) place }
    requires more { length tags.old.items < members_len (members_in (packed_marks nodes.now)) }
    requires wide { width ≡ node_width (get_or (packed_marks nodes.now) (place + 1) nothing) }
    requires tagged { AreTags (packed_marks nodes.now) tags.old.items }
    ensures from { IfSome result (λ p. MembersFrom (packed_marks nodes.now) (length tags.new.items) p) }
    ensures more { IfSome result (λ _. length tags.new.items ≡ length tags.old.items + 1) }
    ensures tagged { IfSome result (λ _. AreTags (packed_marks nodes.now) tags.new.items) }
{
    tags.push(tag_at(nodes, place)).ok()?;
    Some(place + 1 + width)
}

/// Puts the tag of the key of the member at that place, and those of the members behind it whose
/// values are as wide, up to so many tags: where the next member begins. None where memory was refused.
fn tag_run(nodes: &[Packed<'_>], place: usize, most: usize, tags: &mut Vec<u16>) -> Option<usize>
    requires are { AreMembers (packed_marks nodes.now) }
    requires from { MembersFrom (packed_marks nodes.now) (length tags.old.items) place }
    requires more { length tags.old.items < most }
    requires some { most ≤ members_len (members_in (packed_marks nodes.now)) }
    requires tagged { AreTags (packed_marks nodes.now) tags.old.items }
    ensures from { IfSome result (λ p. MembersFrom (packed_marks nodes.now) (length tags.new.items) p) }
    ensures more { IfSome result (λ _. length tags.old.items < length tags.new.items) }
    ensures within { IfSome result (λ _. length tags.new.items ≤ most) }
    ensures tagged { IfSome result (λ _. AreTags (packed_marks nodes.now) tags.new.items) }
{
    let width = value_width(nodes, tags.len(), place);
    let mut at = tag_member(nodes, place, width, tags)?;
    while tags.len() < most {
        if value_width(nodes, tags.len(), at) != width {
            return Some(at);
        }
        at = tag_member(nodes, at, width, tags)?;
    }
    Some(at)
}

/// Puts so many tags in all: where the next member begins, and how many of the members behind the first
/// new one have a value of another width than the one before. None where memory was refused.
fn tag_block(
    nodes: &[Packed<'_>],
    place: usize,
    most: usize,
    tags: &mut Vec<u16>,
) -> Option<(usize, usize)>
    requires are { AreMembers (packed_marks nodes.now) }
    requires from { MembersFrom (packed_marks nodes.now) (length tags.old.items) place }
    requires more { length tags.old.items < most }
    requires some { most ≤ members_len (members_in (packed_marks nodes.now)) }
    requires tagged { AreTags (packed_marks nodes.now) tags.old.items }
    ensures from { IfSome result (λ p. MembersFrom (packed_marks nodes.now) (length tags.new.items) p.0) }
    ensures all { IfSome result (λ _. length tags.new.items ≡ most) }
    ensures tagged { IfSome result (λ _. AreTags (packed_marks nodes.now) tags.new.items) }
{
    let mut at = tag_run(nodes, place, most, tags)?;
    let mut changes = 0usize;
    while tags.len() < most {
        at = tag_run(nodes, at, most, tags)?;
        changes = changes.saturating_add(1);
    }
    Some((at, changes))
}

/// The tags of an object's keys, up to where too many values differ in width from the one before. None
/// where memory was refused.
fn tags_between(
    alloc: Global,
    nodes: &[Packed<'_>],
    start: usize,
    end: usize,
    len: usize,
) -> Option<KeyTags>
    requires are { AreMembers (packed_marks nodes.now) }
    requires counted { len ≡ members_len (members_in (packed_marks nodes.now)) }
    ensures start { IfSome result (λ k. k.start ≡ start) }
    ensures end { IfSome result (λ k. k.end ≡ end) }
    ensures tagged { IfSome result (λ k. IsTagged (packed_marks nodes.now) k) }
{
    let mut tags = Vec::with_capacity(alloc, len).ok()?;
    let mut places = Vec::with_capacity(alloc, len / STEP + 1).ok()?;
    let mut at = 0;
    let mut changes = 0usize;
    while tags.len() < len && changes <= FREE_CHANGES + tags.len() / PER_CHANGE {
        places.push(at).ok()?;
        let most = tags.len() + STEP.min(len - tags.len());
        let (place, more) = tag_block(nodes, at, most, &mut tags)?;
        changes = changes.saturating_add(more);
        at = place;
    }
    Some(KeyTags {
        start,
        end,
        tags,
        places,
        rest: at,
    })
}

/// The tags of the object that begins with the node there, where it has many members that are wide.
pub(crate) fn object_at(alloc: Global, nodes: &[Packed<'_>], at: usize) -> Option<KeyTags>
    requires tree { IsPreorder (packed_marks nodes.now) }
    requires at { at < length (packed_marks nodes.now) }
    ensures { IfSome result (λ k. IsTagged (drop k.start (take k.end (packed_marks nodes.now))) k) }
{
    let node = kept_at(nodes, at);
    let len = node.object_len()?;
    let start = at + 1;
    let end = at + node.width();
    if len < MANY_MEMBERS || (end - start) / WIDE_MEMBER < len {
        return None;
    }
    tags_between(alloc, between(nodes, start, end), start, end, len)
}

/// The tags of the object whose members' nodes are those from `start` on and before `end`; None where
/// there are none.
pub(crate) fn tags_of_object<'t>(
    objects: &'t [KeyTags],
    _nodes: &[Packed<'_>],
    start: usize,
    end: usize,
) -> Option<&'t KeyTags>
    requires { AllTagged (packed_marks _nodes.now) objects.now }
    ensures { IfSome result (λ k. IsTagged (drop start (take end (packed_marks _nodes.now))) k.now) }
{
    let index = index_of(objects, start);
    if index >= objects.len() {
        return None;
    }
    let object = &objects[index];
    if object.start != start || object.end != end {
        return None;
    }
    Some(object)
}
