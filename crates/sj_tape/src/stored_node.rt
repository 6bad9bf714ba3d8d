//! Nodes in one of the forms that tapes keep, and slices of them.

ghost use Rattle.std.specs.Prelude.{◌≡◌, ◌+◌, ◌<◌, ◌≤◌, ◌^◌, length, get_or, map, take, drop, option_map};
ghost use Rattle.sj_text_core.specs.Nodes.{Mark, nothing, width};
ghost use Rattle.sj_text_core.specs.Tree.{items_len};
ghost use Rattle.sj_tape.specs.Marks.{mark, text_in};
ghost use Rattle.sj_tape.specs.inner.Marks.{array_len, object_len};
ghost use Rattle.sj_tape.specs.Parts.{items_in};
ghost use Rattle.sj_tape.specs.inner.Parts.{AreItemNodes, ItemsFrom};

use crate::node::Node;

/// A node in one of the forms that tapes keep.
pub(crate) trait StoredNode<'i>: Copy {
    /// What it says.
    ghost mark_of: { Self → Mark };

    /// The node.
    fn node(self) -> Node<'i>
        ensures { mark result ≡ mark_of self };

    /// How many nodes the tree has that begins with it.
    fn width(&self) -> usize
        requires { width (mark_of self.now) < 2 ^ 64 }
        ensures { result ≡ width (mark_of self.now) };

    /// Its text, where it is one.
    fn text(&self) -> Option<&'i str>
        ensures { option_map (λ s. s.now) result ≡ text_in (mark_of self.now) };

    /// How many items it has, where it is an array's.
    fn array_len(&self) -> Option<usize>
        ensures { result ≡ array_len (mark_of self.now) };

    /// How many members it has, where it is an object's.
    fn object_len(&self) -> Option<usize>
        ensures { result ≡ object_len (mark_of self.now) };
}

/// The place of the item at that position, from the one at an earlier position on. Items of one width
/// are passed in one run, in which the place of the next waits for no node.
#[inline(always)]
pub(crate) fn item_place<'i, N: StoredNode<'i>>(
    nodes: &[N],
    passed: usize,
    place: usize,
    position: usize,
) -> usize
    requires from { ItemsFrom (map N.mark_of nodes.now) passed place }
    requires before { passed ≤ position }
    requires some { position ≤ items_len (items_in (map N.mark_of nodes.now)) }
    requires fits { length nodes.now < 2 ^ 64 }
    ensures { ItemsFrom (map N.mark_of nodes.now) position result }
{
    let mut place = place;
    let mut passed = passed;
    while passed < position {
        let behind = pass_run(nodes, passed, place, position);
        passed = behind.0;
        place = behind.1;
    }
    place
}

/// Passes the item at that place, and those behind it that are as wide, up to that position: how
/// many items are passed then, and where the next one begins.
#[inline(always)]
pub(crate) fn pass_run<'i, N: StoredNode<'i>>(
    nodes: &[N],
    passed: usize,
    place: usize,
    position: usize,
) -> (usize, usize)
    requires from { ItemsFrom (map N.mark_of nodes.now) passed place }
    requires more { passed < position }
    requires some { position ≤ items_len (items_in (map N.mark_of nodes.now)) }
    requires fits { length nodes.now < 2 ^ 64 }
    ensures from { ItemsFrom (map N.mark_of nodes.now) result.0 result.1 }
    ensures more { passed < result.0 }
    ensures within { result.0 ≤ position }
{
    let width = nodes[place].width();
    let mut at = place + width;
    for count in passed + 1..position {
        if nodes[at].width() != width {
            return (count, at);
        }
        at += width;
    }
    (position, at)
}

/// The nodes from one place on and before another.
#[inline(always)]
pub(crate) fn between<'t, 'i, N: StoredNode<'i>>(nodes: &'t [N], from: usize, end: usize) -> &'t [N]
    requires order { from ≤ end }
    requires within { end ≤ length (map N.mark_of nodes.now) }
    ensures { map N.mark_of result.now ≡ drop from (take end (map N.mark_of nodes.now)) }
{
    nodes.split_at(end).0.split_at(from).1
}

/// What is kept at a place.
#[inline(always)]
pub(crate) fn kept_at<'t, 'i, N: StoredNode<'i>>(nodes: &'t [N], place: usize) -> &'t N
    requires { place < length (map N.mark_of nodes.now) }
    ensures { N.mark_of result.now ≡ get_or (map N.mark_of nodes.now) place nothing }
{
    &nodes[place]
}
