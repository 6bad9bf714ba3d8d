//! Nodes.

ghost use Rattle.std.specs.Prelude.{◌≡◌, ◌^◌, ◌<◌, is_some};
ghost use Rattle.sj_text_core.specs.Nodes.{width};
ghost use Rattle.sj_tape.specs.Marks.{mark, text_in};

use crate::stored_node::StoredNode;
use sj_text_core::StaticNode;

/// One node of a tape.
#[derive(Clone, Copy, Debug, PartialEq, Eq)]
pub enum Node<'i> {
    /// A null, a truth value or a whole number.
    Static(StaticNode),
    /// A text, or the key of a member.
    String(&'i str),
    /// An array: how many items it has, and how many nodes follow inside it.
    Array { len: usize, count: usize },
    /// An object: how many members it has, and how many nodes follow inside it.
    Object { len: usize, count: usize },
}

impl<'i> Node<'i> {
    /// How many nodes the tree has that begins with it.
    #[inline(always)]
    pub fn width(&self) -> usize
        requires { width (mark self.now) < 2 ^ 64 }
        ensures { result ≡ width (mark self.now) }
    {
        match *self {
            Node::Array { count, .. } | Node::Object { count, .. } => 1 + count,
            Node::Static(_) | Node::String(_) => 1,
        }
    }
}

impl<'i> Node<'i> {
    // Why so: docs/DECISIONS.md, "Few values of several words".
    /// Whether it is a text.
    #[cold]
    #[inline(never)]
    fn is_string(&self) -> bool
        ensures { result ≡ is_some (text_in (mark self.now)) }
    {
        match self {
            Node::String(_) => true,
            Node::Static(_) | Node::Array { .. } | Node::Object { .. } => false,
        }
    }
}

// Few tapes keep such nodes: two calls keep these reads out of the way of packed nodes.
impl<'i> StoredNode<'i> for Node<'i> {
    ghost mark_of = { mark };

    #[inline(always)]
    fn node(self) -> Node<'i> {
        self
    }

    #[cold]
    #[inline(never)]
    fn width(&self) -> usize {
        Node::width(self)
    }

    #[inline(always)]
    fn text(&self) -> Option<&'i str> {
        if !self.is_string() {
            return None;
        }
        match *self {
            Node::String(text) => Some(text),
            Node::Static(_) | Node::Array { .. } | Node::Object { .. } => None,
        }
    }

    #[inline(always)]
    fn array_len(&self) -> Option<usize> {
        match *self {
            Node::Array { len, .. } => Some(len),
            Node::Static(_) | Node::String(_) | Node::Object { .. } => None,
        }
    }

    #[inline(always)]
    fn object_len(&self) -> Option<usize> {
        match *self {
            Node::Object { len, .. } => Some(len),
            Node::Static(_) | Node::String(_) | Node::Array { .. } => None,
        }
    }
}
