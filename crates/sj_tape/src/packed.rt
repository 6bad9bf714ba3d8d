//! Nodes in half the room.

ghost use Rattle.std.specs.Prelude.{◌≡◌, ◌<◌, ◌^◌, ◌*◌, ◌+◌, option_map, IfSome};
ghost use Rattle.sj_text_core.specs.Nodes.{string, width};
ghost use Rattle.sj_tape.specs.Marks.{static_mark, mark, packed_mark, text_in};

use crate::node::Node;
use crate::stored_node::StoredNode;
use sj_print::PlainText;
use sj_text_core::StaticNode;
use std::fmt;

/// How many numbers 64 bits have.
const WORD: u128 = 1 << 64;

// Why so: docs/DECISIONS.md, "Texts stand first".
/// A node as the reader puts it: 24 bytes, where a `Node` takes 48 for the sake of its numbers of
/// 128 bits. The bits of such a number are `high * 2^64 + low` here. A text that was read without an
/// escape is kept as one that is printed without one.
#[derive(Clone, Copy)]
pub(crate) enum Packed<'i> {
    String(&'i str),
    Plain(PlainText<'i>),
    Null,
    Bool(bool),
    I64(i64),
    U64(u64),
    I128 { high: u64, low: u64 },
    U128 { high: u64, low: u64 },
    Array { len: usize, count: usize },
    Object { len: usize, count: usize },
}

/// The two halves of a number.
fn halves(n: u128) -> (u64, u64)
    ensures { result.0 * 2 ^ 64 + result.1 ≡ n }
{
    ((n / WORD) as u64, (n % WORD) as u64)
}

/// The number of two halves.
fn number(high: u64, low: u64) -> u128
    ensures { result ≡ high * 2 ^ 64 + low }
{
    u128::from(high) * WORD + u128::from(low)
}

/// A scalar, packed.
#[inline(always)]
fn pack_scalar<'i>(scalar: StaticNode) -> Packed<'i>
    ensures { packed_mark result ≡ static_mark scalar }
{
    match scalar {
        StaticNode::Null => Packed::Null,
        StaticNode::Bool(truth) => Packed::Bool(truth),
        StaticNode::I64(n) => Packed::I64(n),
        StaticNode::U64(n) => Packed::U64(n),
        StaticNode::I128(n) => {
            let (high, low) = halves(n.cast_unsigned());
            Packed::I128 { high, low }
        }
        StaticNode::U128(n) => {
            let (high, low) = halves(n);
            Packed::U128 { high, low }
        }
    }
}

impl<'i> Packed<'i> {
    /// The node, packed.
    #[inline(always)]
    pub(crate) fn of(node: Node<'i>) -> Packed<'i>
        ensures { packed_mark result ≡ mark node.entry }
    {
        match node {
            Node::Static(scalar) => pack_scalar(scalar),
            Node::String(text) => Packed::String(text),
            Node::Array { len, count } => Packed::Array { len, count },
            Node::Object { len, count } => Packed::Object { len, count },
        }
    }

    /// Its text, where it is known to need no escape.
    #[inline(always)]
    pub(crate) fn plain(&self) -> Option<PlainText<'i>>
        ensures { IfSome result (λ plain. packed_mark self.now ≡ string plain.text.now) }
    {
        match *self {
            Packed::Plain(plain) => Some(plain),
            _ => None,
        }
    }
}

impl<'i> StoredNode<'i> for Packed<'i> {
    ghost mark_of = { packed_mark };

    #[inline(always)]
    fn node(self) -> Node<'i> {
        match self {
            Packed::Null => Node::Static(StaticNode::Null),
            Packed::Bool(truth) => Node::Static(StaticNode::Bool(truth)),
            Packed::I64(n) => Node::Static(StaticNode::I64(n)),
            Packed::U64(n) => Node::Static(StaticNode::U64(n)),
            Packed::I128 { high, low } => {
                Node::Static(StaticNode::I128(number(high, low).cast_signed()))
            }
            Packed::U128 { high, low } => Node::Static(StaticNode::U128(number(high, low))),
            Packed::String(text) => Node::String(text),
            Packed::Plain(plain) => Node::String(plain.text),
            Packed::Array { len, count } => Node::Array { len, count },
            Packed::Object { len, count } => Node::Object { len, count },
        }
    }

    #[inline(always)]
    fn width(&self) -> usize {
        match *self {
            Packed::Array { count, .. } | Packed::Object { count, .. } => 1 + count,
            _ => 1,
        }
    }

    #[inline(always)]
    fn text(&self) -> Option<&'i str> {
        match *self {
            Packed::String(text) => Some(text),
            Packed::Plain(plain) => Some(plain.text),
            _ => None,
        }
    }

    #[inline(always)]
    fn array_len(&self) -> Option<usize> {
        match *self {
            Packed::Array { len, .. } => Some(len),
            _ => None,
        }
    }

    #[inline(always)]
    fn object_len(&self) -> Option<usize> {
        match *self {
            Packed::Object { len, .. } => Some(len),
            _ => None,
        }
    }
}

impl<'i> fmt::Debug for Packed<'i> {
    fn fmt<W: fmt::Write>(&self, f: &mut fmt::Formatter<W>) -> fmt::Result {
        self.node().fmt(f)
    }
}
