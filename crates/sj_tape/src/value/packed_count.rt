//! How long prints of packed nodes are. A compact print is counted node by node, with no levels.

ghost use Rattle.std.specs.Prelude.{◌≡◌, ◌+◌, ◌^◌, ◌≤◌, length, IfOk, IfErr, OnOk, OnErr, IfSome, IfNone};
ghost use Rattle.sj_text_core.specs.Print.{quoted};
ghost use Rattle.sj_print.specs.Layouts.{laid, top};
ghost use Rattle.sj_print.specs.Printed.{Counts};
ghost use Rattle.sj_print.specs.inner.Printed.{mark_len, marks_len};
ghost use Rattle.sj_tape.specs.Marks.{packed_mark, packed_marks};
ghost use Rattle.sj_tape.specs.inner.PackedTree.{packed_tree};

use super::packed_tree::PackedTree;
use crate::node::Node;
use crate::packed::Packed;
use crate::stored_node::StoredNode;
use sj_print::{Count, Output, PlainText, count};
use sj_text_core::WriteError;
use std::alloc::Global;

/// Where a text in quotes ends that needs no escape and begins there.
#[inline(always)]
fn quoted_end(begin: usize, plain: PlainText<'_>) -> Option<usize>
    ensures some { IfSome result (λ end. end ≡ begin + length (quoted plain.entry.text.now)) }
    ensures none { IfNone result (2 ^ 64 ≤ begin + length (quoted plain.entry.text.now)) }
{
    begin.checked_add(plain.text.len())?.checked_add(2)
}

/// The count with what the node adds to a compact print.
#[inline(always)]
fn count_node(count: Count, node: &Packed) -> Count
    ensures { Counts (mark_len (packed_mark node.now)) count result }
{
    match node.node() {
        Node::Static(scalar) => count.put_static(scalar),
        Node::String(text) => count.put_quoted(text),
        Node::Array { len, .. } => count.with_array(len),
        Node::Object { len, .. } => count.with_object(len),
    }
}

/// How many bytes there are with what the node adds to a compact print, behind so many.
#[inline(always)]
fn node_end(begin: usize, node: &Packed) -> Result<usize, WriteError>
    ensures ok { IfOk result (λ end. end ≡ begin + mark_len (packed_mark node.now)) }
    ensures err { OnErr result (2 ^ 64 ≤ begin + mark_len (packed_mark node.now)) }
    ensures why { IfErr result (λ e. e ≡ WriteError.TooLong) }
    ensures fits { OnOk result (begin + mark_len (packed_mark node.now) + 1 ≤ 2 ^ 64) }
{
    match node.plain() {
        Some(plain) => quoted_end(begin, plain).ok_or(WriteError::TooLong),
        None => count_node(Count::behind(begin), node).end(),
    }
}

/// How many bytes there are with the nodes' compact print, behind so many.
fn count_compact(nodes: &[Packed], before: usize) -> Result<usize, WriteError>
    ensures ok { IfOk result (λ n. n ≡ before + marks_len (packed_marks nodes.now)) }
    ensures err { OnErr result (2 ^ 64 ≤ before + marks_len (packed_marks nodes.now)) }
    ensures why { IfErr result (λ e. e ≡ WriteError.TooLong) }
    ensures fits { OnOk result (before + marks_len (packed_marks nodes.now) + 1 ≤ 2 ^ 64) }
{
    let mut end = before;
    for node in nodes {
        end = node_end(end, node)?;
    }
    Ok(end)
}

impl<'t, 'i> PackedTree<'t, 'i> {
    /// How many bytes there are with the print behind so many.
    pub(super) fn count(
        &self,
        pretty: bool,
        before: usize,
        alloc: Global,
    ) -> Result<usize, WriteError>
        ensures ok { IfOk result (λ n. n ≡ before + length (laid (top pretty) (packed_tree self.now))) }
        ensures err { OnErr result (2 ^ 64 ≤ before + length (laid (top pretty) (packed_tree self.now))) }
        ensures why { IfErr result (λ e. e ≡ WriteError.TooLong) }
        ensures fits { OnOk result (before + length (laid (top pretty) (packed_tree self.now)) + 1 ≤ 2 ^ 64) }
    {
        if pretty {
            count(self, pretty, before, alloc)
        } else {
            count_compact(self.nodes(), before)
        }
    }
}
