//! Whether nodes are the preorder of one tree.

ghost use Rattle.std.specs.Prelude.{◌≡◌, ◌↔◌, ◌≤◌, ◌∷◌, ℕ, length, IsTrue, IfNone, IfSome};
ghost use Rattle.sj_text_core.specs.Nodes.{IsPreorder};
ghost use Rattle.sj_tape.specs.inner.Fronts.{BeginsTree, AllBegin, IsText, BeginsItems, BeginsMembers};
ghost use Rattle.sj_tape.specs.Marks.{mark, marks};

use crate::node::Node;

/// How many nodes the first `len` items have; None where there are fewer.
fn items_width(nodes: &[Node], len: usize) -> Option<usize>
    requires { AllBegin (marks nodes.now) }
    ensures none { IfNone result ((count : ℕ) → ¬ (BeginsItems len count (marks nodes.now))) }
    ensures some { IfSome result (λ count. BeginsItems len count (marks nodes.now)) }
{
    let mut at = 0;
    for _ in 0..len {
        if at >= nodes.len() {
            return None;
        }
        at += nodes[at].width();
    }
    Some(at)
}

fn is_text(node: Node) -> bool
    ensures { IsTrue result ↔ IsText (mark node.entry) }
{
    match node {
        Node::String(_) => true,
        Node::Static(_) | Node::Array { .. } | Node::Object { .. } => false,
    }
}

/// How many nodes the first `len` members have; None where there are fewer.
fn members_width(nodes: &[Node], len: usize) -> Option<usize>
    requires { AllBegin (marks nodes.now) }
    ensures none { IfNone result ((count : ℕ) → ¬ (BeginsMembers len count (marks nodes.now))) }
    ensures some { IfSome result (λ count. BeginsMembers len count (marks nodes.now)) }
{
    let mut at = 0;
    for _ in 0..len {
        if at + 1 >= nodes.len() || !is_text(nodes[at]) {
            return None;
        }
        at += 1 + nodes[at + 1].width();
    }
    Some(at)
}

/// Whether a tree begins at the first node, where one begins at every other node.
fn begins_tree(first: Node, others: &[Node]) -> bool
    requires { AllBegin (marks others.now) }
    ensures { IsTrue result ↔ BeginsTree (mark first.entry ∷ marks others.now) }
{
    match first {
        Node::Static(_) | Node::String(_) => true,
        Node::Array { len, count } => items_width(others, len) == Some(count),
        Node::Object { len, count } => members_width(others, len) == Some(count),
    }
}

/// Whether the nodes are the preorder of one tree. From the last node to the first, the `len`
/// children of each are passed over by their `count`: each node is passed over once.
pub(crate) fn is_preorder(nodes: &[Node]) -> bool
    ensures { IsTrue result ↔ IsPreorder (marks nodes.now) }
{
    for at in (0..nodes.len()).rev() {
        if !begins_tree(nodes[at], &nodes[at + 1..]) {
            return false;
        }
    }
    !nodes.is_empty() && nodes[0].width() == nodes.len()
}
