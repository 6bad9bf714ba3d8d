//! Nodes, put one behind another.

ghost use Rattle.std.specs.Prelude.{◌≡◌, ◌<◌, ◌++◌, ◌∷◌, [], length, set, OnOk, IfErr};
ghost use Rattle.std.specs.Vec.{vec_len, vec_capacity};
ghost use Rattle.sj_tape.specs.Marks.{mark, packed_mark, packed_marks};

use crate::node::Node;
use crate::packed::Packed;
use sj_text_core::ErrorKind;

/// Makes room for one more.
#[inline(never)]
fn grow(nodes: &mut Vec<Packed<'_>>) -> Result<(), ErrorKind>
    ensures items { nodes.new.items ≡ nodes.old.items }
    ensures room { OnOk result (vec_len nodes.new < vec_capacity nodes.new) }
    ensures err { IfErr result (λ e. e ≡ ErrorKind.OutOfMemory) }
{
    nodes.reserve(1)?;
    Ok(())
}

/// Puts a packed node at the end.
#[tactic(auto, using(crate::proofs::NodeMarks::marks_push))]
#[inline(always)]
pub(crate) fn push_packed<'i>(
    nodes: &mut Vec<Packed<'i>>,
    node: Packed<'i>,
) -> Result<(), ErrorKind>
    ensures marks { OnOk result (packed_marks nodes.new.items ≡ packed_marks nodes.old.items ++ packed_mark node.entry ∷ []) }
    ensures err { IfErr result (λ e. e ≡ ErrorKind.OutOfMemory) }
{
    if nodes.len() >= nodes.capacity() {
        grow(nodes)?;
    }
    nodes.push_reserved(node);
    Ok(())
}

/// Puts a node at the end.
#[inline(always)]
pub(crate) fn push_node<'i>(nodes: &mut Vec<Packed<'i>>, node: Node<'i>) -> Result<(), ErrorKind>
    ensures marks { OnOk result (packed_marks nodes.new.items ≡ packed_marks nodes.old.items ++ mark node.entry ∷ []) }
    ensures err { IfErr result (λ e. e ≡ ErrorKind.OutOfMemory) }
{
    push_packed(nodes, Packed::of(node))
}

/// How many nodes there are.
#[inline(always)]
pub(crate) fn count(nodes: &Vec<Packed<'_>>) -> usize
    ensures { result ≡ length (packed_marks nodes.now.items) }
{
    nodes.len()
}

/// Puts a node in the place of another.
#[inline(always)]
pub(crate) fn set_node<'i>(nodes: &mut Vec<Packed<'i>>, place: usize, node: Node<'i>)
    requires { place < length (packed_marks nodes.old.items) }
    ensures { packed_marks nodes.new.items ≡ set (packed_marks nodes.old.items) place (mark node.entry) }
{
    nodes[place] = Packed::of(node);
}
