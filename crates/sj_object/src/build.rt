//! The document of a part of a tape: a loop over the nodes from the last to the first makes each
//! container. A scalar or a text is made where its container takes it; the containers behind wait
//! on a pile, the nearest on top.

ghost use Rattle.std.specs.Prelude.{◌≡◌, ◌<◌, ◌∷◌, ◌++◌, [], length, map, IfOk, OnOk, All};
ghost use Rattle.sj_text_core.specs.Nodes.{tree_of, width, IsPreorder};
ghost use Rattle.sj_text_core.specs.Repeats.{keep_by};
ghost use Rattle.sj_tape.specs.Marks.{mark};
ghost use Rattle.sj_tape.specs.Stretches.{nodes_in};
ghost use Rattle.sj_tape.specs.Value.{tape_tree, tape_choice};
ghost use Rattle.sj_object.specs.Builder.{AreMade};
ghost use Rattle.sj_object.specs.inner.Piles.{pile, first_mark, made_of, left_of, IsThere, CanTake, CanTakeItems, CanTakePairs, taken, trees_left, taken_pairs, left_pairs, kept_pairs, kept_by, put_pair, entry_pairs, Needs, grown};

use crate::builder::{Builder, Made, MapOf};
use crate::key::KeyOf;
use sj_tape::{Node, Nodes, Value};
use sj_text_core::Repeats;
use std::alloc::{AllocError, Global};

/// Takes the top off the pile.
fn take_top<V>(made: &mut Vec<V>) -> V
    requires { 0 < length made.old.items }
    ensures { made.old.items ≡ made.new.items ++ result ∷ [] }
{
    let Some(value) = made.pop() else {
        unreachable!();
    };
    value
}

/// The value of the tree that begins with the node: a container's is taken off the pile.
#[inline(always)]
fn take_value<'de, V: Builder<'de, Key>, Key: KeyOf<'de>>(
    alloc: Global,
    made: &mut Vec<V>,
    node: Node<'de>,
) -> Result<V, AllocError>
    requires { IsThere (mark node) (pile V.tree made.old.items) }
    ensures means { IfOk result (λ v. V.tree v ≡ made_of (mark node.entry) (pile V.tree made.old.items)) }
    ensures rest { OnOk result (pile V.tree made.new.items ≡ left_of (mark node.entry) (pile V.tree made.old.items)) }
    ensures property { All V.built made.old.items → IfOk result (λ v. V.built v × All V.built made.new.items) }
{
    match node {
        Node::Static(scalar) => Ok(V::from_static(scalar)),
        Node::String(text) => V::from_text(alloc, text),
        Node::Array { .. } => Ok(take_top(made)),
        Node::Object { .. } => Ok(take_top(made)),
    }
}

/// Takes the value off the pile of the tree that begins with the node, where it lies there.
fn skip_value<'de, V: Builder<'de, Key>, Key: KeyOf<'de>>(made: &mut Vec<V>, node: Node<'de>)
    requires { IsThere (mark node) (pile V.tree made.old.items) }
    ensures rest { pile V.tree made.new.items ≡ left_of (mark node.entry) (pile V.tree made.old.items) }
    ensures property { All V.built made.old.items → All V.built made.new.items }
{
    match node {
        Node::Static(_) | Node::String(_) => {}
        Node::Array { .. } => drop(take_top(made)),
        Node::Object { .. } => drop(take_top(made)),
    }
}

/// The items of an array, whose nodes stand first.
fn take_items<'de, V: Builder<'de, Key>, Key: KeyOf<'de>>(
    alloc: Global,
    made: &mut Vec<V>,
    nodes: Nodes<'_, 'de>,
    len: usize,
) -> Result<Vec<V>, AllocError>
    requires { CanTakeItems len (nodes_in nodes) (pile V.tree made.old.items) }
    ensures means { IfOk result (λ vs. map V.tree vs.items ≡ taken len (nodes_in nodes.entry) (pile V.tree made.old.items)) }
    ensures rest { OnOk result (pile V.tree made.new.items ≡ trees_left len (nodes_in nodes.entry) (pile V.tree made.old.items)) }
    ensures property { All V.built made.old.items → IfOk result (λ vs. All V.built vs.items × All V.built made.new.items) }
{
    let mut items = Vec::with_capacity(alloc, len)?;
    let mut at = 0;
    for i in 0..len {
        let node = nodes.at(at);
        items.push(take_value::<V, Key>(alloc, made, node)?)?;
        at += node.width();
    }
    Ok(items)
}

/// The members of an object, whose nodes stand first; of each key the one that counts stays.
fn take_members<'de, V: Builder<'de, Key>, Key: KeyOf<'de>>(
    alloc: Global,
    made: &mut Vec<V>,
    nodes: Nodes<'_, 'de>,
    len: usize,
    repeats: Repeats,
) -> Result<V::Map, AllocError>
    requires { CanTakePairs len (nodes_in nodes) (pile V.tree made.old.items) }
    ensures means { IfOk result (λ m. entry_pairs V.tree (V.Map.entries m) ≡ kept_by repeats [] (taken_pairs len (nodes_in nodes.entry) (pile V.tree made.old.items))) }
    ensures rest { OnOk result (pile V.tree made.new.items ≡ left_pairs len (nodes_in nodes.entry) (pile V.tree made.old.items)) }
    ensures property { All V.built made.old.items → IfOk result (λ m. AreMade Key.is_made V.built (V.Map.entries m) × All V.built made.new.items) }
{
    let mut members = V::Map::with_capacity(alloc, len)?;
    let mut at = 0;
    for i in 0..len {
        let Some(text) = nodes.text_at(at) else {
            unreachable!();
        };
        let behind = nodes.from(at + 1);
        let width = put_member::<V, Key>(alloc, &mut members, made, text, behind, repeats)?;
        at += 1 + width;
    }
    Ok(members)
}

/// Adds the member of that key whose value's nodes stand first, and answers how many they are;
/// where its key is there, the one that counts stays.
#[inline(always)]
fn put_member<'de, V: Builder<'de, Key>, Key: KeyOf<'de>>(
    alloc: Global,
    members: &mut V::Map,
    made: &mut Vec<V>,
    text: &'de str,
    nodes: Nodes<'_, 'de>,
    repeats: Repeats,
) -> Result<usize, AllocError>
    requires { CanTake (nodes_in nodes) (pile V.tree made.old.items) }
    ensures means { OnOk result (entry_pairs V.tree (V.Map.entries members.new) ≡ kept_by repeats (entry_pairs V.tree (V.Map.entries members.old)) ((text.now, made_of (first_mark (nodes_in nodes.entry)) (pile V.tree made.old.items)) ∷ [])) }
    ensures rest { OnOk result (pile V.tree made.new.items ≡ left_of (first_mark (nodes_in nodes.entry)) (pile V.tree made.old.items)) }
    ensures width { IfOk result (λ w. w ≡ width (first_mark (nodes_in nodes.entry))) }
    ensures property { AreMade Key.is_made V.built (V.Map.entries members.old) → All V.built made.old.items → OnOk result (AreMade Key.is_made V.built (V.Map.entries members.new) × All V.built made.new.items) }
{
    match repeats {
        Repeats::First => add_member::<V, Key>(alloc, members, made, text, nodes),
        Repeats::Last => set_member::<V, Key>(alloc, members, made, text, nodes),
    }
}

/// Adds a member, unless its key is there. The node is read behind the search: what is then done
/// with it is told from its kind once.
#[inline(always)]
fn add_member<'de, V: Builder<'de, Key>, Key: KeyOf<'de>>(
    alloc: Global,
    members: &mut V::Map,
    made: &mut Vec<V>,
    text: &'de str,
    nodes: Nodes<'_, 'de>,
) -> Result<usize, AllocError>
    requires { CanTake (nodes_in nodes) (pile V.tree made.old.items) }
    ensures means { OnOk result (entry_pairs V.tree (V.Map.entries members.new) ≡ kept_pairs (entry_pairs V.tree (V.Map.entries members.old)) ((text.now, made_of (first_mark (nodes_in nodes.entry)) (pile V.tree made.old.items)) ∷ [])) }
    ensures rest { OnOk result (pile V.tree made.new.items ≡ left_of (first_mark (nodes_in nodes.entry)) (pile V.tree made.old.items)) }
    ensures width { IfOk result (λ w. w ≡ width (first_mark (nodes_in nodes.entry))) }
    ensures property { AreMade Key.is_made V.built (V.Map.entries members.old) → All V.built made.old.items → OnOk result (AreMade Key.is_made V.built (V.Map.entries members.new) × All V.built made.new.items) }
{
    let hash = members.hash_for(text);
    if members.has_hashed(hash, text) {
        let node = nodes.at(0);
        skip_value::<V, Key>(made, node);
        return Ok(node.width());
    }
    let key = Key::of(alloc, text)?;
    let node = nodes.at(0);
    let value = take_value::<V, Key>(alloc, made, node)?;
    members.add_hashed(hash, key, value)?;
    Ok(node.width())
}

/// Sets the value of a member.
fn set_member<'de, V: Builder<'de, Key>, Key: KeyOf<'de>>(
    alloc: Global,
    members: &mut V::Map,
    made: &mut Vec<V>,
    text: &'de str,
    nodes: Nodes<'_, 'de>,
) -> Result<usize, AllocError>
    requires { CanTake (nodes_in nodes) (pile V.tree made.old.items) }
    ensures means { OnOk result (entry_pairs V.tree (V.Map.entries members.new) ≡ put_pair text.now (made_of (first_mark (nodes_in nodes.entry)) (pile V.tree made.old.items)) (entry_pairs V.tree (V.Map.entries members.old))) }
    ensures rest { OnOk result (pile V.tree made.new.items ≡ left_of (first_mark (nodes_in nodes.entry)) (pile V.tree made.old.items)) }
    ensures width { IfOk result (λ w. w ≡ width (first_mark (nodes_in nodes.entry))) }
    ensures property { AreMade Key.is_made V.built (V.Map.entries members.old) → All V.built made.old.items → OnOk result (AreMade Key.is_made V.built (V.Map.entries members.new) × All V.built made.new.items) }
{
    let key = Key::of(alloc, text)?;
    let node = nodes.at(0);
    let value = take_value::<V, Key>(alloc, made, node)?;
    members.set(key, value)?;
    Ok(node.width())
}

/// Puts the container on the pile that begins with the first node, where it is one.
fn put<'de, V: Builder<'de, Key>, Key: KeyOf<'de>>(
    alloc: Global,
    made: &mut Vec<V>,
    nodes: Nodes<'_, 'de>,
    repeats: Repeats,
) -> Result<(), AllocError>
    requires { Needs (nodes_in nodes) (pile V.tree made.old.items) }
    ensures means { OnOk result (pile V.tree made.new.items ≡ grown repeats (nodes_in nodes.entry) (pile V.tree made.old.items)) }
    ensures property { All V.built made.old.items → OnOk result (All V.built made.new.items) }
{
    match nodes.at(0) {
        Node::Static(_) | Node::String(_) => Ok(()),
        Node::Array { len, .. } => {
            let items = take_items::<V, Key>(alloc, made, nodes.from(1), len)?;
            made.push(V::from_vec(alloc, items)?)?;
            Ok(())
        }
        Node::Object { len, .. } => {
            let members = take_members::<V, Key>(alloc, made, nodes.from(1), len, repeats)?;
            made.push(V::from_map(alloc, members)?)?;
            Ok(())
        }
    }
}

/// The value that the nodes are.
fn build<'de, V: Builder<'de, Key>, Key: KeyOf<'de>>(
    alloc: Global,
    nodes: Nodes<'_, 'de>,
    repeats: Repeats,
) -> Result<V, AllocError>
    requires { IsPreorder (nodes_in nodes) }
    ensures means { IfOk result (λ v. V.tree v ≡ keep_by repeats (tree_of (nodes_in nodes.entry))) }
    ensures property { IfOk result V.built }
{
    let mut made = Vec::new(alloc);
    let mut at = nodes.len();
    // Why so: docs/REFUSED.md, "A function under a bound that names a lifetime".
    while at > 0 {
        at -= 1;
        put::<V, Key>(alloc, &mut made, nodes.from(at), repeats)?;
    }
    take_value::<V, Key>(alloc, &mut made, nodes.at(0))
}

/// The document of a part of a tape: of each key the member that counts in the part stays, in the
/// place of the first.
pub fn build_from_tape<'de, V: Builder<'de, Key>, Key: KeyOf<'de>>(
    alloc: Global,
    value: Value<'_, 'de>,
) -> Result<V, AllocError>
    ensures means { IfOk result (λ v. V.tree v ≡ keep_by (tape_choice value.entry) (tape_tree value.entry)) }
    ensures property { IfOk result V.built }
{
    build::<V, Key>(alloc, value.nodes(), value.repeats())
}
