//! Tapes made of lists of nodes, and reads of their parts.

ghost use Rattle.std.specs.Prelude.{◌≡◌, ◌<◌};

use super::{has_items, has_members, lists_members, number_of, tape_of};
use sj_tape::{Array, Node, Tape, Value, Writable, to_tape};
use sj_text_core::{StaticNode, Steps, ValueAsScalar};
use std::alloc::Global;
use std::marker::Brand;
use std::sync::ledger::{Blank, Ledger};
use std::test::Fail;

const NULL: Node<'static> = Node::Static(StaticNode::Null);

const KEY: Node<'static> = Node::String("k");

fn number(n: u64) -> Node<'static> {
    Node::Static(StaticNode::U64(n))
}

fn array(len: usize, count: usize) -> Node<'static> {
    Node::Array { len, count }
}

fn object(len: usize, count: usize) -> Node<'static> {
    Node::Object { len, count }
}

/// What the tape of the list prints; None where the list is refused, and comes back.
fn printed(alloc: Global, nodes: &[Node<'_>]) -> Result<Option<String>, Fail> {
    match Tape::new(nodes.to_vec(alloc)?) {
        Ok(tape) => Ok(Some(tape.as_value().encode(alloc)?)),
        Err(refused) => {
            let given = format!(in alloc; "{nodes:?}")?;
            let back = format!(in alloc; "{:?}", refused.value)?;
            if back.as_str() == given.as_str() {
                Ok(None)
            } else {
                Err("another list came back".into())
            }
        }
    }
}

#[test]
fn preorders_alone_are_accepted(rt: HostRuntime) -> Result<(), Fail> {
    let most = usize::MAX;
    let lists: [(&[Node], Option<&str>); 16] = [
        (&[array(2, 1), NULL], None),
        (&[object(1, 1), KEY], None),
        (&[], None),
        (&[NULL, NULL], None),
        (&[array(1, 1), NULL], Some("[null]")),
        (&[array(0, 0), NULL], None),
        (&[array(0, 1), NULL], None),
        (&[array(1, 2), NULL], None),
        (&[array(1, 1), array(0, 1)], None),
        (&[array(2, 3), array(1, 2), NULL, NULL], None),
        (&[array(1, 3), array(1, 1), NULL, NULL], None),
        (&[object(1, 2), NULL, NULL], None),
        (&[array(most, most)], None),
        (&[object(most, most)], None),
        (
            &[array(2, 3), array(1, 1), NULL, NULL],
            Some("[[null],null]"),
        ),
        (&[object(1, 2), KEY, NULL], Some("{\"k\":null}")),
    ];
    for &(nodes, wanted) in &lists {
        let told = printed(rt.alloc(), nodes)?;
        let print = told.as_ref().map(|print| print.as_str());
        assert!(rt; print == wanted, "{nodes:?}");
    }
    Ok(())
}

/// Whether look-ups in {"x":{"k":1},"k":2,"x":3} find the first member of each key.
fn finds_members(whole: Value<'_, '_>) -> Option<[bool; 7]> {
    let inner = whole.get("x")?;
    let object = whole.as_object()?;
    let wanted = [("x", None), ("k", Some(2)), ("x", Some(3))];
    Some([
        number_of(whole.get("k")) == Some(2),
        number_of(inner.get("k")) == Some(1),
        !inner.contains_key("x"),
        whole.contains_key("x"),
        whole.as_array().is_none(),
        has_members(object, &wanted),
        lists_members(object, &wanted),
    ])
}

/// On a tape of nodes, and on one that was read.
#[test]
fn members(rt: HostRuntime) -> Result<(), Fail> {
    let x = Node::String("x");
    let nodes = [
        object(3, 8),
        x,
        object(1, 2),
        KEY,
        number(1),
        KEY,
        number(2),
        x,
        number(3),
    ];
    let made = tape_of(rt.alloc(), &nodes)?;
    let mut bytes = *b"{\"x\":{\"k\":1},\"k\":2,\"x\":3}";
    let read = to_tape(rt.alloc(), &mut bytes)?;
    assert_eq!(rt; finds_members(made.as_value()), Some([true; 7]));
    assert_eq!(rt; finds_members(read.as_value()), Some([true; 7]));
    Ok(())
}

/// Whether look-ups in [1,[2,3],4] find its items.
fn finds_items(whole: Value<'_, '_>) -> Option<[bool; 3]> {
    let inner = whole.get_idx(1)?;
    Some([
        has_items(whole.as_array(), &[Some(1), None, Some(4)]),
        number_of(inner.get_idx(1)) == Some(3),
        whole.as_object().is_none(),
    ])
}

#[test]
fn items(rt: HostRuntime) -> Result<(), Fail> {
    let nodes = [
        array(3, 5),
        number(1),
        array(2, 2),
        number(2),
        number(3),
        number(4),
    ];
    let tape = tape_of(rt.alloc(), &nodes)?;
    assert_eq!(rt; finds_items(tape.as_value()), Some([true; 3]));
    Ok(())
}

/// What counted lookups find.
fn counted<L: Ledger>(tape: &Tape<'_>, blank: Blank) -> [Option<u128>; 3]
    requires name { blank.name ≡ L.name }
    requires parts { blank.parts ≡ L.parts }
    requires some { 0 < L.parts }
{
    let mut steps = Steps::<L>::new(blank);
    let whole = tape.as_value();
    let first = number_of(whole.get_steps("k", &mut steps));
    let second = number_of(whole.get_steps("y", &mut steps));
    let third = number_of(Value::null().get_steps("k", &mut steps));
    [first, second, third]
}

#[test]
fn counted_lookups(rt: HostRuntime) -> Result<(), Fail> {
    let nodes = [object(2, 4), Node::String("x"), number(1), KEY, number(2)];
    let tape = tape_of(rt.alloc(), &nodes)?;
    assert_eq!(rt;
        counted::<Brand>(&tape, Blank::new(1)),
        [Some(2), None, None]
    );
    Ok(())
}
