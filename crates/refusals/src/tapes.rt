//! Tapes of nodes, which ask for no memory, and readings of tapes with many items or members.

use refusals_common::{Fault, say, say_call, text_of};
use sj_tape::{ErrorKind, Node, Tape, Value, to_tape};
use sj_text_core::{StaticNode, ValueObjectAccessAsScalar};

/// Makes a tape of nodes, or reads one of a text.
pub fn call(rt: &(impl Print + AllocGlobal), call: &str) -> Result<(), Fault> {
    match call {
        "new" => make(rt),
        "items" => read_many(rt, "items"),
        "members" => read_many(rt, "members"),
        _ => Err(Fault::Usage),
    }
}

/// Makes a tape of the nodes of `[null]`, and none of the same list without its last node.
fn make(rt: &(impl Print + AllocGlobal)) -> Result<(), Fault> {
    let array = Node::Array { len: 1, count: 1 };
    let nodes = vec![in rt.alloc(); array, Node::Static(StaticNode::Null)]?;
    let short = vec![in rt.alloc(); array]?;
    say_call(rt)?;
    let is_made = Tape::new(nodes).is_ok();
    let is_back = match Tape::new(short) {
        Ok(_) => false,
        Err(refused) => refused.value.as_slice() == [array].as_slice(),
    };
    say(
        rt,
        if is_made && is_back {
            "made, and refused\n"
        } else {
            "NOT MADE\n"
        },
    )
}

/// Reads the text of that name twice, each time from a fresh copy, and looks each part up.
fn read_many(rt: &(impl Print + AllocGlobal), text: &str) -> Result<(), Fault> {
    let alloc = rt.alloc();
    let mut bytes = text_of(alloc, text)?;
    let mut copy = text_of(alloc, text)?;
    say_call(rt)?;
    tell_many(rt, to_tape(alloc, bytes.as_mut_slice()))?;
    say(rt, "again ")?;
    tell_many(rt, to_tape(alloc, copy.as_mut_slice()))
}

/// Tells whether the tape has 300 items or 1,024 members, of which each is found with its number.
fn tell_many(
    rt: &(impl Print + AllocGlobal),
    read: Result<Tape<'_>, ErrorKind>,
) -> Result<(), Fault> {
    match read {
        Ok(tape) => {
            let value = tape.as_value();
            let is_found = found_items(value) == 300 || found_members(value) == 1024;
            say(rt, if is_found { "found\n" } else { "NOT FOUND\n" })
        }
        Err(ErrorKind::OutOfMemory) => say(rt, "OutOfMemory\n"),
        Err(_) => say(rt, "ANOTHER FAULT\n"),
    }
}

/// How many items of an array have their position as the member `n`, up to one that has not.
fn found_items(value: Value<'_, '_>) -> usize {
    let Some(array) = value.as_array() else {
        return 0;
    };
    for i in 0..array.len() {
        match value.get_idx(i) {
            Some(item) if item.get_usize("n") == Some(i) => {}
            _ => return i,
        }
    }
    array.len()
}

/// How many members of an object have their position as the member `n`, up to one that has not.
fn found_members(value: Value<'_, '_>) -> usize {
    let Some(object) = value.as_object() else {
        return 0;
    };
    let mut found = 0;
    for key in object.keys() {
        match value.get(key) {
            Some(member) if member.get_usize("n") == Some(found) => found = found.saturating_add(1),
            _ => return found,
        }
    }
    found
}
