//! Look-ups by key in tapes of objects, of one case alone.

use crate::objects::{Outline, Shape};
use sj_tape::{Node, Repeats, Tape, Value, to_tape};
use std::alloc::{AllocError, Global};
use std::io;

/// The key that is looked up.
#[derive(Clone, Copy, Debug)]
enum Key {
    First,
    Last,
    Absent,
}

impl Key {
    fn named(name: &str) -> Option<Key> {
        match name {
            "first" => Some(Key::First),
            "last" => Some(Key::Last),
            "absent" => Some(Key::Absent),
            _ => None,
        }
    }

    /// The number of the member with that key.
    fn number(self, members: usize) -> usize {
        match self {
            Key::First => 0,
            Key::Last => members.wrapping_sub(1),
            Key::Absent => members.wrapping_add(7),
        }
    }
}

/// Whose nodes are looked up in.
#[derive(Clone, Copy, Debug)]
enum Form {
    /// Those of a reading.
    Packed,
    /// The same one by one, as a caller makes them.
    Plain,
}

impl Form {
    fn named(name: &str) -> Option<Form> {
        match name {
            "packed" => Some(Form::Packed),
            "plain" => Some(Form::Plain),
            _ => None,
        }
    }
}

fn choice_named(name: &str) -> Option<Repeats> {
    match name {
        "first" => Some(Repeats::First),
        "last" => Some(Repeats::Last),
        _ => None,
    }
}

/// One kind of look-up.
#[derive(Clone, Copy, Debug)]
struct Case {
    outline: Outline,
    key: Key,
    choice: Repeats,
    form: Form,
}

impl Case {
    /// The case with these words: the shape, the members, the length of a key, the key, the choice
    /// and the form.
    fn of(words: &[String]) -> Option<Case> {
        let [shape, members, key_len, key, choice, form] = words else {
            return None;
        };
        Some(Case {
            outline: Outline {
                shape: Shape::named(shape.as_str())?,
                members: members.as_str().parse::<usize>().ok()?,
                key_len: key_len.as_str().parse::<usize>().ok()?,
            },
            key: Key::named(key.as_str())?,
            choice: choice_named(choice.as_str())?,
            form: Form::named(form.as_str())?,
        })
    }
}

/// The nodes, one by one.
fn nodes_of<'i>(alloc: Global, value: Value<'_, 'i>) -> Result<Vec<Node<'i>>, AllocError> {
    let nodes = value.nodes();
    let mut made = Vec::with_capacity(alloc, nodes.len())?;
    for place in 0..nodes.len() {
        made.push(nodes.at(place))?;
    }
    Ok(made)
}

/// The text's tape; None where it is refused.
fn tape_of<'i>(alloc: Global, text: &'i mut [u8], form: Form) -> io::Result<Option<Tape<'i>>> {
    let Ok(tape) = to_tape(alloc, text) else {
        return Ok(None);
    };
    match form {
        Form::Packed => Ok(Some(tape)),
        Form::Plain => Ok(Tape::new(nodes_of(alloc, tape.as_value())?).ok()),
    }
}

/// How many of so many look-ups find a member, and the nodes of what they find. The keys are equal,
/// and stand at two places, so that no look-up is that before it.
#[inline(never)]
fn look_up(value: Value<'_, '_>, keys: [&str; 2], count: usize) -> (usize, usize) {
    let mut found = 0usize;
    let mut nodes = 0usize;
    for i in 0..count {
        if let Some(part) = value.get(keys[i % 2]) {
            found = found.wrapping_add(1);
            nodes = nodes.wrapping_add(part.nodes().len());
        }
    }
    (found, nodes)
}

/// The key twice.
fn keys_of(alloc: Global, outline: Outline, key: Key) -> Result<[String; 2], AllocError> {
    let number = key.number(outline.members);
    Ok([outline.key(alloc, number)?, outline.key(alloc, number)?])
}

/// Makes so many look-ups of one case, and prints what they find.
fn tell_one(rt: &HostRuntime, case: &Case, count: usize) -> io::Result<()> {
    let alloc = rt.alloc();
    let mut text = case.outline.text(alloc)?;
    let Some(tape) = tape_of(alloc, text.as_mut_slice(), case.form)? else {
        return println!(rt; "refused");
    };
    let keys = keys_of(alloc, case.outline, case.key)?;
    let value = tape.as_value_repeats(case.choice);
    let (found, nodes) = look_up(value, [keys[0].as_str(), keys[1].as_str()], count);
    println!(rt; "{found} found, of {nodes} nodes")
}

/// So many look-ups of the case that the words name.
pub fn report(rt: &HostRuntime, words: &[String]) -> io::Result<()> {
    match words {
        [] => Ok(()),
        [case @ .., count] => match Case::of(case) {
            Some(case) => tell_one(rt, &case, count.as_str().parse::<usize>().unwrap_or(0)),
            None => println!(rt; "no such case"),
        },
    }
}
