mod bare;
mod comparisons;
mod large;
mod prints;
mod reader;
mod reads;
mod values;

use sj_tape::{Array, Node, Object, Tape, Value};
use sj_text_core::ValueAsScalar;
use std::alloc::Global;
use std::test::Fail;

/// The number of what was found.
fn number_of(found: Option<Value<'_, '_>>) -> Option<u128> {
    match found {
        Some(value) => value.as_u128(),
        None => None,
    }
}

/// The tape of the nodes.
fn tape_of<'i>(alloc: Global, nodes: &[Node<'i>]) -> Result<Tape<'i>, Fail> {
    Ok(Tape::new(nodes.to_vec(alloc)?)?)
}

/// A tape of 1025 arrays, one in the other.
fn nested_arrays(alloc: Global) -> Result<Tape<'static>, Fail> {
    let mut nodes = Vec::new(alloc);
    for count in (0..1025).rev() {
        let len = usize::min(count, 1);
        nodes.push(Node::Array { len, count })?;
    }
    Ok(Tape::new(nodes)?)
}

/// Whether the array has these items, one after another and by their places.
fn has_items(array: Option<Array<'_, '_>>, wanted: &[Option<u8>]) -> bool {
    let Some(array) = array else {
        return wanted.is_empty();
    };
    let mut items = array.iter();
    for (i, number) in wanted.iter().enumerate() {
        let found = match array.get(i) {
            Some(item) => item.as_u8(),
            None => None,
        };
        match items.next() {
            Some(item) if item.as_u8() == *number && found == *number => {}
            _ => return false,
        }
    }
    items.next().is_none() && array.len() == wanted.len() && array.get(wanted.len()).is_none()
}

/// Whether the object has these members in order, and no others.
fn has_members(object: Object<'_, '_>, wanted: &[(&str, Option<u128>)]) -> bool {
    let mut members = object.iter();
    for (name, number) in wanted {
        match members.next() {
            Some((key, value)) if *name == key && *number == value.as_u128() => {}
            _ => return false,
        }
    }
    members.next().is_none() && object.len() == wanted.len() && !object.is_empty()
}

/// Whether its keys and values, each for themselves, are these.
fn lists_members(object: Object<'_, '_>, wanted: &[(&str, Option<u128>)]) -> bool {
    let (mut keys, mut values) = (object.keys(), object.values());
    for (name, number) in wanted {
        match (keys.next(), values.next()) {
            (Some(key), Some(value)) if *name == key && *number == value.as_u128() => {}
            _ => return false,
        }
    }
    keys.next().is_none() && values.next().is_none()
}
