//! Documents of objects with repeats.

use super::owned;
use crate::plain::Plain;
use sj_document::{
    BorrowedValue, Document, Object, OwnedValue, borrowed_from_tape, owned_from_tape,
};
use sj_object::deserialize;
use sj_tape::{Node, Tape, Value, to_tape};
use sj_text_core::{Repeats, StaticNode, ValueObjectAccessAsScalar};
use std::alloc::Global;
use std::borrow::CowStr;
use std::test::Fail;

/// How many members there are, and which of them comes once more.
const REPEATS: [(usize, usize); 2] = [(32, 0), (40, 34)];

/// The keys `k00`, `k01` and so on.
fn numbered(alloc: Global, len: usize) -> Result<Vec<String>, Fail> {
    let mut keys = Vec::new(alloc);
    for i in 0..len {
        keys.push(format!(in alloc; "k{i:02}")?)?;
    }
    Ok(keys)
}

/// Whether the object has each key alone with its number; and its buckets.
fn holds(value: &OwnedValue, keys: &[String]) -> Option<Option<usize>> {
    let Document::Object(members) = value else {
        return None;
    };
    for (i, key) in keys.iter().enumerate() {
        match members.get(key.as_str()) {
            Some(Document::Static(StaticNode::U64(n))) if *n == i as u64 => {}
            _ => return None,
        }
    }
    if members.len() == keys.len() {
        Some(members.buckets())
    } else {
        None
    }
}

/// A tape of one object: the keys, each with its number, and then one of them with 99.
fn repeating<'i>(alloc: Global, keys: &'i [String], repeat: usize) -> Result<Tape<'i>, Fail> {
    let len = keys.len() + 1;
    let mut nodes = vec![in alloc;
        Node::Object {
            len,
            count: 2 * len
        },
    ]?;
    for (i, key) in keys.iter().enumerate() {
        nodes.push(Node::String(key.as_str()))?;
        nodes.push(Node::Static(StaticNode::U64(i as u64)))?;
    }
    let key = keys.get(repeat).ok_or("no such key")?;
    nodes.push(Node::String(key.as_str()))?;
    nodes.push(Node::Static(StaticNode::U64(99)))?;
    Ok(Tape::new(nodes)?)
}

/// Whether all keys of the borrowed document are lent.
fn lends_keys(alloc: Global, tape: &Tape<'_>) -> Result<bool, Fail> {
    let Some(members) = borrowed_from_tape(alloc, tape.as_value())?.into_object() else {
        return Ok(false);
    };
    Ok(members.keys().all(|key| matches!(key, CowStr::Borrowed(_))))
}

/// Whether the owned document of such a tape has the first members, and the borrowed one lends.
fn is_kept(alloc: Global, len: usize, repeat: usize) -> Result<[bool; 2], Fail> {
    let keys = numbered(alloc, len)?;
    let tape = repeating(alloc, keys.as_slice(), repeat)?;
    let value = owned_from_tape(alloc, tape.as_value())?;
    let held = holds(&value, keys.as_slice()).is_some();
    Ok([held, lends_keys(alloc, &tape)?])
}

#[test]
fn keeps_the_first_of_each_key(rt: HostRuntime) -> Result<(), Fail> {
    for &(len, repeat) in &REPEATS {
        assert!(rt; is_kept(rt.alloc(), len, repeat)? == [true; 2], "{len}");
    }
    Ok(())
}

/// The text of an object: the keys `k00`, `k01` and so on, each with its number, and then one of
/// them once more with 99.
fn text_with_repeat(alloc: Global, len: usize, repeat: usize) -> Result<String, Fail> {
    let mut text = String::from_str(alloc, "{")?;
    for i in 0..len {
        text.push_str(format!(in alloc; "\"k{i:02}\":{i},")?.as_str())?;
    }
    text.push_str(format!(in alloc; "\"k{repeat:02}\":99}}")?.as_str())?;
    Ok(text)
}

/// The buckets of the document of such a text, where it has the first members.
fn held(alloc: Global, len: usize, repeat: usize) -> Result<Option<Option<usize>>, Fail> {
    let text = text_with_repeat(alloc, len, repeat)?;
    let value = owned(alloc, text.as_str())?;
    let keys = numbered(alloc, len)?;
    Ok(holds(&value, keys.as_slice()))
}

/// How many members and nodes a tape's object has, and what `k00` and `k31` are.
fn looked(whole: Value<'_, '_>) -> Option<(usize, usize, [Option<u8>; 2])> {
    let len = whole.as_object()?.len();
    let found = [whole.get_u8("k00"), whole.get_u8("k31")];
    Some((len, whole.nodes().len(), found))
}

/// 33 members, the last a repeat of the first: on a tape all of them, by both choices.
#[test]
fn a_tape_has_all_members(rt: HostRuntime) -> Result<(), Fail> {
    let mut bytes = text_with_repeat(rt.alloc(), 32, 0)?.into_bytes();
    let tape = to_tape(rt.alloc(), bytes.as_mut_slice())?;
    let last = tape.as_value_repeats(Repeats::Last).get_u8("k00");
    let told = (looked(tape.as_value()), last);
    assert_eq!(rt; told, (Some((33, 67, [Some(0), Some(31)])), Some(99)));
    Ok(())
}

/// The same text as a borrowed document, and as one of another type, which have the first 32.
#[test]
fn other_documents_have_the_first_members(rt: HostRuntime) -> Result<(), Fail> {
    let mut lent = text_with_repeat(rt.alloc(), 32, 0)?.into_bytes();
    let mut read = text_with_repeat(rt.alloc(), 32, 0)?.into_bytes();
    let borrowed = deserialize::<BorrowedValue, CowStr>(rt.alloc(), lent.as_mut_slice())?;
    let members = borrowed.as_object().ok_or("an object")?;
    let told = (borrowed.get_u8("k00"), members.len(), members.buckets());
    assert_eq!(rt; told, (Some(0), 32, None));
    let plain = Plain::read(rt.alloc(), read.as_mut_slice())?;
    assert_eq!(rt; plain.numbers("k00"), Some((32, Some(0))));
    assert_eq!(rt; plain.numbers("k31"), Some((32, Some(31))));
    Ok(())
}

/// The text of an object: the keys `k00` to `k31`, each with its number, and then each once more
/// with 99.
fn text_of_each_twice(alloc: Global) -> Result<String, Fail> {
    let mut text = String::from_str(alloc, "{")?;
    for i in 0..32 {
        text.push_str(format!(in alloc; "\"k{i:02}\":{i},")?.as_str())?;
    }
    for i in 0..32 {
        let comma = if i == 0 { "" } else { "," };
        text.push_str(format!(in alloc; "{comma}\"k{i:02}\":99")?.as_str())?;
    }
    text.push_str("}")?;
    Ok(text)
}

/// How many members the tape of a text has, and the number of `k31`.
fn on_the_tape(alloc: Global, text: &str) -> Result<(Option<usize>, Option<u8>), Fail> {
    let mut bytes = text.as_bytes().to_vec(alloc)?;
    let tape = to_tape(alloc, bytes.as_mut_slice())?;
    let whole = tape.as_value();
    let len = whole.as_object().map(|members| members.len());
    Ok((len, whole.get_u8("k31")))
}

/// How many members and buckets the object has before and after the insert of `k32`.
fn grows(alloc: Global, members: &mut Object<String>) -> Result<[(usize, Option<usize>); 2], Fail> {
    let before = (members.len(), members.buckets());
    if members
        .insert(String::from_str(alloc, "k32")?, Document::null())?
        .is_some()
    {
        return Err("the key was there".into());
    }
    Ok([before, (members.len(), members.buckets())])
}

#[test]
fn keeps_the_first_where_each_key_comes_twice(rt: HostRuntime) -> Result<(), Fail> {
    let text = text_of_each_twice(rt.alloc())?;
    let tape = on_the_tape(rt.alloc(), text.as_str())?;
    let mut value = owned(rt.alloc(), text.as_str())?;
    let found = value.get_u8("k31");
    assert_eq!(rt; (tape, found), ((Some(64), Some(31)), Some(31)));
    let members = value.as_object_mut().ok_or("an object")?;
    assert_eq!(rt; grows(rt.alloc(), members)?, [(32, None), (33, Some(64))]);
    Ok(())
}
