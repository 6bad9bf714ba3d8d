//! Inserts into the object of a borrowed document, by a text and by a known key that owns its text,
//! and what such a key puts in the place of a value.
//! The members are `k00` with 0, `k01` with 1 and so on.

use crate::maps::{buckets_at, count_of, key_of};
use refusals_common::{Fault, say, say_call, say_kept};
use sj_borrowed::known_key::Error;
use sj_borrowed::{AccessError, KnownKey, Object, Refused, SameAs, StaticNode, Value};
use sj_document::Replace;
use std::alloc::{AllocError, Global};
use std::borrow::CowStr;

/// A call that inserts.
#[derive(Clone, Copy, PartialEq, Eq)]
enum Call {
    Insert,
    Known,
    LookupOrInsert,
    MapInsert,
    MapLookupOrInsert,
    Replace,
    Change,
    ChangeOrInsert,
}

impl Call {
    fn of(word: &str) -> Result<Call, Fault> {
        match word {
            "insert" => Ok(Call::Insert),
            "known_insert" => Ok(Call::Known),
            "lookup_or_insert" => Ok(Call::LookupOrInsert),
            "map_insert" => Ok(Call::MapInsert),
            "map_lookup_or_insert" => Ok(Call::MapLookupOrInsert),
            "replace" => Ok(Call::Replace),
            "change" => Ok(Call::Change),
            "change_or_insert" => Ok(Call::ChangeOrInsert),
            _ => Err(Fault::Usage),
        }
    }
}

/// What a call that inserts answered.
#[derive(Drop)]
enum Answer {
    Inserted,
    /// The number that was there.
    There(u64),
    /// Want of memory; whether the value came back, or its closure was not called.
    OutOfMemory(bool),
    /// Another answer than these.
    Other,
}

fn number<'v>(number: u64) -> Value<'v> {
    Value::Static(StaticNode::U64(number))
}

/// The number that a value is.
fn number_of(value: &Value<'_>) -> Option<u64> {
    match value {
        Value::Static(StaticNode::U64(number)) => Some(*number),
        _ => None,
    }
}

fn answer_of(before: Option<Value<'_>>) -> Answer {
    match before {
        None => Answer::Inserted,
        Some(value) => match number_of(&value) {
            Some(number) => Answer::There(number),
            None => Answer::Other,
        },
    }
}

/// What a call that calls a closure for an absent key answered: the number of the value that it
/// lent, or whether it was refused for want of memory.
fn answer_made(found: Result<Option<u64>, bool>, is_made: bool) -> Answer {
    match found {
        Ok(Some(_)) if is_made => Answer::Inserted,
        Ok(Some(number)) => Answer::There(number),
        Err(true) => Answer::OutOfMemory(!is_made),
        _ => Answer::Other,
    }
}

fn insert(document: &mut Value<'static>, text: String, new: u64) -> Answer {
    match document.insert(CowStr::Owned(text), number(new)) {
        Ok(before) => answer_of(before),
        Err(refused) => {
            if refused.why == AccessError::OutOfMemory {
                Answer::OutOfMemory(refused.value.same_as(&new))
            } else {
                Answer::Other
            }
        }
    }
}

fn known_insert(document: &mut Value<'static>, key: &KnownKey<'static>, new: u64) -> Answer {
    match key.insert(document, number(new)) {
        Ok(before) => answer_of(before),
        Err(refused) => {
            if refused.why == Error::OutOfMemory {
                Answer::OutOfMemory(refused.value.same_as(&new))
            } else {
                Answer::Other
            }
        }
    }
}

fn lookup_or_insert<'v>(document: &mut Value<'v>, key: &KnownKey<'v>, new: u64) -> Answer {
    let mut is_made = false;
    let found = match KnownKey::lookup_or_insert_mut(document, key, || {
        is_made = true;
        number(new)
    }) {
        Ok(value) => Ok(number_of(value)),
        Err(why) => Err(why == Error::OutOfMemory),
    };
    answer_made(found, is_made)
}

fn replace(members: &mut Object<'static>, key: &KnownKey<'static>, new: u64) -> Answer {
    match KnownKey::replace(members, key, number(new)) {
        Ok(before) => answer_of(Some(before)),
        Err(_) => Answer::Other,
    }
}

fn change(document: &mut Value<'static>, key: &KnownKey<'static>, new: u64) -> Answer {
    match KnownKey::change(document, key, Replace { value: number(new) }) {
        Ok(before) => answer_of(Some(before)),
        Err(_) => Answer::Other,
    }
}

/// A key that is absent goes last with a number that no member has, which the change then replaces.
fn change_or_insert(document: &mut Value<'static>, key: &KnownKey<'static>, new: u64) -> Answer {
    let change = Replace { value: number(new) };
    match KnownKey::change_or_insert(document, key, number(u64::MAX), change) {
        Ok(before) => match number_of(&before) {
            Some(u64::MAX) => Answer::Inserted,
            Some(number) => Answer::There(number),
            None => Answer::Other,
        },
        Err(refused) => {
            let (value, change) = refused.value;
            if refused.why == Error::OutOfMemory {
                Answer::OutOfMemory(value.same_as(&u64::MAX) && change.value.same_as(&new))
            } else {
                Answer::Other
            }
        }
    }
}

fn map_insert(members: &mut Object<'static>, key: &KnownKey<'static>, new: u64) -> Answer {
    match key.map_insert(members, number(new)) {
        Ok(before) => answer_of(before),
        Err(refused) => Answer::OutOfMemory(refused.value.same_as(&new)),
    }
}

fn map_lookup_or_insert(
    members: &mut Object<'static>,
    key: &KnownKey<'static>,
    new: u64,
) -> Answer {
    let mut is_made = false;
    let found = match KnownKey::map_lookup_or_insert_mut(members, key, || {
        is_made = true;
        number(new)
    }) {
        Ok(value) => Ok(number_of(value)),
        Err(AllocError) => Err(true),
    };
    answer_made(found, is_made)
}

/// A key that an insert is made with.
#[derive(Drop)]
struct Key {
    text: String,
    known: KnownKey<'static>,
}

fn keyed(alloc: Global, place: u64) -> Result<Key, AllocError> {
    Ok(Key {
        text: key_of(alloc, place)?,
        known: KnownKey::from(key_of(alloc, place)?),
    })
}

fn insert_by(call: Call, document: &mut Value<'static>, key: Key, new: u64) -> Answer {
    let Key { text, known } = key;
    match call {
        Call::Insert => insert(document, text, new),
        Call::Known => known_insert(document, &known, new),
        Call::LookupOrInsert => lookup_or_insert(document, &known, new),
        Call::MapInsert => match document.as_object_mut() {
            Some(members) => map_insert(members, &known, new),
            None => Answer::Other,
        },
        Call::MapLookupOrInsert => match document.as_object_mut() {
            Some(members) => map_lookup_or_insert(members, &known, new),
            None => Answer::Other,
        },
        Call::Replace => match document.as_object_mut() {
            Some(members) => replace(members, &known, new),
            None => Answer::Other,
        },
        Call::Change => change(document, &known, new),
        Call::ChangeOrInsert => change_or_insert(document, &known, new),
    }
}

/// An object of so many members.
fn numbered(alloc: Global, members: u64) -> Result<Value<'static>, Fault> {
    let mut document = Value::object(alloc)?;
    for place in 0..members {
        match insert(&mut document, key_of(alloc, place)?, place) {
            Answer::Inserted => {}
            _ => return Err(Fault::OutOfMemory),
        }
    }
    Ok(document)
}

/// Whether the document is an object of so many members, each as it should be and found by its
/// text, with the buckets of a map that grew to them.
fn is_numbered(alloc: Global, document: &Value<'_>, members: u64) -> Result<bool, Fault> {
    let Some(map) = document.as_object() else {
        return Ok(false);
    };
    let mut place = 0u64;
    for (key, value) in map.iter() {
        let text = key_of(alloc, place)?;
        let found = document.get(text.as_str());
        let is_found = found.is_some_and(|value| value.same_as(&place));
        if !is_found || *key != CowStr::Borrowed(text.as_str()) || !value.same_as(&place) {
            return Ok(false);
        }
        place = place.wrapping_add(1);
    }
    Ok(place == members && map.buckets() == buckets_at(map.len()))
}

/// Inserts a new key behind so many members.
pub fn insert_member(
    rt: &(impl Print + AllocGlobal),
    call: &str,
    members: &str,
) -> Result<(), Fault> {
    let alloc = rt.alloc();
    let (call, members) = (Call::of(call)?, count_of(members)?);
    let mut document = numbered(alloc, members)?;
    let key = keyed(alloc, members)?;
    let again = keyed(alloc, members)?;
    say_call(rt)?;
    match insert_by(call, &mut document, key, members) {
        Answer::Inserted => say(rt, "inserted, ")?,
        Answer::There(_) => say(rt, "FOUND, ")?,
        Answer::Other => say(rt, "ANOTHER ANSWER, ")?,
        Answer::OutOfMemory(is_kept) => {
            say(rt, "OutOfMemory, ")?;
            say_kept(rt, "value", is_kept)?;
            say_kept(rt, "object", is_numbered(alloc, &document, members)?)?;
            match insert_by(call, &mut document, again, members) {
                Answer::Inserted => say(rt, "then inserted, ")?,
                _ => say(rt, "then NOT INSERTED, ")?,
            }
        }
    }
    tell(rt, &document, members + 1)
}

/// Inserts a key that is there among so many members, of which it is the sixth.
pub fn insert_present(
    rt: &(impl Print + AllocGlobal),
    call: &str,
    members: &str,
) -> Result<(), Fault> {
    let alloc = rt.alloc();
    let (call, members) = (Call::of(call)?, count_of(members)?);
    let mut document = numbered(alloc, members)?;
    let (key, again) = (keyed(alloc, 5)?, keyed(alloc, 5)?);
    say_call(rt)?;
    match insert_by(call, &mut document, key, 99) {
        Answer::There(5) => say(rt, "was there, ")?,
        _ => say(rt, "ANOTHER ANSWER, ")?,
    }
    let is_set = !matches!(call, Call::LookupOrInsert | Call::MapLookupOrInsert);
    match insert(&mut document, again.text, 5) {
        Answer::There(before) => say_kept(rt, "value", before == if is_set { 99 } else { 5 })?,
        _ => say(rt, "NOT THERE, ")?,
    }
    tell(rt, &document, members)
}

/// Tells how many members the object has, if they are as they should be.
fn tell(rt: &(impl Print + AllocGlobal), document: &Value<'_>, members: u64) -> Result<(), Fault> {
    let alloc = rt.alloc();
    if !is_numbered(alloc, document, members)? {
        return say(rt, "WRONG MEMBERS\n");
    }
    say(rt, format!(in alloc; "{members} members\n")?.as_str())
}
