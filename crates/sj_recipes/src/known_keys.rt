//! Each call of a known key.

use sj_borrowed::prelude::*;
use sj_borrowed::{JsonError, KnownKey, Object, ObjectHasher, Replace, Value};
use std::alloc::Global;
use std::borrow::CowStr;

/// Look-ups in documents and in their maps.
pub fn looks(alloc: Global) -> Result<[bool; 7], JsonError> {
    let key = KnownKey::from("topic");
    let mut document = Value::object(alloc)?;
    let absent = key.lookup(&document).is_none();
    key.insert(&mut document, Value::from("news"))?;
    let found = key.lookup(&document).is_some();
    if let Some(topic) = KnownKey::lookup_mut(&mut document, &key) {
        *topic = Value::from("mail");
    }
    let written = document.get_str("topic") == Some("mail");
    let replaced = KnownKey::replace(&mut document, &key, Value::from(1_u8)).is_ok();
    let put = Replace {
        value: Value::from(2_u8),
    };
    let changed = KnownKey::change(&mut document, &key, put).is_ok();
    let mut members: Object<'_> = Object::with_capacity_and_hasher(
        alloc,
        0,
        ObjectHasher::default(),
    )?;
    key.map_insert(&mut members, Value::from(2_u8))?;
    let in_map = key.map_lookup(&members).is_some();
    if let Some(value) = KnownKey::map_lookup_mut(&mut members, &key) {
        *value = Value::null();
    }
    let is_one = members.len() == 1;
    Ok([absent, found, written, replaced, changed, in_map, is_one])
}

/// What is made where the key is absent.
pub fn makes(alloc: Global) -> Result<(Option<u8>, bool), JsonError> {
    let key = KnownKey::from(CowStr::Borrowed("count"));
    let mut document = Value::object(alloc)?;
    let count = KnownKey::lookup_or_insert_mut(&mut document, &key, || Value::from(0_u8))?;
    *count = Value::from(1_u8);
    let more = Replace {
        value: Value::from(2_u8),
    };
    KnownKey::change_or_insert(&mut document, &key, Value::from(0_u8), more)?;
    let mut members: Object<'_> = Object::with_capacity_and_hasher(
        alloc,
        0,
        ObjectHasher::default(),
    )?;
    KnownKey::map_lookup_or_insert_mut(&mut members, &key, || Value::null())?;
    let is_count = matches!(key.key(), CowStr::Borrowed("count"));
    Ok((document.get_u8("count"), members.len() == 1 && is_count))
}
