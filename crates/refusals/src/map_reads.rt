//! Reads of maps by hashes, by steps and by known keys, and what puts members where they were. None of
//! them asks for memory.

ghost use Rattle.std.specs.Prelude.{◌≡◌, ◌<◌};

use crate::maps::{Numbers, numbered};
use refusals_common::{Fault, say, say_call};
use sj_borrowed::{KnownKey, StaticNode, Value};
use sj_object::{HashMap, KeyHasher, ObjectHasher};
use sj_text_core::Steps;
use std::borrow::CowStr;
use std::marker::Brand;
use std::sync::ledger::{Blank, Ledger};

/// Reads a map of 33 members by known keys, by hashes and in order, or a document by known keys.
pub fn reads(rt: &(impl Print + AllocGlobal), what: &str) -> Result<(), Fault> {
    let alloc = rt.alloc();
    let map = numbered(alloc, 33)?;
    let other = numbered(alloc, 33)?;
    let mut document = Value::object(alloc)?;
    if document
        .insert(CowStr::Borrowed("k07"), Value::Static(StaticNode::U64(7)))
        .is_err()
    {
        return Err(Fault::OutOfMemory);
    }
    say_call(rt)?;
    let is_found = match what {
        "map" => is_found_in(map) && is_put_back(other) && is_emptied(HashMap::new(alloc)),
        "document" => is_known_in(document),
        _ => return Err(Fault::Usage),
    };
    say(rt, if is_found { "found\n" } else { "NOT FOUND\n" })
}

fn is_found_in(mut map: Numbers) -> bool {
    let key = KnownKey::from("k07");
    let hash = ObjectHasher::default().hash_text("k07");
    is_read(&map)
        && key.lookup(&map).copied() == Some(7)
        && key.map_lookup(&map).copied() == Some(7)
        && map.position_hashed(hash, "k07") == Some(7)
        && map.get_hashed_mut(hash, "k07").is_some()
        && KnownKey::lookup_mut(&mut map, &key).is_some()
        && KnownKey::map_lookup_mut(&mut map, &key).is_some()
        && is_first_written(&mut map)
        && is_last_out(&mut map)
        && map.into_iter().count() == 32
}

fn is_read(map: &Numbers) -> bool {
    !map.is_empty()
        && map.len() == 33
        && map.buckets() == Some(64)
        && map.hasher().hash_text("k00") == 104363
        && map.iter().next().is_some()
        && map.keys().next().is_some()
        && map.values().next().is_some()
        && has_none_in(map)
}

fn is_first_written(map: &mut Numbers) -> bool {
    if map.len() == 0 {
        return false;
    }
    *map.value_at_mut(0) = 99;
    map.get("k00").copied() == Some(99)
}

fn is_last_out(map: &mut Numbers) -> bool {
    match map.pop() {
        Some((_, value)) => value == 32,
        None => false,
    }
}

/// Takes a member out and puts it back, walks over the map, and takes most and then all out; whether the
/// members are where they were, and then two, and none.
fn is_put_back(mut map: Numbers) -> bool {
    let Some((index, key, value)) = map.shift_remove_full("k05") else {
        return false;
    };
    if map.get_index_of(key.as_str()).is_some() || index > map.len() {
        return false;
    }
    if map.shift_insert(index, key, value).is_err() {
        return false;
    }
    let mut sum = 0u64;
    for (_, value) in &map {
        sum = sum.saturating_add(*value);
    }
    let is_back = match map.get_index(5) {
        Some((key, value)) => key.as_str() == "k05" && *value == 5,
        None => false,
    };
    map.retain(|_, value| *value > 30);
    let is_sifted = map.len() == 2;
    map.clear();
    sum == 528 && is_back && is_sifted && map.is_empty()
}

/// Whether a map is empty; then it goes.
fn is_emptied(mut map: Numbers) -> bool {
    match map.pop() {
        Some(_) => false,
        None => {
            map.destroy_empty();
            true
        }
    }
}

fn has_none_in(map: &Numbers) -> bool {
    has_none::<Brand>(map, Blank::new(1))
}

fn has_none<L: Ledger>(map: &Numbers, blank: Blank) -> bool
    requires name { blank.name ≡ L.name }
    requires parts { blank.parts ≡ L.parts }
    requires some { 0 < L.parts }
{
    let mut steps = Steps::<L>::new(blank);
    map.get_steps("k33", &mut steps).is_none()
}

fn is_known_in(mut document: Value<'static>) -> bool {
    let (key, none) = (KnownKey::from("k07"), KnownKey::from("k08"));
    let is_made = KnownKey::lookup_or_insert_mut(&mut document, &key, || Value::null()).is_ok();
    is_made
        && key.lookup(&document).is_some()
        && none.lookup(&document).is_none()
        && KnownKey::lookup_mut(&mut document, &key).is_some()
        && key.insert(&mut document, Value::null()).is_ok()
}
