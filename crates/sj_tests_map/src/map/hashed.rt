//! Maps of more than 32 members.

ghost use Rattle.std.specs.Prelude.{◌<◌};

use super::{Constant, numbered};
use sj_object::{HashMap, KeyHasher, ObjectHasher};
use std::alloc::Global;
use std::test::Fail;

/// Hashes a text to its length.
struct Length;

impl KeyHasher for Length {
    ghost use Rattle.std.specs.Prelude.{length};

    ghost hash_of = { λ _ text. length text };

    fn hash_text(&self, text: &str) -> u64 {
        text.len() as u64
    }
}

impl Drop for Length {
    fn drop(self) {
        let Length = self;
    }
}

/// How many buckets there are where a map has so many members and never had more.
const BUCKETS: [(u64, Option<usize>); 6] = [
    (1, None),
    (32, None),
    (33, Some(64)),
    (64, Some(64)),
    (65, Some(128)),
    (129, Some(256)),
];

/// The buckets of a map with so many members.
fn buckets<S: KeyHasher + Drop>(
    alloc: Global,
    members: u64,
    hasher: S,
) -> Result<Option<usize>, Fail> {
    Ok(numbered(alloc, members, hasher)?.buckets())
}

/// The same, where each was inserted by its known hash.
fn buckets_of_inserted(alloc: Global, members: u64) -> Result<Option<usize>, Fail> {
    let mut map = HashMap::with_capacity_and_hasher(alloc, 0, Constant)?;
    for number in 0..members {
        let key = format!(in alloc; "k{number:02}")?;
        if map.insert_hashed(7, key, number)?.is_some() {
            return Err("a key was there".into());
        }
    }
    Ok(map.buckets())
}

/// The same, where each was made by its known hash.
fn buckets_of_made(alloc: Global, members: u64) -> Result<Option<usize>, Fail> {
    let mut map = HashMap::with_capacity_and_hasher(alloc, 0, Constant)?;
    for number in 0..members {
        let key = format!(in alloc; "k{number:02}")?;
        map.get_or_insert_hashed_with(7, key, || number)?;
    }
    Ok(map.buckets())
}

#[test]
fn counts_buckets(rt: HostRuntime) -> Result<(), Fail> {
    let alloc = rt.alloc();
    for &(members, wanted) in &BUCKETS {
        let told = [
            buckets(alloc, members, ObjectHasher::default())?,
            buckets(alloc, members, Constant)?,
            buckets_of_inserted(alloc, members)?,
            buckets_of_made(alloc, members)?,
        ];
        assert!(rt; told == [wanted; 4], "{members}");
    }
    Ok(())
}

/// Takes 64 members out; whether each was there, and the buckets stayed.
fn keeps_128_buckets(
    alloc: Global,
    map: &mut HashMap<String, u64, ObjectHasher>,
) -> Result<bool, Fail> {
    for number in 0..64 {
        let key = format!(in alloc; "k{number:02}")?;
        if map.remove(key.as_str()) != Some(number) || map.buckets() != Some(128) {
            return Ok(false);
        }
    }
    Ok(true)
}

#[test]
fn keeps_its_buckets(rt: HostRuntime) -> Result<(), Fail> {
    let alloc = rt.alloc();
    let mut map = numbered(alloc, 65, ObjectHasher::default())?;
    assert!(rt; keeps_128_buckets(alloc, &mut map)?);
    let left = (map.len(), map.get("k64").copied());
    let before = map.insert(String::from_str(alloc, "k64")?, 7)?;
    let told = (left, before, map.buckets());
    assert_eq!(rt; told, ((1, Some(64)), Some(64), Some(128)));
    Ok(())
}

#[test]
fn hashes_by_members_and_not_by_capacity(rt: HostRuntime) -> Result<(), Fail> {
    let alloc = rt.alloc();
    let mut map = HashMap::with_capacity_and_hasher(alloc, 128, ObjectHasher::default())?;
    let mut hashed_before = None;
    for number in 0..33 {
        if map.buckets().is_some() {
            hashed_before = Some(number);
        }
        map.insert(format!(in alloc; "k{number:02}")?, number)?;
    }
    assert_eq!(rt; (hashed_before, map.buckets()), (None, Some(64)));
    Ok(())
}

const SIX: [usize; 6] = [32, 16, 8, 4, 2, 1];

const SEVEN: [usize; 7] = [64, 32, 16, 8, 4, 2, 1];

/// The number in binary digits, 0 as `Aa` and 1 as `BB`. Texts of one length hash alike.
fn colliding(alloc: Global, number: usize, weights: &[usize]) -> Result<String, Fail> {
    let mut text = String::new(alloc);
    for weight in weights {
        let digit = number.checked_div(*weight).unwrap_or(0) % 2;
        text.push_str(if digit == 0 { "Aa" } else { "BB" })?;
    }
    Ok(text)
}

/// The hash of such a text.
fn hash_of(alloc: Global, number: usize, weights: &[usize]) -> Result<u64, Fail> {
    let key = colliding(alloc, number, weights)?;
    Ok(ObjectHasher::default().hash_text(key.as_str()))
}

/// All hashes of a length are one. That of six blocks is 0 modulo 64.
#[test]
fn hashes_blocks(rt: HostRuntime) -> Result<(), Fail> {
    let six = [
        hash_of(rt.alloc(), 0, &SIX)?,
        hash_of(rt.alloc(), 63, &SIX)?,
    ];
    let seven = [
        hash_of(rt.alloc(), 0, &SEVEN)?,
        hash_of(rt.alloc(), 127, &SEVEN)?,
    ];
    assert_eq!(rt; six, [1732858124334809472; 2]);
    assert_eq!(rt; seven, [5069690851892259264; 2]);
    Ok(())
}

/// The map of 33 members whose keys collide, each with its number.
fn all_colliding(alloc: Global) -> Result<HashMap<String, usize, ObjectHasher>, Fail> {
    let mut map = HashMap::with_capacity_and_hasher(alloc, 0, ObjectHasher::default())?;
    for number in 0..33 {
        if map
            .insert(colliding(alloc, number, &SIX)?, number)?
            .is_some()
        {
            return Err("a key was there".into());
        }
    }
    Ok(map)
}

/// Whether the first key is this.
fn begins_with(map: &HashMap<String, usize, ObjectHasher>, wanted: &str) -> bool {
    matches!(map.keys().next(), Some(key) if key.as_str() == wanted)
}

#[test]
fn keeps_members_whose_keys_collide(rt: HostRuntime) -> Result<(), Fail> {
    let mut map = all_colliding(rt.alloc())?;
    let before = (map.len(), map.buckets());
    let removed = map.remove("AaAaAaAaAaAa");
    let after = (map.len(), map.buckets());
    let told = (before, removed, after);
    assert_eq!(rt; told, ((33, Some(64)), Some(0), (32, Some(64))));
    assert!(rt; begins_with(&map, "AaAaAaAaAaBB"));
    for number in 1..33 {
        let key = colliding(rt.alloc(), number, &SIX)?;
        assert_eq!(rt; map.get(key.as_str()).copied(), Some(number), "{key}");
    }
    Ok(())
}

/// The front, the back or the middle of so many.
fn place_of(way: u8, len: usize) -> usize
    requires { 0 < len }
    ensures { result < len }
{
    match way {
        0 => 0,
        1 => len - 1,
        _ => len / 2,
    }
}

/// Whether the map has these members in order and no others, and each look-up finds its own.
fn has_these<S: KeyHasher>(map: &HashMap<String, usize, S>, list: &[(String, usize)]) -> bool {
    let mut members = map.iter();
    for (text, number) in list {
        match members.next() {
            Some((key, value)) if text.as_str() == key.as_str() && *number == *value => {}
            _ => return false,
        }
        if map.get(text.as_str()).copied() != Some(*number) {
            return false;
        }
    }
    members.next().is_none() && map.len() == list.len()
}

/// A key of its own for the number, of so many, which collides with all others or with none. 64
/// have six digits, and more have seven.
fn key_of(alloc: Global, number: usize, members: usize, collides: bool) -> Result<String, Fail> {
    if !collides {
        Ok(format!(in alloc; "k{number:02}")?)
    } else if members <= 64 {
        colliding(alloc, number, &SIX)
    } else {
        colliding(alloc, number, &SEVEN)
    }
}

/// Whether a map of so many members stays like a plain list while each is taken out.
fn empties<S: KeyHasher + Drop>(
    alloc: Global,
    members: usize,
    way: u8,
    collides: bool,
    hasher: S,
) -> Result<bool, Fail> {
    let mut map = HashMap::with_capacity_and_hasher(alloc, 0, hasher)?;
    let mut list = Vec::new(alloc);
    for number in 0..members {
        let key = key_of(alloc, number, members, collides)?;
        map.insert(key.clone()?, number)?;
        list.push((key, number))?;
        if !has_these(&map, list.as_slice()) {
            return Ok(false);
        }
    }
    while !list.is_empty() {
        let place = place_of(way, list.len());
        let (key, number) = list.remove(place);
        if map.remove(key.as_str()) != Some(number) || !has_these(&map, list.as_slice()) {
            return Ok(false);
        }
    }
    Ok(map.is_empty())
}

/// Whether such maps under three hashers stay like plain lists.
fn all_empty(alloc: Global, members: usize, way: u8, collides: bool) -> Result<[bool; 3], Fail> {
    let fixed = ObjectHasher::default();
    Ok([
        empties(alloc, members, way, collides, fixed)?,
        empties(alloc, members, way, collides, Constant)?,
        empties(alloc, members, way, collides, Length)?,
    ])
}

#[test]
fn closes_up_like_a_plain_list(rt: HostRuntime) -> Result<(), Fail> {
    for &members in &[31, 32, 33, 64, 65] {
        for way in 0..3 {
            let told = [
                all_empty(rt.alloc(), members, way, true)?,
                all_empty(rt.alloc(), members, way, false)?,
            ];
            assert!(rt; told == [[true; 3]; 2], "{members} {way}");
        }
    }
    Ok(())
}
