ghost use Rattle.std.specs.Prelude.{◌≡◌, ◌<◌};

mod beside;
mod hashed;
mod ring;

use sj_object::*;
use sj_text_core::Steps;
use std::alloc::Global;
use std::marker::Brand;
use std::sync::ledger::{Blank, Ledger};
use std::test::Fail;

/// Hashes every text to the same number.
struct Constant;

impl KeyHasher for Constant {
    ghost hash_of = { λ _ _. 7 };

    fn hash_text(&self, _text: &str) -> u64 {
        7
    }
}

impl Drop for Constant {
    fn drop(self) {
        let Constant = self;
    }
}

/// The map with the keys `k00`, `k01` and so on, each with its number.
fn numbered<S: KeyHasher + Drop>(
    alloc: Global,
    members: u64,
    hasher: S,
) -> Result<HashMap<String, u64, S>, Fail> {
    let mut map = HashMap::with_capacity_and_hasher(alloc, 4, hasher)?;
    for i in 0..members {
        map.insert(format!(in alloc; "k{i:02}")?, i)?;
    }
    Ok(map)
}

#[test]
fn hashes_texts(rt: HostRuntime) {
    let table = [
        ("", 0),
        ("a", 97),
        ("Aa", 2112),
        ("BB", 2112),
        ("key", 106079),
        ("k00", 104363),
    ];
    for &(text, hash) in &table {
        assert!(rt; ObjectHasher::default().hash_text(text) == hash, "{text}");
    }
}

/// Inserts a text as key; what stood there.
fn inserts(
    alloc: Global,
    map: &mut HashMap<String, u64, ObjectHasher>,
    key: &str,
    value: u64,
) -> Result<Option<u64>, Fail> {
    Ok(map.insert(String::from_str(alloc, key)?, value)?)
}

/// Removes a key; what stood there, how many are left, and whether the key is one of them.
fn removes(map: &mut HashMap<String, u64, ObjectHasher>, key: &str) -> (Option<u64>, usize, bool) {
    let before = map.remove(key);
    (before, map.len(), map.contains_key(key))
}

#[test]
fn inserts_in_place_or_last(rt: HostRuntime) -> Result<(), Fail> {
    let alloc = rt.alloc();
    let mut map = HashMap::with_capacity_and_hasher(alloc, 0, ObjectHasher::default())?;
    let empty = map.is_empty();
    for (key, value, before) in [("a", 1, None), ("b", 2, None), ("a", 3, Some(1))] {
        let answer = inserts(alloc, &mut map, key, value)?;
        assert_eq!(rt; answer, before, "{key} {value}");
    }
    let shown = format!(in alloc; "{map:?}")?;
    assert_eq!(rt; shown.as_str(), "{\"a\": 3, \"b\": 2}");
    let removed = [removes(&mut map, "a"), removes(&mut map, "a")];
    let told = (empty, removed, map.buckets());
    assert_eq!(rt; told, (true, [(Some(3), 1, false), (None, 1, false)], None));
    Ok(())
}

const THREE: [&str; 3] = ["k00", "k01", "k02"];

/// Whether the members are these three, each with its number.
fn walks(map: &HashMap<String, u64, ObjectHasher>) -> bool {
    for (i, (key, value)) in map.iter().enumerate() {
        if THREE.get(i).copied() != Some(key.as_str()) || *value != i as u64 {
            return false;
        }
    }
    true
}

/// Whether the keys that are taken out are these three.
fn takes(map: HashMap<String, u64, ObjectHasher>) -> bool {
    let mut members = map.into_iter();
    for name in THREE {
        match members.next() {
            Some((key, _)) if key.as_str() == name => {}
            _ => return false,
        }
    }
    members.next().is_none()
}

#[test]
fn walks_in_order(rt: HostRuntime) -> Result<(), Fail> {
    let map = numbered(rt.alloc(), 3, ObjectHasher::default())?;
    let counts = [map.iter().count(), map.keys().count()];
    let told = (walks(&map), counts, map.values().copied().max());
    assert_eq!(rt; told, (true, [3, 3], Some(2)));
    assert!(rt; takes(map));
    Ok(())
}

/// The values that a counted lookup finds.
fn counted<L: Ledger>(map: &HashMap<String, u64, ObjectHasher>, blank: Blank) -> [Option<u64>; 2]
    requires name { blank.name ≡ L.name }
    requires parts { blank.parts ≡ L.parts }
    requires some { 0 < L.parts }
{
    let mut steps = Steps::<L>::new(blank);
    let found = map.get_steps("k02", &mut steps).copied();
    [found, map.get_steps("k03", &mut steps).copied()]
}

#[test]
fn counts_steps(rt: HostRuntime) -> Result<(), Fail> {
    let map = numbered(rt.alloc(), 3, ObjectHasher::default())?;
    assert_eq!(rt; counted::<Brand>(&map, Blank::new(1)), [Some(2), None]);
    Ok(())
}
