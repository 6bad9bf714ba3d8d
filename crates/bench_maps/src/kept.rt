//! Calls on a map that stays.

use crate::Known;
use crate::cases::Kept;
use crate::edits::filled;
use crate::ways::Numbers;
use std::alloc::Global;
use std::io;

// A call that only reads is given what the one before it saw, so that no two calls are the same, of
// which the compiler would make one.

/// The sum of what is found by each key, on top of another.
#[inline(never)]
fn found(map: &Numbers<'_>, texts: &[Known], before: u64) -> u64 {
    let mut sum = before;
    for known in texts {
        if let Some(value) = map.get(known.text.as_str()) {
            sum = sum.wrapping_add(*value);
        }
    }
    sum
}

/// The sum of all members, on top of another.
#[inline(never)]
fn walked(map: &Numbers<'_>, before: u64) -> u64 {
    let mut sum = before;
    for (key, value) in map.iter() {
        sum = sum.wrapping_add(*value ^ key.len() as u64);
    }
    sum
}

/// The last but one is removed and the last is popped. Both come back.
#[inline(never)]
fn ended<'k>(map: &mut Numbers<'k>, texts: &'k [Known]) -> u64 {
    let [.., before, last] = texts else {
        return 0;
    };
    let mut sum = map.remove(before.text.as_str()).unwrap_or(0);
    if let Some((_, value)) = map.pop() {
        sum = sum.wrapping_add(value);
    }
    for known in [before, last] {
        if map.insert(known.text.as_str(), sum).is_err() {
            break;
        }
    }
    sum
}

/// The member with the key at that place is removed, and comes back last.
#[inline(never)]
fn turned<'k>(map: &mut Numbers<'k>, texts: &'k [Known], place: usize) -> u64 {
    let Some(known) = texts.get(place) else {
        return 0;
    };
    let value = map.remove(known.text.as_str()).unwrap_or(0);
    if map.insert(known.text.as_str(), value).is_err() {
        return 0;
    }
    value
}

/// Removes six of the middle, each second one.
fn thin(map: &mut Numbers<'_>, texts: &[Known]) {
    let middle = texts.len() / 2;
    for i in 0..6usize {
        if let Some(known) = texts.get(middle.wrapping_add(i * 2)) {
            let _ = map.remove(known.text.as_str());
        }
    }
}

/// The map on which the calls are made.
pub fn prepared<'k>(alloc: Global, kept: Kept, texts: &'k [Known]) -> io::Result<Numbers<'k>> {
    let mut map = filled(alloc, texts)?;
    if matches!(kept, Kept::FirstOfThinned) {
        thin(&mut map, texts);
    }
    Ok(map)
}

/// The keys that the calls are given: the map's own texts, or for misses the others, which it lacks.
pub fn keys_of<'k>(kept: Kept, texts: &'k [Known], others: &'k [Known]) -> &'k [Known] {
    if matches!(kept, Kept::Miss) {
        others
    } else {
        texts
    }
}

/// How many calls are made at once.
pub fn calls(kept: Kept, members: usize) -> usize {
    match kept {
        Kept::Fill | Kept::Find | Kept::Miss | Kept::Walk => members,
        Kept::Ends | Kept::Turn | Kept::First | Kept::FirstOfThinned => 1,
    }
}

/// Makes the calls once, behind others; a sum of what they saw.
fn once<'k>(
    alloc: Global,
    kept: Kept,
    map: &mut Numbers<'k>,
    texts: &'k [Known],
    place: usize,
    before: u64,
) -> io::Result<u64> {
    match kept {
        Kept::Fill => Ok(filled(alloc, texts)?.len() as u64),
        Kept::Find | Kept::Miss => Ok(found(map, texts, before)),
        Kept::Walk => Ok(walked(map, before)),
        Kept::Ends => Ok(ended(map, texts)),
        Kept::Turn => Ok(turned(map, texts, place)),
        Kept::First | Kept::FirstOfThinned => {
            Ok(found(map, texts.get(..1).unwrap_or(texts), before))
        }
    }
}

/// Makes the calls once for each place; a sum of what they saw, and in which order.
pub fn repeated<'k>(
    alloc: Global,
    kept: Kept,
    map: &mut Numbers<'k>,
    texts: &'k [Known],
    places: &[usize],
) -> io::Result<u64> {
    let mut sum = 0u64;
    for place in places {
        let seen = once(alloc, kept, map, texts, *place, sum)?;
        sum = sum.wrapping_mul(31).wrapping_add(seen);
    }
    Ok(sum)
}
