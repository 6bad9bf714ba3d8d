//! Maps that are emptied.

use crate::Known;
use crate::cases::Removed;
use crate::edits::filled;
use crate::ways::Numbers;
use std::alloc::Global;
use std::io;

/// How many are removed by their keys.
fn count(removed: Removed, members: usize) -> usize {
    match removed {
        Removed::Nothing => 0,
        Removed::OneOfTheMiddle => 1,
        Removed::Front | Removed::Middle => members,
        Removed::FrontWithPops | Removed::MiddleWithPops => members - members / 2,
    }
}

/// The place, before any was removed, of the one that is removed at that step.
fn place(removed: Removed, members: usize, step: usize) -> usize {
    let middle = members / 2;
    match removed {
        Removed::Front | Removed::FrontWithPops => step,
        Removed::Middle if step % 2 == 0 => middle.wrapping_add(step / 2),
        Removed::Middle => middle.wrapping_sub(step / 2).wrapping_sub(1),
        _ => middle.wrapping_sub(step),
    }
}

/// The keys that are removed, in order.
pub fn removed_of<'k>(
    alloc: Global,
    texts: &'k [Known],
    removed: Removed,
) -> io::Result<Vec<&'k str>> {
    let mut keys = Vec::new(alloc);
    for step in 0..count(removed, texts.len()) {
        if let Some(known) = texts.get(place(removed, texts.len(), step)) {
            keys.push(known.text.as_str())?;
        }
    }
    Ok(keys)
}

/// So many maps of the texts.
pub fn maps_of<'k>(
    alloc: Global,
    texts: &'k [Known],
    count: usize,
) -> io::Result<Vec<Numbers<'k>>> {
    let mut maps = Vec::with_capacity(alloc, count)?;
    for _ in 0..count {
        maps.push(filled(alloc, texts)?)?;
    }
    Ok(maps)
}

/// The value that was last, or 0.
fn popped(map: &mut Numbers<'_>) -> u64 {
    match map.pop() {
        Some((_, value)) => value,
        None => 0,
    }
}

/// Pops all.
#[inline(never)]
fn all_popped(map: &mut Numbers<'_>) -> u64 {
    let mut sum = 0u64;
    for _ in 0..map.len() {
        sum = sum.wrapping_add(popped(map));
    }
    sum
}

#[inline(never)]
fn removed_alone(map: &mut Numbers<'_>, keys: &[&str]) -> u64 {
    let mut sum = 0u64;
    for key in keys {
        sum = sum.wrapping_mul(31);
        sum = sum.wrapping_add(map.remove(*key).unwrap_or(0));
    }
    sum
}

#[inline(never)]
fn removed_with_pops(map: &mut Numbers<'_>, keys: &[&str]) -> u64 {
    let mut sum = 0u64;
    for key in keys {
        sum = sum.wrapping_mul(31);
        sum = sum.wrapping_add(map.remove(*key).unwrap_or(0));
        sum = sum.wrapping_mul(31).wrapping_add(popped(map));
    }
    sum
}

/// Removes the keys, and pops what is left; a sum of what was removed, and in which order.
pub fn emptied(mut map: Numbers<'_>, removed: Removed, keys: &[&str]) -> u64 {
    let sum = if removed.has_pops() {
        removed_with_pops(&mut map, keys)
    } else {
        removed_alone(&mut map, keys)
    };
    sum.wrapping_add(all_popped(&mut map))
}

/// The sum of what the map has, which is taken apart.
#[inline(never)]
pub fn taken(map: Numbers<'_>) -> u64 {
    let mut sum = 0u64;
    for (_, value) in map {
        sum = sum.wrapping_add(value);
    }
    sum
}
