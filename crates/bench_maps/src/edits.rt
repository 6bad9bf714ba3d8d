//! Maps that are filled, and emptied from the front.

use crate::ways::Numbers;
use crate::{Known, each};
use indexmap::IndexMap;
use sj_object::{HashMap, ObjectHasher};
use std::alloc::Global;
use std::io;
use std::time::CpuClock;

pub fn filled<'k>(alloc: Global, texts: &'k [Known]) -> io::Result<Numbers<'k>> {
    let mut map = HashMap::with_capacity_and_hasher(alloc, 0, ObjectHasher::default())?;
    let mut number = 0u64;
    for known in texts {
        if map.insert(known.text.as_str(), number).is_err() {
            break;
        }
        number = number.wrapping_add(1);
    }
    Ok(map)
}

pub fn filled_index_map<'k>(
    alloc: Global,
    texts: &'k [Known],
) -> io::Result<IndexMap<&'k str, u64>> {
    let mut map = IndexMap::new(alloc);
    let mut number = 0u64;
    for known in texts {
        if map.insert(known.text.as_str(), number).is_err() {
            break;
        }
        number = number.wrapping_add(1);
    }
    Ok(map)
}

/// The keys with their numbers.
pub fn listed<'k>(alloc: Global, texts: &'k [Known]) -> io::Result<Vec<(&'k str, u64)>> {
    let mut pairs = Vec::with_capacity(alloc, texts.len())?;
    let mut number = 0u64;
    for known in texts {
        pairs.push((known.text.as_str(), number))?;
        number = number.wrapping_add(1);
    }
    Ok(pairs)
}

/// Times of inserts from empty, for each.
pub fn tell_inserts(rt: &HostRuntime, texts: &[Known], rounds: u32) -> io::Result<()> {
    let alloc = rt.alloc();
    let (mut here, mut there) = (u64::MAX, u64::MAX);
    let mut sum = 0u64;
    for _ in 0..rounds {
        let start = rt.thread_cpu_time()?;
        let numbers = filled(alloc, texts)?;
        let middle = rt.thread_cpu_time()?;
        let other = filled_index_map(alloc, texts)?;
        let end = rt.thread_cpu_time()?;
        sum = sum.wrapping_add(numbers.len() as u64 ^ other.len() as u64);
        here = here.min(each(start, middle, texts.len()));
        there = there.min(each(middle, end, texts.len()));
    }
    println!(rt; "          insert {here:>6}, indexmap {there:>6}   (sum {sum})")
}

/// How many members are removed of a map at most.
const REMOVALS: usize = 1000;

/// Times of removals from the front, for each.
pub fn tell_removals(rt: &HostRuntime, texts: &[Known], rounds: u32) -> io::Result<()> {
    let alloc = rt.alloc();
    let (mut here, mut there) = (u64::MAX, u64::MAX);
    let mut sum = 0u64;
    let removed = texts.get(..REMOVALS).unwrap_or(texts);
    for _ in 0..rounds {
        let mut numbers = filled(alloc, texts)?;
        let mut other = filled_index_map(alloc, texts)?;
        let start = rt.thread_cpu_time()?;
        for known in removed {
            sum = sum.wrapping_add(numbers.remove(known.text.as_str()).unwrap_or(0));
        }
        let middle = rt.thread_cpu_time()?;
        for known in removed {
            sum = sum.wrapping_add(other.shift_remove(known.text.as_str()).unwrap_or(0));
        }
        let end = rt.thread_cpu_time()?;
        here = here.min(each(start, middle, removed.len()));
        there = there.min(each(middle, end, removed.len()));
    }
    let members = texts.len();
    println!(rt; "removal from the front of {members}: {here}, indexmap {there}   (sum {sum})")
}
