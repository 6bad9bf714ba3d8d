//! Large objects as tables: settings by name, caches.

use crate::digest::Digest;
use crate::random::Random;
use sj_owned::{JsonError, Object, ObjectHasher, Value};
use sj_text_core::ValueAsScalar;
use std::alloc::{AllocError, Global};

/// The key of a number.
fn key_of(alloc: Global, number: u64) -> Result<String, AllocError> {
    let mixed = number.wrapping_mul(2_654_435_761) & 0xffff_ffff;
    format!(in alloc; "entry_{mixed:08x}")
}

/// A table of so many members.
fn table_of(alloc: Global, from: u64, members: u64) -> Result<Object, JsonError> {
    let mut table = Object::with_capacity_and_hasher(alloc, 0, ObjectHasher::default())?;
    for i in 0..members {
        let number = from.wrapping_add(i);
        table.insert(key_of(alloc, number)?, Value::from(number))?;
    }
    Ok(table)
}

/// Looks so many keys up, one in four of which is not there, and sets one in four.
fn look(
    alloc: Global,
    table: &mut Object,
    from: u64,
    calls: u64,
    random: &mut Random,
    digest: &mut Digest,
) -> Result<(), JsonError> {
    let members = table.len() as u64;
    for _ in 0..calls {
        let number = from.wrapping_add(random.below(
            (members / 3).wrapping_mul(4).saturating_add(1),
        ));
        let key = key_of(alloc, number)?;
        let found = table.get(key.as_str()).and_then(|value| value.as_u64());
        digest.add(found.unwrap_or(1));
        if found.is_some() && number % 4 == 0 {
            table.insert(key, Value::from(number ^ 5))?;
        }
    }
    Ok(())
}

/// Takes members out in any order, each of which comes in again with another key.
fn replace_any(
    alloc: Global,
    table: &mut Object,
    from: u64,
    calls: u64,
    random: &mut Random,
    digest: &mut Digest,
) -> Result<(), JsonError> {
    let members = table.len() as u64;
    for i in 0..calls {
        let number = from.wrapping_add(random.below(members.saturating_add(1)));
        if let Some(value) = table.remove(key_of(alloc, number)?.as_str()) {
            digest.add(value.as_u64().unwrap_or(1));
            let fresh = from.wrapping_sub(i).wrapping_sub(1);
            table.insert(key_of(alloc, fresh)?, value)?;
        }
    }
    Ok(())
}

/// Takes the oldest member out so many times, for each of which one comes in.
fn replace_oldest(
    alloc: Global,
    table: &mut Object,
    from: u64,
    calls: u64,
    digest: &mut Digest,
) -> Result<(), JsonError> {
    let members = table.len() as u64;
    for i in 0..calls {
        let oldest = key_of(alloc, from.wrapping_add(i))?;
        let value = table.remove(oldest.as_str());
        digest.add(value.and_then(|value| value.as_u64()).unwrap_or(1));
        let number = from.wrapping_add(members).wrapping_add(i);
        table.insert(key_of(alloc, number)?, Value::from(number))?;
    }
    Ok(())
}

/// The keys and numbers of all members.
fn add_all(table: &Object, digest: &mut Digest) {
    for (key, value) in table.iter() {
        digest.add_bytes(key.as_bytes());
        digest.add(value.as_u64().unwrap_or(1));
    }
}

/// Large tables of so many members, and ten of a fiftieth.
pub fn run(
    alloc: Global,
    rounds: u64,
    members: u64,
    random: &mut Random,
    digest: &mut Digest,
) -> Result<(), JsonError> {
    for _ in 0..rounds {
        let from = random.next() >> 20;
        let mut large = table_of(alloc, from, members)?;
        look(alloc, &mut large, from, members, random, digest)?;
        replace_any(alloc, &mut large, from, members / 50, random, digest)?;
        add_all(&large, digest);
        drop(large);
        let mut queue = table_of(alloc, from, members)?;
        replace_oldest(alloc, &mut queue, from, members / 50, digest)?;
        add_all(&queue, digest);
        drop(queue);
        for _ in 0..10u32 {
            let from = random.next() >> 20;
            let mut small = table_of(alloc, from, members / 50)?;
            look(alloc, &mut small, from, members / 10, random, digest)?;
            replace_any(alloc, &mut small, from, members / 50, random, digest)?;
            add_all(&small, digest);
        }
    }
    Ok(())
}
