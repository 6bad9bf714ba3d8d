//! Reads of large tapes by place and by key, as pages of a list and lookups in an object.

use crate::digest::Digest;
use crate::random::Random;
use crate::texts::{put, put_number, put_record};
use sj_tape::{Tape, to_tape};
use sj_text_core::{JsonError, Writable};
use std::alloc::{AllocError, Global};

/// An array of so many records.
fn list_of(alloc: Global, random: &mut Random, records: u64) -> Result<Vec<u8>, AllocError> {
    let mut out = Vec::new(alloc);
    put(&mut out, "[null")?;
    for _ in 0..records {
        put(&mut out, ",")?;
        put_record(&mut out, random)?;
    }
    put(&mut out, "]")?;
    Ok(out)
}

/// An object of so many records.
fn object_of(alloc: Global, random: &mut Random, records: u64) -> Result<Vec<u8>, AllocError> {
    let mut out = Vec::new(alloc);
    put(&mut out, "{\"none\":null")?;
    for i in 0..records {
        put(&mut out, ",\"record ")?;
        put_number(&mut out, i)?;
        put(&mut out, "\":")?;
        put_record(&mut out, random)?;
    }
    put(&mut out, "}")?;
    Ok(out)
}

/// Reads so many records by their places.
fn turn_pages(
    alloc: Global,
    list: &Tape<'_>,
    records: u64,
    reads: u64,
    random: &mut Random,
    digest: &mut Digest,
) -> Result<(), JsonError> {
    let part = list.as_value();
    let value = sj_lazy::Value::from_tape(part);
    for i in 0..reads {
        let place = random.below(records.max(1)) as usize;
        if i % 2 == 0 {
            if let Some(record) = part.get_idx(place) {
                digest.add_bytes(record.encode(alloc)?.as_bytes());
            }
        } else if let Some(record) = value.get_idx(place) {
            digest.add_bytes(record.get_str("name").unwrap_or("").as_bytes());
        }
    }
    Ok(())
}

/// Looks so many keys up, a few of which are not there.
fn look(
    alloc: Global,
    object: &Tape<'_>,
    records: u64,
    reads: u64,
    random: &mut Random,
    digest: &mut Digest,
) -> Result<(), JsonError> {
    let part = object.as_value();
    for _ in 0..reads {
        let number = random.below((records / 8).wrapping_mul(9).saturating_add(1));
        let key = format!(in alloc; "record {number}")?;
        if let Some(record) = part.get(key.as_str()) {
            digest.add_bytes(record.encode(alloc)?.as_bytes());
        }
    }
    Ok(())
}

pub fn run(
    alloc: Global,
    rounds: u64,
    records: u64,
    random: &mut Random,
    digest: &mut Digest,
) -> Result<(), JsonError> {
    for _ in 0..rounds {
        let mut text = list_of(alloc, random, records)?;
        let list = to_tape(alloc, &mut text)?;
        turn_pages(alloc, &list, records, records / 100, random, digest)?;
        let mut text = object_of(alloc, random, records / 2)?;
        let object = to_tape(alloc, &mut text)?;
        look(alloc, &object, records / 2, records / 100, random, digest)?;
    }
    Ok(())
}
