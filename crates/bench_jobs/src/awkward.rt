//! Inputs that are awkward: keys of one hash, repeats of keys, depth, escapes in each text, numbers
//! past 64 bits.

use crate::digest::Digest;
use crate::random::Random;
use crate::texts::{put, put_number, put_words};
use sj_text_core::{JsonError, Repeats, Writable};
use std::alloc::{AllocError, Global};

const MARKS: [&str; 8] = [
    "\\n",
    "\\\"",
    "\\\\",
    "\\/",
    "\\u00e9",
    "\\u3042",
    "\\ud83d\\ude00",
    "\\u20AC",
];

/// An object of so many keys, all of one hash: each block is `Aa` or `BB`.
fn of_one_hash(alloc: Global, random: &mut Random, keys: u64) -> Result<Vec<u8>, AllocError> {
    let mut out = b"{\"\":0".to_vec(alloc)?;
    let turned = random.next() & 0xffff;
    for i in 0..keys {
        put(&mut out, ",\"")?;
        for bit in 0..16u32 {
            let block = if ((i ^ turned) >> bit) & 1 == 1 {
                "BB"
            } else {
                "Aa"
            };
            put(&mut out, block)?;
        }
        put(&mut out, "\":")?;
        put_number(&mut out, i)?;
    }
    put(&mut out, "}")?;
    Ok(out)
}

/// An object of so many members and fewer keys.
fn of_repeats(alloc: Global, random: &mut Random, members: u64) -> Result<Vec<u8>, AllocError> {
    let mut out = b"{\"\":0".to_vec(alloc)?;
    for _ in 0..members {
        put(&mut out, ",\"key ")?;
        put_number(&mut out, random.below(members / 8 + 1))?;
        put(&mut out, "\":[")?;
        put_number(&mut out, random.below(1000))?;
        put(&mut out, "]")?;
    }
    put(&mut out, "}")?;
    Ok(out)
}

/// So many levels, each an array with a text in an object.
fn of_levels(alloc: Global, random: &mut Random, levels: u64) -> Result<Vec<u8>, AllocError> {
    let mut out = Vec::new(alloc);
    for _ in 0..levels / 2 {
        put(&mut out, "{\"")?;
        put_words(&mut out, random, 1)?;
        put(&mut out, "\":[\"")?;
        put_words(&mut out, random, 2)?;
        put(&mut out, "\",")?;
    }
    put(&mut out, "null")?;
    for _ in 0..levels / 2 {
        put(&mut out, "]}")?;
    }
    Ok(out)
}

/// So many texts with an escape behind every third word.
fn of_escapes(alloc: Global, random: &mut Random, texts: u64) -> Result<Vec<u8>, AllocError> {
    let mut out = b"[\"\"".to_vec(alloc)?;
    for _ in 0..texts {
        put(&mut out, ",\"")?;
        for _ in 0..random.below(12) + 1 {
            put_words(&mut out, random, 3)?;
            put(&mut out, random.pick(&MARKS))?;
        }
        put(&mut out, "\"")?;
    }
    put(&mut out, "]")?;
    Ok(out)
}

/// So many numbers of 21 to 38 digits.
fn of_wide(alloc: Global, random: &mut Random, numbers: u64) -> Result<Vec<u8>, AllocError> {
    let mut out = b"[0".to_vec(alloc)?;
    for _ in 0..numbers {
        let sign = if random.below(4) == 0 { ",-" } else { "," };
        put(&mut out, sign)?;
        put_number(&mut out, 100 + random.below(900))?;
        put_number(&mut out, (1 << 58) + (random.next() >> 7))?;
        let last = random.next() >> random.below(60);
        put_number(&mut out, last >> 12)?;
    }
    put(&mut out, "]")?;
    Ok(out)
}

/// Reads the text in both forms, and prints it.
fn read(
    alloc: Global,
    mut text: Vec<u8>,
    repeats: Repeats,
    digest: &mut Digest,
) -> Result<(), JsonError> {
    let mut copy = text.clone()?;
    let value = sj_owned::to_value_repeats(alloc, &mut copy, repeats)?;
    digest.add_bytes(value.encode(alloc)?.as_bytes());
    drop(value);
    let value = sj_borrowed::to_value_repeats(alloc, &mut text, repeats)?;
    digest.add_bytes(value.encode(alloc)?.as_bytes());
    Ok(())
}

pub fn run(
    alloc: Global,
    rounds: u64,
    size: u64,
    random: &mut Random,
    digest: &mut Digest,
) -> Result<(), JsonError> {
    for _ in 0..rounds {
        read(
            alloc,
            of_one_hash(alloc, random, size / 4)?,
            Repeats::First,
            digest,
        )?;
        read(
            alloc,
            of_repeats(alloc, random, size)?,
            Repeats::First,
            digest,
        )?;
        read(
            alloc,
            of_repeats(alloc, random, size)?,
            Repeats::Last,
            digest,
        )?;
        for _ in 0..10u32 {
            read(
                alloc,
                of_levels(alloc, random, 1022)?,
                Repeats::First,
                digest,
            )?;
        }
        read(
            alloc,
            of_escapes(alloc, random, size / 2)?,
            Repeats::First,
            digest,
        )?;
        read(alloc, of_wide(alloc, random, size)?, Repeats::First, digest)?;
    }
    Ok(())
}
