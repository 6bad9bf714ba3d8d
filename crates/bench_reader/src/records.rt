//! Objects of seven short members, in one order or turned round.

use crate::texts::{Random, WORDS, pick, put, put_number};
use std::alloc::{AllocError, Global};

const MEMBERS: usize = 7;

/// What a record holds.
#[derive(Clone, Copy, Debug)]
struct Record {
    id: u64,
    name: [&'static str; 2],
    balance: u64,
    city: &'static str,
    tags: [&'static str; 2],
}

impl Record {
    fn draw(random: &mut Random) -> Record {
        Record {
            id: random.below(1_000_000),
            name: [pick(random, &WORDS), pick(random, &WORDS)],
            balance: random.below(100_000) | 1,
            city: pick(random, &WORDS),
            tags: [pick(random, &WORDS), pick(random, &WORDS)],
        }
    }
}

/// Puts two words with what stands before, between and behind them.
fn put_two(out: &mut Vec<u8>, words: [&str; 2], around: [&str; 3]) -> Result<(), AllocError> {
    put(out, around[0])?;
    put(out, words[0])?;
    put(out, around[1])?;
    put(out, words[1])?;
    put(out, around[2])
}

fn put_member(out: &mut Vec<u8>, record: &Record, member: usize) -> Result<(), AllocError> {
    match member {
        0 => {
            put(out, "\"id\":")?;
            put_number(out, record.id)
        }
        1 => put_two(out, record.name, ["\"name\":\"", " ", "\""]),
        2 => put(out, "\"active\":true"),
        3 => {
            put(out, "\"balance\":-")?;
            put_number(out, record.balance)
        }
        4 => {
            put(out, "\"city\":\"")?;
            put(out, record.city)?;
            put(out, "\"")
        }
        5 => put_two(out, record.tags, ["\"tags\":[\"", "\",\"", "\"]"]),
        _ => put(out, "\"next\":null"),
    }
}

/// Puts one record, its last member first where it is turned round.
pub fn put_record(
    out: &mut Vec<u8>,
    random: &mut Random,
    is_turned: bool,
) -> Result<(), AllocError> {
    let record = Record::draw(random);
    put(out, "{")?;
    for i in 0..MEMBERS {
        if i > 0 {
            put(out, ",")?;
        }
        let member = if is_turned { MEMBERS - 1 - i } else { i };
        put_member(out, &record, member)?;
    }
    put(out, "}")
}

/// An array of records, a text of about that many bytes.
pub fn records_of(alloc: Global, size: usize, is_turned: bool) -> Result<Vec<u8>, AllocError> {
    let mut out = Vec::with_capacity(alloc, size)?;
    let mut random = Random::new();
    put(&mut out, "[")?;
    for i in 0..size {
        if out.len() >= size {
            break;
        }
        if i > 0 {
            put(&mut out, ",")?;
        }
        put_record(&mut out, &mut random, is_turned)?;
    }
    put(&mut out, "]")?;
    Ok(out)
}
