//! Times of maps beside the toolchain's `indexmap`: look-ups of keys that are there and that are
//! not, by the text and by a known hash, inserts from empty, and removals from the front.
//!
//! Run `rt run -- ROUNDS` in this folder; without words it does nothing. Each line has the best of
//! so many rounds, in tenths of a nanosecond a call, by the thread's own clock. The keys are looked
//! up in an order without a pattern; `the order alone` is what a bench without a map takes, and
//! each look-up's time has it in it. Small sizes are looked up in a plain list too, by a loop.
//!
//! `removals ROUNDS` has the least times of maps that are filled, emptied and searched, case by case
//! (`cases.rt` has their names), `removals CASE ROUNDS` those of one case, and `removals CASE MEMBERS
//! ROUNDS` runs one case so many times and prints a sum of what it saw, so that its instructions can
//! be counted.
#![tactic(auto)]

ghost use Rattle.std.specs.Prelude.{◌≡◌, string_bytes};
ghost use Rattle.sj_text_core.specs.Hash.{hash as hash_of_text};

mod cases;
mod edits;
mod emptied;
mod kept;
mod removals;
mod ways;

use sj_object::{KeyHasher, ObjectHasher};
use std::alloc::{AllocError, Global};
use std::time::{CpuClock, Duration};
use std::{env, io};
use ways::{Alone, Finds, InIndexMap, InList, KnownHash, Text};

/// A text with its hash.
#[derive(Drop)]
pub struct Known {
    text: String,
    hash: u64,
    ghost hashed: { hash ≡ hash_of_text (string_bytes text) },
}

/// How the keys of a map differ. Those of one hash are of 36 bytes, the others of 13.
#[derive(Clone, Copy, Debug)]
pub enum Keys {
    /// In their last digits alone, which the fixed hash spreads badly: 1,000 of them stand in 352
    /// of 1,024 buckets.
    Numbered,
    /// In eight hexadecimal digits without a pattern: 1,000 of them stand in 634 buckets.
    Scattered,
    /// In blocks of two letters, which leave all with one hash.
    OneHash,
}

impl Keys {
    fn name(self) -> &'static str {
        match self {
            Keys::Numbered => "numbered",
            Keys::Scattered => "scattered",
            Keys::OneHash => "one hash",
        }
    }

    /// The key with that number, which begins with the sign.
    fn key(self, alloc: Global, sign: &str, number: usize) -> Result<String, AllocError> {
        match self {
            Keys::Numbered => format!(in alloc; "{sign}_of_{number:06}"),
            Keys::Scattered => {
                let digits = (number as u64).wrapping_mul(2_654_435_761) & 0xffff_ffff;
                format!(in alloc; "{sign}_{digits:08x}_")
            }
            Keys::OneHash => of_one_hash(alloc, sign, number),
        }
    }
}

/// The number in blocks, from its lowest bit on.
fn of_one_hash(alloc: Global, sign: &str, number: usize) -> Result<String, AllocError> {
    let mut key = format!(in alloc; "{sign}_")?;
    for bit in 0..16u32 {
        let block = if (number >> bit) & 1 == 1 { "Aa" } else { "BB" };
        key.push_str(block)?;
    }
    Ok(key)
}

/// `members` keys that begin with the sign.
fn texts_of(alloc: Global, keys: Keys, members: usize, sign: &str) -> io::Result<Vec<Known>> {
    let mut texts = Vec::new(alloc);
    for i in 0..members {
        let text = keys.key(alloc, sign, i)?;
        let hash = ObjectHasher::default().hash_text(text.as_str());
        texts.push(Known { text, hash })?;
    }
    Ok(texts)
}

/// The positions of the texts in an order without a pattern.
fn order_of(alloc: Global, members: usize, calls: usize) -> io::Result<Vec<usize>> {
    let mut order = Vec::with_capacity(alloc, calls)?;
    let mut state = 88172645463325252u64;
    for _ in 0..calls {
        state ^= state << 13;
        state ^= state >> 7;
        state ^= state << 17;
        let place = (state >> 20) as usize;
        order.push(place.checked_rem(members).unwrap_or(0))?;
    }
    Ok(order)
}

/// Tenths of a nanosecond for each of so many calls.
pub fn each(before: Duration, after: Duration, calls: usize) -> u64 {
    let nanos = u64::try_from(after.saturating_sub(before).as_nanos()).unwrap_or(u64::MAX);
    nanos
        .wrapping_mul(10)
        .checked_div(calls as u64)
        .unwrap_or(0)
}

/// The sum of what is found; it is told, so that nothing of it is left out.
fn sum_of<F: Finds>(way: &F, texts: &[Known], order: &[usize]) -> u64 {
    let mut sum = 0u64;
    for place in order {
        if let Some(known) = texts.get(*place) {
            if let Some(value) = way.find(known) {
                sum = sum.wrapping_add(value);
            }
        }
    }
    sum
}

/// The best of so many rounds, of keys that are there and of keys that are not.
fn tell_best<F: Finds>(
    rt: &HostRuntime,
    way: &F,
    texts: &[Known],
    others: &[Known],
    order: &[usize],
    rounds: u32,
) -> io::Result<()> {
    let mut found = u64::MAX;
    let mut missing = u64::MAX;
    let mut sum = 0u64;
    for _ in 0..rounds {
        let start = rt.thread_cpu_time()?;
        sum = sum.wrapping_add(sum_of(way, texts, order));
        let middle = rt.thread_cpu_time()?;
        sum = sum.wrapping_add(sum_of(way, others, order));
        let end = rt.thread_cpu_time()?;
        found = found.min(each(start, middle, order.len()));
        missing = missing.min(each(middle, end, order.len()));
    }
    let name = way.name();
    println!(rt; "{name:>16} {found:>6} {missing:>6}   (sum {sum})")?;
    Ok(())
}

/// Times of maps of so many members.
fn tell_size(rt: &HostRuntime, keys: Keys, members: usize, rounds: u32) -> io::Result<()> {
    let alloc = rt.alloc();
    let texts = texts_of(alloc, keys, members, "key")?;
    let others = texts_of(alloc, keys, members, "not")?;
    let order = order_of(alloc, members, 200_000)?;
    let numbers = edits::filled(alloc, texts.as_slice())?;
    let pairs = edits::listed(alloc, texts.as_slice())?;
    let others_map = edits::filled_index_map(alloc, texts.as_slice())?;
    let name = keys.name();
    println!(rt; "{members} members, {name} keys: found, missing")?;
    let (texts, others, order) = (texts.as_slice(), others.as_slice(), order.as_slice());
    tell_best(rt, &Alone, texts, others, order, rounds)?;
    tell_best(
        rt,
        &KnownHash { map: &numbers },
        texts,
        others,
        order,
        rounds,
    )?;
    tell_best(rt, &Text { map: &numbers }, texts, others, order, rounds)?;
    tell_best(
        rt,
        &InIndexMap { map: &others_map },
        texts,
        others,
        order,
        rounds,
    )?;
    if members <= 33 {
        let pairs = pairs.as_slice();
        tell_best(rt, &InList { pairs }, texts, others, order, rounds)?;
    }
    edits::tell_inserts(rt, texts, rounds)
}

/// Times of look-ups, of inserts and of removals from the front.
fn tell_calls(rt: &HostRuntime, rounds: u32) -> io::Result<()> {
    let alloc = rt.alloc();
    for keys in [Keys::Numbered, Keys::Scattered] {
        for members in [8, 32, 33, 1000, 100_000] {
            tell_size(rt, keys, members, rounds)?;
        }
    }
    for members in [8, 33, 1000, 10_000, 100_000] {
        let texts = texts_of(alloc, Keys::Numbered, members, "key")?;
        edits::tell_removals(rt, texts.as_slice(), rounds)?;
    }
    Ok(())
}

fn main(rt: HostRuntime) -> io::Result<()> {
    let alloc = rt.alloc();
    let words: Vec<String> = env::args(&rt)?.collect(alloc)?;
    match words.as_slice() {
        [_, first, rest @ ..] if first.as_str() == "removals" => removals::report(&rt, rest),
        [_, rounds, ..] => tell_calls(&rt, rounds.as_str().parse::<u32>().unwrap_or(1)),
        _ => Ok(()),
    }
}
