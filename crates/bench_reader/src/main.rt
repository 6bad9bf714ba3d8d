//! Rates of reading: `to_tape`, `to_tape_with_buffers` and the tape of `json`, in turns, on texts
//! that a seeded generator writes; and rates of documents, by both forms, by tapes, by `serde_json`
//! and by `json`. Run `rt run -- ROUNDS MEGABYTES KIND WAY` in this folder (without WAY, a number
//! from 0: each way; without KIND: each kind), or `rt run -- ROUNDS stdin` for the text on standard
//! input, with the word `documents` in front for documents. Each line has the best rate of so many
//! rounds, by the thread's own clock. `equality ROUNDS MEGABYTES` has the least times of comparing
//! documents, `tapes ROUNDS MEGABYTES` those of calls on tapes beside the tape of `json`, and
//! `lazy ROUNDS MEGABYTES` those of ten reads, and of a write and a print.
//!
//! `lookups SHAPE MEMBERS KEY_LEN KEY CHOICE FORM COUNT` makes so many look-ups by key of one case
//! alone and prints what they find, so that their instructions can be counted: SHAPE is `scalars`,
//! `mixed`, `pairs`, `records`, `arrays` or `wide`, KEY `first`, `last` or `absent`, CHOICE `first`
//! or `last`, FORM `packed`, or `plain` for nodes of a caller's own.
//!
//! `counted read|print TARGET KIND COUNT` reads a text of that kind or prints what it was read to so
//! often, with TARGET `tape`, `borrowed` or `owned`; `counted merge kept|taken COUNT` merges a patch
//! into a document, and `counted commands FORM COUNT` gives so many short commands to a document.
//! Without words the program does nothing.
#![tactic(auto)]

ghost use Rattle.std.specs.Prelude.{◌≤◌};

mod changed;
mod counted;
mod documents;
mod equality;
mod lazy;
mod lookups;
mod objects;
mod records;
mod tapes;
mod texts;

use crate::texts::{Kind, text_of};
use json::{Scratch, Tape};
use sj_tape::{Buffers, to_tape, to_tape_with_buffers};
use std::alloc::Global;
use std::io::Read;
use std::time::CpuClock;
use std::{env, io};

const WAYS: usize = 3;

/// What is timed: so many rounds, of readings (by one way alone, or by each) or of documents.
#[derive(Clone, Copy, Debug)]
struct Wanted {
    rounds: u32,
    only: Option<usize>,
    are_documents: bool,
}

fn name_of(way: usize) -> &'static str {
    match way {
        0 => "to_tape",
        1 => "with buffers",
        _ => "json tape, kept",
    }
}

fn by_json(alloc: Global, bytes: &[u8], scratch: &mut Scratch) -> bool {
    match simdutf8::basic::from_utf8(bytes) {
        Ok(text) => Tape::parse(text, scratch, Vec::new(alloc)).is_ok(),
        Err(_) => false,
    }
}

/// Reads once in that way; whether the text was read.
fn once(
    alloc: Global,
    way: usize,
    bytes: &mut [u8],
    buffers: &mut Buffers,
    scratch: &mut Scratch,
) -> bool {
    match way {
        0 => to_tape(alloc, bytes).is_ok(),
        1 => to_tape_with_buffers(alloc, bytes, buffers).is_ok(),
        _ => by_json(alloc, bytes, scratch),
    }
}

/// The least time of so many rounds, for each way, or for that one alone.
fn best(
    rt: &HostRuntime,
    bytes: &Vec<u8>,
    rounds: u32,
    only: Option<usize>,
) -> io::Result<[u64; WAYS]> {
    let alloc = rt.alloc();
    let mut best = [u64::MAX; WAYS];
    let mut buffers = Buffers::new(alloc, bytes.len())?;
    let mut scratch = Scratch::new(alloc);
    for _ in 0..rounds {
        for way in 0..WAYS {
            if only.is_some_and(|wanted| way != wanted) {
                continue;
            }
            let mut work = bytes.clone()?;
            let before = rt.thread_cpu_time()?;
            let is_read = once(alloc, way, work.as_mut_slice(), &mut buffers, &mut scratch);
            let after = rt.thread_cpu_time()?;
            let nanos = u64::try_from(after.saturating_sub(before).as_nanos()).unwrap_or(u64::MAX);
            if is_read {
                best[way] = best[way].min(nanos);
            }
        }
    }
    Ok(best)
}

fn report_readings(
    rt: &HostRuntime,
    kind: &str,
    bytes: &Vec<u8>,
    wanted: &Wanted,
) -> io::Result<()> {
    let best = best(rt, bytes, wanted.rounds, wanted.only)?;
    let len = bytes.len();
    for way in 0..WAYS {
        if best[way] == u64::MAX {
            continue;
        }
        let name = name_of(way);
        let rate = (len as u64)
            .wrapping_mul(1000)
            .checked_div(best[way])
            .unwrap_or(0);
        println!(rt; "{kind:>10} {len:>9} bytes {name:>16} {rate:>6} MB/s")?;
    }
    Ok(())
}

fn report(rt: &HostRuntime, kind: &str, bytes: &Vec<u8>, wanted: &Wanted) -> io::Result<()> {
    if wanted.are_documents {
        documents::report(rt, kind, bytes, wanted.rounds, wanted.only)
    } else {
        report_readings(rt, kind, bytes, wanted)
    }
}

/// What the words ask for: rounds, megabytes, a kind and a way.
fn report_all(rt: &HostRuntime, words: &[String], are_documents: bool) -> io::Result<()> {
    let Some(rounds) = words.get(0) else {
        return Ok(());
    };
    let wanted = Wanted {
        rounds: rounds.as_str().parse::<u32>().unwrap_or(1),
        only: words
            .get(3)
            .and_then(|word| word.as_str().parse::<usize>().ok()),
        are_documents,
    };
    if words.get(1).is_some_and(|word| word.as_str() == "stdin") {
        let mut bytes = Vec::new(rt.alloc());
        rt.reader().read_to_end(&mut bytes)?;
        return report(rt, "stdin", &bytes, &wanted);
    }
    let megabytes = match words.get(1) {
        Some(word) => word.as_str().parse::<usize>().unwrap_or(1),
        None => 1,
    };
    let size = megabytes.min(1000) * 1_000_000;
    for kind in Kind::ALL {
        let is_wanted = match words.get(2) {
            Some(word) => word.as_str() == kind.name(),
            None => true,
        };
        if is_wanted {
            let bytes = text_of(rt.alloc(), kind, size)?;
            report(rt, kind.name(), &bytes, &wanted)?;
        }
    }
    Ok(())
}

/// The number at that place among the words, up to 1000; 1 where there is none.
fn number(words: &[String], place: usize) -> u32
    ensures { result ≤ 1000 }
{
    match words.get(place) {
        Some(word) => word.as_str().parse::<u32>().unwrap_or(1).min(1000),
        None => 1,
    }
}

fn main(rt: HostRuntime) -> io::Result<()> {
    let words: Vec<String> = env::args(&rt)?.collect(rt.alloc())?;
    match words.as_slice() {
        [_, first, rest @ ..] if first.as_str() == "counted" => counted::report(&rt, rest),
        [_, first, rest @ ..] if first.as_str() == "documents" => report_all(&rt, rest, true),
        [_, first, rest @ ..] if first.as_str() == "equality" => {
            equality::report(&rt, number(rest, 0), number(rest, 1) as usize * 1_000_000)
        }
        [_, first, rest @ ..] if first.as_str() == "lazy" => {
            lazy::report(&rt, number(rest, 0), number(rest, 1) as usize * 1_000_000)
        }
        [_, first, rest @ ..] if first.as_str() == "lookups" => lookups::report(&rt, rest),
        [_, first, rest @ ..] if first.as_str() == "tapes" => {
            tapes::report(&rt, number(rest, 0), number(rest, 1) as usize * 1_000_000)
        }
        [_, rest @ ..] => report_all(&rt, rest, false),
        [] => Ok(()),
    }
}
