//! Maps that are filled, emptied and searched between removals, case by case.

use crate::cases::{CASES, Case, Kept, Removed, Work, named};
use crate::edits::filled;
use crate::emptied::{emptied, maps_of, removed_of, taken};
use crate::kept::{calls, keys_of, prepared, repeated};
use crate::{Keys, Known, each, order_of, texts_of};
use std::alloc::{AllocError, Global};
use std::io;
use std::time::CpuClock;

const SIZES: [usize; 5] = [4, 32, 64, 1000, 50_000];

/// The one size of maps whose keys have one hash: a fill takes time with its square.
const ALIKE: usize = 1000;

/// The least time of a call, in tenths of a nanosecond, and a sum of what all calls saw.
#[derive(Clone, Copy, Debug)]
struct Measured {
    least: u64,
    sum: u64,
}

impl Measured {
    fn new() -> Measured {
        Measured {
            least: u64::MAX,
            sum: 0,
        }
    }

    fn add(&mut self, time: u64, sum: u64) {
        self.least = self.least.min(time);
        self.sum = self.sum.wrapping_add(sum);
    }
}

/// The calls on a map that stays, of so many rounds.
fn of_kept(
    rt: &HostRuntime,
    kept: Kept,
    texts: &[Known],
    others: &[Known],
    rounds: u32,
) -> io::Result<Measured> {
    let alloc = rt.alloc();
    let keys = keys_of(kept, texts, others);
    let calls = calls(kept, texts.len());
    let repeats = if calls == 1 {
        2000
    } else {
        1 + 40_000 / texts.len().max(1)
    };
    let places = order_of(alloc, texts.len(), repeats)?;
    let mut map = prepared(alloc, kept, texts)?;
    let mut measured = Measured::new();
    for _ in 0..rounds {
        let start = rt.thread_cpu_time()?;
        let sum = repeated(alloc, kept, &mut map, keys, places.as_slice())?;
        let end = rt.thread_cpu_time()?;
        measured.add(each(start, end, repeats.wrapping_mul(calls)), sum);
    }
    Ok(measured)
}

/// The maps that are emptied, a call for each member; they are filled before the clock is read.
fn of_emptied(
    rt: &HostRuntime,
    removed: Removed,
    texts: &[Known],
    rounds: u32,
) -> io::Result<Measured> {
    let alloc = rt.alloc();
    let keys = removed_of(alloc, texts, removed)?;
    let count = 1 + 8000 / texts.len().max(1);
    let mut measured = Measured::new();
    for _ in 0..rounds {
        let maps = maps_of(alloc, texts, count)?;
        let mut sum = 0u64;
        let start = rt.thread_cpu_time()?;
        for map in maps {
            sum = sum.wrapping_add(emptied(map, removed, keys.as_slice()));
        }
        let end = rt.thread_cpu_time()?;
        measured.add(each(start, end, count.wrapping_mul(texts.len())), sum);
    }
    Ok(measured)
}

/// The same of maps that are taken apart.
fn of_taken(rt: &HostRuntime, texts: &[Known], rounds: u32) -> io::Result<Measured> {
    let count = 1 + 8000 / texts.len().max(1);
    let mut measured = Measured::new();
    for _ in 0..rounds {
        let maps = maps_of(rt.alloc(), texts, count)?;
        let mut sum = 0u64;
        let start = rt.thread_cpu_time()?;
        for map in maps {
            sum = sum.wrapping_add(taken(map));
        }
        let end = rt.thread_cpu_time()?;
        measured.add(each(start, end, count.wrapping_mul(texts.len())), sum);
    }
    Ok(measured)
}

fn measure(
    rt: &HostRuntime,
    work: Work,
    texts: &[Known],
    others: &[Known],
    rounds: u32,
) -> io::Result<Measured> {
    match work {
        Work::Kept(kept) => of_kept(rt, kept, texts, others, rounds),
        Work::Emptied(removed) => of_emptied(rt, removed, texts, rounds),
        Work::Taken => of_taken(rt, texts, rounds),
    }
}

fn put_cell(line: &mut String, alloc: Global, tenths: u64) -> Result<(), AllocError> {
    let cell = format!(in alloc; "{}.{}", tenths / 10, tenths % 10)?;
    line.push_str(format!(in alloc; "{cell:>11}")?.as_str())
}

/// Prints the times of a case, at each size that it has.
fn tell_case(rt: &HostRuntime, case: Case, rounds: u32) -> io::Result<()> {
    let alloc = rt.alloc();
    let (name, keys, work) = case;
    let mut line = format!(in alloc; "{name:>18}")?;
    let mut sum = 0u64;
    for members in SIZES {
        if matches!(keys, Keys::OneHash) && members != ALIKE {
            line.push_str("          -")?;
            continue;
        }
        let texts = texts_of(alloc, keys, members, "key")?;
        let others = texts_of(alloc, keys, members, "not")?;
        let measured = measure(rt, work, texts.as_slice(), others.as_slice(), rounds)?;
        put_cell(&mut line, alloc, measured.least)?;
        sum = sum.wrapping_add(measured.sum);
    }
    println!(rt; "{line}   (sum {sum})")
}

fn tell_all(rt: &HostRuntime, rounds: u32) -> io::Result<()> {
    let alloc = rt.alloc();
    let mut line = format!(in alloc; "{:>18}", "ns a call")?;
    for members in SIZES {
        line.push_str(format!(in alloc; "{members:>11}")?.as_str())?;
    }
    println!(rt; "{line}")?;
    for case in CASES {
        tell_case(rt, case, rounds)?;
    }
    Ok(())
}

/// A sum of what a case saw that is run so many times.
fn sum_of(
    alloc: Global,
    work: Work,
    texts: &[Known],
    others: &[Known],
    rounds: usize,
) -> io::Result<u64> {
    let mut sum = 0u64;
    match work {
        Work::Kept(kept) => {
            let places = order_of(alloc, texts.len(), rounds)?;
            let mut map = prepared(alloc, kept, texts)?;
            let keys = keys_of(kept, texts, others);
            sum = repeated(alloc, kept, &mut map, keys, places.as_slice())?;
        }
        Work::Emptied(removed) => {
            let keys = removed_of(alloc, texts, removed)?;
            for _ in 0..rounds {
                let map = filled(alloc, texts)?;
                sum = sum.wrapping_add(emptied(map, removed, keys.as_slice()));
            }
        }
        Work::Taken => {
            for _ in 0..rounds {
                sum = sum.wrapping_add(taken(filled(alloc, texts)?));
            }
        }
    }
    Ok(sum)
}

/// Runs the case alone so many times.
fn tell_one(rt: &HostRuntime, name: &str, members: usize, rounds: usize) -> io::Result<()> {
    let alloc = rt.alloc();
    let Some((_, keys, work)) = named(name) else {
        return println!(rt; "no such case");
    };
    let texts = texts_of(alloc, keys, members, "key")?;
    let others = texts_of(alloc, keys, members, "not")?;
    let sum = sum_of(alloc, work, texts.as_slice(), others.as_slice(), rounds)?;
    println!(rt; "{name} {members} {rounds}: {sum}")
}

/// Prints the times of the case with that name.
fn tell_named(rt: &HostRuntime, name: &str, rounds: u32) -> io::Result<()> {
    match named(name) {
        Some(case) => tell_case(rt, case, rounds),
        None => println!(rt; "no such case"),
    }
}

/// Tells the times of all cases or of one, or runs one case so many times, as the words say.
pub fn report(rt: &HostRuntime, words: &[String]) -> io::Result<()> {
    match words {
        [] => Ok(()),
        [rounds] => tell_all(rt, rounds.as_str().parse::<u32>().unwrap_or(1)),
        [name, rounds] => tell_named(
            rt,
            name.as_str(),
            rounds.as_str().parse::<u32>().unwrap_or(1),
        ),
        [name, members, rounds] => {
            let members = members.as_str().parse::<usize>().unwrap_or(0);
            let rounds = rounds.as_str().parse::<usize>().unwrap_or(0);
            tell_one(rt, name.as_str(), members, rounds)
        }
        _ => println!(rt; "no such case"),
    }
}
