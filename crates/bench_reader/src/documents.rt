//! Rates of documents: reading, printing and letting go, by each form, by `serde_json` and by
//! `json`, which keeps its scratch memory from one reading to the next.

use json::Scratch;
use serde_json::Value;
use sj_tape::to_tape;
use sj_text_core::Writable;
use std::alloc::Global;
use std::time::{CpuClock, Duration};
use std::{io, str};

const WAYS: [&str; 5] = ["tape", "borrowed", "owned", "serde_json", "json"];

const TASKS: [&str; 3] = ["read", "print", "let go"];

/// The nanoseconds from one time to another.
fn between(before: Duration, after: Duration) -> u64 {
    u64::try_from(after.saturating_sub(before).as_nanos()).unwrap_or(u64::MAX)
}

/// Reads, prints and lets go once in that way, and answers the times; None where it was refused.
fn once(
    rt: &HostRuntime,
    way: usize,
    bytes: &mut [u8],
    scratch: &mut Scratch,
) -> io::Result<Option<[u64; 3]>> {
    let alloc = rt.alloc();
    let start = rt.thread_cpu_time()?;
    match way {
        0 => match to_tape(alloc, bytes) {
            Ok(tape) => {
                let read = rt.thread_cpu_time()?;
                let is_printed = tape.as_value().encode(alloc).is_ok();
                let printed = rt.thread_cpu_time()?;
                drop(tape);
                times(rt, is_printed, start, read, printed)
            }
            Err(_) => Ok(None),
        },
        1 => match sj_borrowed::to_value(alloc, bytes) {
            Ok(value) => print_and_drop(rt, start, value),
            Err(_) => Ok(None),
        },
        2 => match sj_owned::to_value(alloc, bytes) {
            Ok(value) => print_and_drop(rt, start, value),
            Err(_) => Ok(None),
        },
        3 => match by_serde(alloc, bytes) {
            Some(value) => print_and_drop_other(rt, start, value),
            None => Ok(None),
        },
        _ => by_json(rt, start, bytes, scratch),
    }
}

/// Prints a document that was read since `start`, and lets it go.
fn print_and_drop<V: Writable + Drop>(
    rt: &HostRuntime,
    start: Duration,
    value: V,
) -> io::Result<Option<[u64; 3]>> {
    let read = rt.thread_cpu_time()?;
    let is_printed = value.encode(rt.alloc()).is_ok();
    let printed = rt.thread_cpu_time()?;
    drop(value);
    times(rt, is_printed, start, read, printed)
}

/// The same of a value of `serde_json`.
fn print_and_drop_other(
    rt: &HostRuntime,
    start: Duration,
    value: Value,
) -> io::Result<Option<[u64; 3]>> {
    let read = rt.thread_cpu_time()?;
    let is_printed = value.to_string(rt.alloc()).is_ok();
    let printed = rt.thread_cpu_time()?;
    drop(value);
    times(rt, is_printed, start, read, printed)
}

fn by_serde(alloc: Global, bytes: &[u8]) -> Option<Value> {
    match simdutf8::basic::from_utf8(bytes) {
        Ok(text) => Value::from_str(alloc, text).ok(),
        Err(_) => None,
    }
}

/// Reads, prints and lets go by `json`.
fn by_json(
    rt: &HostRuntime,
    start: Duration,
    bytes: &[u8],
    scratch: &mut Scratch,
) -> io::Result<Option<[u64; 3]>> {
    let alloc = rt.alloc();
    match json::Value::from_slice(alloc, bytes, scratch) {
        Ok(value) => {
            let read = rt.thread_cpu_time()?;
            let is_printed = json::to_vec(alloc, &value).is_ok();
            let printed = rt.thread_cpu_time()?;
            drop(value);
            times(rt, is_printed, start, read, printed)
        }
        Err(_) => Ok(None),
    }
}

fn times(
    rt: &HostRuntime,
    is_printed: bool,
    start: Duration,
    read: Duration,
    printed: Duration,
) -> io::Result<Option<[u64; 3]>> {
    let end = rt.thread_cpu_time()?;
    if is_printed {
        Ok(Some([
            between(start, read),
            between(read, printed),
            between(printed, end),
        ]))
    } else {
        Ok(None)
    }
}

/// The least times of so many rounds, for each way and each task, in turns.
fn best(
    rt: &HostRuntime,
    bytes: &Vec<u8>,
    rounds: u32,
    only: Option<usize>,
) -> io::Result<[[u64; 3]; 5]> {
    let mut best = [[u64::MAX; 3]; 5];
    let mut scratch = Scratch::new(rt.alloc());
    for _ in 0..rounds {
        for way in 0..WAYS.len() {
            if only.is_some_and(|wanted| way != wanted) {
                continue;
            }
            let mut work = bytes.clone()?;
            if let Some(times) = once(rt, way, work.as_mut_slice(), &mut scratch)? {
                for task in 0..TASKS.len() {
                    best[way][task] = best[way][task].min(times[task]);
                }
            }
        }
    }
    Ok(best)
}

/// Prints the best rates on a text of that kind and size, of each way or of that one alone.
pub fn report(
    rt: &HostRuntime,
    kind: &str,
    bytes: &Vec<u8>,
    rounds: u32,
    only: Option<usize>,
) -> io::Result<()> {
    let best = best(rt, bytes, rounds, only)?;
    let len = bytes.len();
    for way in 0..WAYS.len() {
        if best[way][0] == u64::MAX {
            continue;
        }
        for task in 0..TASKS.len() {
            let name = WAYS[way];
            let what = TASKS[task];
            let rate = (len as u64)
                .wrapping_mul(1000)
                .checked_div(best[way][task])
                .unwrap_or(0);
            println!(rt; "{kind:>10} {len:>9} bytes {name:>10} {what:>6} {rate:>6} MB/s")?;
        }
    }
    Ok(())
}
