//! Times of patches and differences of documents of 1 MB, beside comparisons of them.
//!
//! `bench_patches ROUNDS` has the least time of each case in so many rounds, in microseconds, by the
//! thread's own clock. `bench_patches CASE ROUNDS` runs one case so many times and prints how many of
//! its rounds went well, so that its instructions can be counted. Without words it does nothing.
//!
//! | case | a round |
//! |---|---|
//! | `patch` | ten operations, one of each kind among them, and ten that take them back |
//! | `failing` | the ten, and then one that fails, so that all are undone |
//! | `diff` | the difference of two documents that differ in ten places |
//! | `same` | a comparison of two documents that are the same |
//! | `merge` | a merge patch of ten members, and one that takes them out |
#![tactic(auto)]

mod cases;
mod documents;

use crate::cases::{CASES, Case, Given};
use anyhow::anyhow;
use std::env;
use std::rt::Env;
use std::time::CpuClock;

/// Runs the case so many times, and tells how often it went well.
fn count(rt: &(impl Print + AllocGlobal), case: Case, rounds: u32) -> anyhow::Result<()> {
    let alloc = rt.alloc();
    let mut given = Given::new(alloc)?;
    let mut passed = 0u32;
    for _ in 0..rounds {
        if given.round(alloc, case)? {
            passed = passed.saturating_add(1);
        }
    }
    println!(rt; "{}: {passed} of {rounds}", case.name())?;
    Ok(())
}

/// The least time of the case in so many rounds.
fn time(rt: &(impl Print + AllocGlobal + CpuClock), case: Case, rounds: u32) -> anyhow::Result<()> {
    let alloc = rt.alloc();
    let mut given = Given::new(alloc)?;
    let mut least = u128::MAX;
    for _ in 0..rounds {
        let start = rt.thread_cpu_time()?;
        let is_right = given.round(alloc, case)?;
        let end = rt.thread_cpu_time()?;
        if !is_right {
            return Err(anyhow!("a round went wrong"));
        }
        least = least.min(end.saturating_sub(start).as_nanos());
    }
    println!(rt; "{:8} {:9}.{:03}", case.name(), least / 1000, least % 1000)?;
    Ok(())
}

fn run(rt: &(impl Env + Print + AllocGlobal + CpuClock)) -> anyhow::Result<()> {
    let words: Vec<String> = env::args(rt)?.skip(1).collect(rt.alloc())?;
    match words.as_slice() {
        [] => Ok(()),
        [rounds] => {
            let rounds = rounds.parse::<u32>()?;
            for case in CASES {
                time(rt, case, rounds)?;
            }
            Ok(())
        }
        [name, rounds] => {
            let rounds = rounds.parse::<u32>()?;
            match CASES.iter().find(|case| case.name() == name.as_str()) {
                Some(case) => count(rt, *case, rounds),
                None => Err(anyhow!("no such case")),
            }
        }
        _ => Err(anyhow!("usage: bench_patches [CASE] ROUNDS")),
    }
}

fn main(rt: HostRuntime) -> anyhow::Result<()> {
    run(&rt)
}
