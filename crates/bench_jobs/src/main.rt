//! The jobs that a user waits for, on inputs that a seed makes: `bench_jobs JOB ROUNDS SEED` prints
//! a digest of all results. Without words each job runs once on a small input.
//!
//! | job | what it does |
//! |---|---|
//! | `router` | lines of messages, a third of which are edited |
//! | `session` | commands at documents, in each form and way |
//! | `documents` | documents are read, looked at, changed, printed and let go |
//! | `table` | members of large objects are set, looked up and taken out |
//! | `tapes` | parts of large tapes are read by place and by key |
//! | `awkward` | keys of one hash, repeats, depth, escapes, wide numbers |
#![tactic(auto)]

mod awkward;
mod digest;
mod documents;
mod random;
mod router;
mod session;
mod table;
mod tapes;
mod texts;

use crate::digest::Digest;
use crate::random::Random;
use sj_text_core::JsonError;
use std::alloc::Global;
use std::env;

/// A job.
#[derive(Clone, Copy, Debug)]
enum Job {
    Router,
    Session,
    Documents,
    Table,
    Tapes,
    Awkward,
}

const JOBS: [Job; 6] = [
    Job::Router,
    Job::Session,
    Job::Documents,
    Job::Table,
    Job::Tapes,
    Job::Awkward,
];

impl Job {
    fn name(self) -> &'static str {
        match self {
            Job::Router => "router",
            Job::Session => "session",
            Job::Documents => "documents",
            Job::Table => "table",
            Job::Tapes => "tapes",
            Job::Awkward => "awkward",
        }
    }

    /// Runs the job so many rounds; on inputs of a twentieth of the size where it is a small run.
    fn run(self, alloc: Global, rounds: u64, is_small: bool, seed: u64) -> Result<u64, JsonError> {
        let mut random = Random::new(seed);
        let mut digest = Digest::new();
        let part = if is_small { 20 } else { 1 };
        let bytes = 1_000_000 / part as usize;
        let (random, all) = (&mut random, &mut digest);
        match self {
            Job::Router => router::run(alloc, rounds, bytes, random, all)?,
            Job::Session => session::run(alloc, rounds, 12_000 / part, random, all)?,
            Job::Documents => documents::run(alloc, rounds, bytes, random, all)?,
            Job::Table => table::run(alloc, rounds, 50_000 / part, random, all)?,
            Job::Tapes => tapes::run(alloc, rounds, 100_000 / part, random, all)?,
            Job::Awkward => awkward::run(alloc, rounds, 16_000 / part, random, all)?,
        }
        Ok(digest.state)
    }
}

/// Runs a job, and prints its digest.
fn tell(
    rt: &(impl Print + AllocGlobal),
    job: Job,
    rounds: u64,
    is_small: bool,
    seed: u64,
) -> anyhow::Result<()> {
    let digest = job.run(rt.alloc(), rounds, is_small, seed)?;
    let name = job.name();
    println!(rt; "{name} {digest:016x}")?;
    Ok(())
}

fn number(word: &String) -> u64 {
    word.as_str().parse::<u64>().unwrap_or(1)
}

fn main(rt: HostRuntime) -> anyhow::Result<()> {
    let words: Vec<String> = env::args(&rt)?.collect(rt.alloc())?;
    match words.as_slice() {
        [_, name, rounds, seed] => {
            for job in JOBS {
                if job.name() == name.as_str() {
                    tell(&rt, job, number(rounds), false, number(seed))?;
                }
            }
        }
        _ => {
            for job in JOBS {
                tell(&rt, job, 1, true, 1)?;
            }
        }
    }
    Ok(())
}
