//! Makes a document of so many levels by edits, and runs calls on it, for `tools/deep.py` and for
//! measures of the stack:
//!
//!     deep commands FORM WAY LEVELS    answers the command lines of standard input
//!     deep copies FORM LEVELS          prints a copy, what it is turned into, and whether it is within depths
//!     deep same LEVELS                 compares two
//!     deep debug LEVELS                writes one with `{:?}`
//!     deep merge LEVELS                merges a patch of so many objects inside one another
//!
//! FORM is owned, borrowed or lazy, WAY is text or known. The statuses: 0 done; 2 usage; 4 out of
//! memory; 5 input or output failed.
#![tactic(auto)]

mod build;
mod commands;
mod copies;
mod fault;
mod recursions;
mod reply;

use crate::fault::Fault;
use std::env;
use std::process::ExitCode;
use std::rt::Env;

/// The word at that place; empty where there is none.
fn word(words: &[String], place: usize) -> &str {
    match words.get(place) {
        Some(word) => word.as_str(),
        None => "",
    }
}

/// How many levels the word says.
fn levels(word: &str) -> Result<usize, Fault> {
    match word.parse::<usize>() {
        Ok(levels) => Ok(levels),
        Err(_) => Err(Fault::Usage),
    }
}

fn run(rt: &(impl Env + Input + Print + AllocGlobal)) -> Result<(), Fault> {
    let words: Vec<String> = env::args(rt)?.skip(1).collect(rt.alloc())?;
    let (second, third) = (word(&words, 1), word(&words, 2));
    match word(&words, 0) {
        "commands" => commands::answer(rt, second, third, levels(word(&words, 3))?),
        "copies" => copies::print(rt, second, levels(third)?),
        "same" => recursions::compare(rt, levels(second)?),
        "debug" => recursions::debug(rt, levels(second)?),
        "merge" => recursions::merge(rt, levels(second)?),
        _ => Err(Fault::Usage),
    }
}

fn main(rt: HostRuntime) -> ExitCode {
    match run(&rt) {
        Ok(()) => ExitCode::SUCCESS,
        Err(fault) => {
            let _ = eprintln!(rt; "{fault}");
            ExitCode::from(fault.status())
        }
    }
}
