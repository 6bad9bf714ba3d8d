//! Merges configuration files, sets values, checks the whole against a shape, and prints it.
//!
//! `sjconf [OPTIONS] FILE..`: docs/SJCONF.md has the words, the shapes and the statuses. After a fault
//! nothing was printed, but where printing itself failed.
#![tactic(auto)]

mod check;
mod demand;
mod expected;
mod fault;
mod flaw;
mod input;
mod key;
mod layers;
mod origin;
mod output;
mod report;
mod said;
mod setting;
mod shape;
mod shapes;
mod verdicts;
mod whole;
mod words;
mod work;

use crate::fault::Fault;
use crate::words::{Task, task_of};
use crate::work::work;
use clap::Error;
use clap::error::ErrorKind;
use std::process::ExitCode;
use std::rt::{Env, Files};
use std::{env, io};

/// The words that the program is called with, its own name first.
fn given_words(rt: &(impl Env + AllocGlobal)) -> io::Result<Vec<String>> {
    Ok(env::args(rt)?.collect(rt.alloc())?)
}

/// Tells a fault on standard error; the status.
fn tell(rt: &impl Eprint, fault: &Fault) -> u8 {
    let _ = eprintln!(rt; "sjconf: {fault}");
    fault.status()
}

/// Does what is asked for, and tells why not.
fn run(rt: &(impl Files + Input + Print + Eprint + AllocGlobal), task: &Task<'_>) -> u8 {
    match work(rt, task) {
        Ok(()) => 0,
        Err(fault) => tell(rt, &fault),
    }
}

/// Help goes to standard output, and what is wrong with the words to standard error; the status.
fn tell_usage(rt: &(impl Print + Eprint), error: &Error) -> u8 {
    if error.kind() == ErrorKind::OutOfMemory {
        return tell(rt, &Fault::OutOfMemory);
    }
    match (error.exit_code(), error.print(rt)) {
        (0, Ok(())) => 0,
        (0, Err(why)) => tell(rt, &Fault::unwritten(why)),
        (_, _) => 2,
    }
}

fn main(rt: HostRuntime) -> ExitCode {
    let words = match given_words(&rt) {
        Ok(words) => words,
        Err(error) if error.kind() == io::ErrorKind::OutOfMemory => {
            return ExitCode::from(tell(&rt, &Fault::OutOfMemory));
        }
        Err(_) => return ExitCode::from(tell(&rt, &Fault::NoText)),
    };
    ExitCode::from(match task_of(rt.alloc(), words.as_slice()) {
        Ok(task) => run(&rt, &task),
        Err(error) => tell_usage(&rt, &error),
    })
}
