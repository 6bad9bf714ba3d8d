//! Answers a session: a document and command lines come from standard input, the replies go to
//! standard output.
//!
//! `sjval owned|borrowed|lazy [known] [last]`: with `known` keys are looked up by their hashes, with
//! `last` the document keeps the last value of each key. The statuses: 0 done; 2 usage; 3 text
//! refused; 4 out of memory or too long; 5 input or output failed. After 2, 3 or 4 nothing was
//! written to standard output.
#![tactic(auto)]

mod fault;
mod input;
mod words;

use crate::fault::Fault;
use crate::input::read_input;
use crate::words::{given_words, parse_words};
use sj_commands::cut_at_mark;
use sj_run::session_repeats;
use std::alloc::{AllocError, Global};
use std::io::{self, Write};
use std::process::ExitCode;
use std::rt::Env;

fn run(rt: &(impl Env + Input + Print + AllocGlobal)) -> Result<(), Fault> {
    let Some((form, way, repeats)) = parse_words(given_words(rt)?.as_slice()) else {
        return Err(Fault::Usage);
    };
    let mut input = read_input(rt.alloc(), rt.reader())?;
    let document = document_of(rt.alloc(), &input);
    let mut out = Vec::new(rt.alloc());
    let answered = session_repeats(
        rt.alloc(),
        form,
        way,
        repeats,
        input.as_mut_slice(),
        &mut out,
    );
    if let Err(fault) = answered {
        return Err(Fault::of_session(fault, document.as_deref()));
    }
    io::writer(rt).write_all(out.as_slice())?;
    Ok(())
}

/// A copy of the document, since a session changes the bytes; None without memory for it.
fn document_of(alloc: Global, input: &[u8]) -> Option<Vec<u8>> {
    let copy: Result<Vec<u8>, AllocError> = input[..cut_at_mark(input).document].to_vec(alloc);
    copy.ok()
}

fn main(rt: HostRuntime) -> ExitCode {
    match run(&rt) {
        Ok(()) => ExitCode::SUCCESS,
        Err(fault) => {
            let _ = eprintln!(rt; "{fault}");
            if let Fault::Refused(_, Some(place)) = &fault {
                let _ = eprintln!(rt; "{place}");
            }
            ExitCode::from(fault.status())
        }
    }
}
