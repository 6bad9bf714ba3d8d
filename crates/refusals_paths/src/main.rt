//! Makes one call between its first two writes to standard output, tells what it answered and what
//! stands, and where the call was refused makes it again. It is run with each request for memory of
//! that call refused in turn, which `tools/refusals.sh` does; its words name the call:
//!
//!     refusals_paths lazy FORM CALL [MEMBERS] | make_lazy SOURCE | copy FORM CALL | copy_key
//!     refusals_paths from SOURCE | kinds FORM | parts FORM | within FORM | display FORM
//!     refusals_paths print FORM CALL | pointer | no_pointer | pointer_parts CALL
//!     refusals_paths pointer_in FORM | pointer_lazy FORM CALL | pointer_edit CALL
//!     refusals_paths pointer_edit_lazy FORM CALL
//!
//! The calls that take no lazy document and no pointer are those of `refusals`, commands and patches
//! those of `refusals_commands`.
//!
//! The statuses: 0 told; 2 usage; 4 out of memory where the call was not yet made, or again; 5
//! output failed.
#![tactic(auto)]

mod canonicals;
mod copies;
mod depths;
mod displays;
mod froms;
mod kinds;
mod lazy;
mod lazy_makes;
mod lazy_pointer_edits;
mod parts;
mod pointer_edits;
mod pointer_parts;
mod pointers;
mod scalars;
mod typed;

use refusals_common::{Fault, word};
use std::env;
use std::process::ExitCode;
use std::rt::Env;

/// Calls on pointers and what they find.
fn run_pointers(rt: &(impl Print + AllocGlobal), words: &[String]) -> Result<(), Fault> {
    let (second, third) = (word(words, 1), word(words, 2));
    match word(words, 0) {
        "pointer" => pointers::parse(rt),
        "no_pointer" => pointers::refuse(rt),
        "pointer_in" => pointers::in_document(rt, second),
        "pointer_parts" => pointer_parts::make(rt, second),
        "pointer_edit" => pointer_edits::run_call(rt, second),
        "pointer_edit_lazy" => lazy_pointer_edits::run_call(rt, second, third),
        "pointer_lazy" => pointers::in_lazy(rt, second, third),
        _ => run_documents(rt, words),
    }
}

/// Calls on lazy documents, and on documents of every form.
fn run_documents(rt: &(impl Print + AllocGlobal), words: &[String]) -> Result<(), Fault> {
    let (second, third) = (word(words, 1), word(words, 2));
    match word(words, 0) {
        "display" => displays::write(rt, second),
        "print" => canonicals::run_call(rt, second, third),
        "make_lazy" => lazy_makes::make(rt, second),
        "from" => froms::make(rt, second),
        "copy_key" => froms::copy_key(rt),
        "lazy" => lazy::run_call(rt, second, third, word(words, 3)),
        "copy" => copies::run_call(rt, second, third),
        "kinds" => kinds::reads(rt, second),
        "parts" => parts::reads(rt, second),
        "within" => depths::ask(rt, second),
        _ => Err(Fault::Usage),
    }
}

fn run(rt: &(impl Env + Print + AllocGlobal)) -> Result<(), Fault> {
    let words: Vec<String> = env::args(rt)?.skip(1).collect(rt.alloc())?;
    run_pointers(rt, &words)
}

fn main(rt: HostRuntime) -> ExitCode {
    match run(&rt) {
        Ok(()) => ExitCode::SUCCESS,
        Err(fault) => {
            let _ = eprintln!(rt; "{fault}");
            ExitCode::from(fault.status())
        }
    }
}
