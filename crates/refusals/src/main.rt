//! Makes one call between its first two writes to standard output, tells what it answered and what
//! stands, and where the call was refused makes it again. It is run with each request for memory of
//! that call refused in turn, which `tools/refusals.sh` does; its words name the call:
//!
//!     refusals read FORM CALL TEXT | buffers | stream CALL | fault CALL | laws
//!     refusals insert CALL MEMBERS | present CALL MEMBERS | queue MEMBERS | thin MEMBERS
//!     refusals member CALL MEMBERS | member_present CALL MEMBERS | capacity | room | room_in FORM
//!     refusals reads WHAT | write CALL GENERATOR | tape CALL | changes
//!     refusals document FORM CALL [MEMBERS] | merge FORM CALL [MEMBERS] | make SOURCE
//!     refusals literal FORM | convert CALL
//!
//! `refusals nodes LIST ..` makes a tape of each list of nodes. The calls on lazy documents and on
//! what pointers find are those of `refusals_paths`, commands and patches those of `refusals_commands`.
//!
//! The statuses: 0 told; 2 usage; 4 out of memory where the call was not yet made, or again; 5
//! output failed.
#![tactic(auto)]

mod changes;
mod documents;
mod faults;
mod laws;
mod literals;
mod makes;
mod map_reads;
mod maps;
mod members;
mod merges;
mod nodes;
mod prints;
mod readings;
mod rooms;
mod streams;
mod tapes;

use refusals_common::{Fault, word};
use std::env;
use std::process::ExitCode;
use std::rt::Env;

/// Calls that read texts, or take no document.
fn run_texts(rt: &(impl Print + AllocGlobal), words: &[String]) -> Result<(), Fault> {
    let (second, third) = (word(words, 1), word(words, 2));
    match word(words, 0) {
        "read" => readings::read(rt, second, third, word(words, 3)),
        "buffers" => readings::buffers(rt),
        "stream" => streams::run_call(rt, second),
        "fault" => faults::run_call(rt, second),
        "laws" => laws::go_over(rt),
        "nodes" => nodes::tell(rt, words.get(1..).unwrap_or(&[])),
        _ => run_maps(rt, words),
    }
}

/// Calls on maps and by keys.
fn run_maps(rt: &(impl Print + AllocGlobal), words: &[String]) -> Result<(), Fault> {
    let (second, third) = (word(words, 1), word(words, 2));
    match word(words, 0) {
        "insert" => maps::insert(rt, second, third),
        "present" => maps::insert_present(rt, second, third),
        "queue" => maps::replace_first(rt, second),
        "thin" => maps::thin(rt, second),
        "member" => members::insert_member(rt, second, third),
        "member_present" => members::insert_present(rt, second, third),
        "capacity" => maps::with_capacity(rt),
        "room" => maps::fill_room(rt),
        "room_in" => rooms::fill(rt, second),
        "reads" => map_reads::reads(rt, second),
        _ => run_documents(rt, words),
    }
}

/// Calls on tapes and documents.
fn run_documents(rt: &(impl Print + AllocGlobal), words: &[String]) -> Result<(), Fault> {
    let (second, third) = (word(words, 1), word(words, 2));
    match word(words, 0) {
        "write" => prints::write(rt, second, third),
        "tape" => tapes::call(rt, second),
        "document" => documents::run_call(rt, second, third, word(words, 3)),
        "merge" => merges::run_call(rt, second, third, word(words, 3)),
        "make" => makes::make(rt, second),
        "literal" => literals::make(rt, second),
        "convert" => makes::convert(rt, second),
        "changes" => changes::change(rt),
        _ => Err(Fault::Usage),
    }
}

fn run(rt: &(impl Env + Print + AllocGlobal)) -> Result<(), Fault> {
    let words: Vec<String> = env::args(rt)?.skip(1).collect(rt.alloc())?;
    run_texts(rt, &words)
}

fn main(rt: HostRuntime) -> ExitCode {
    match run(&rt) {
        Ok(()) => ExitCode::SUCCESS,
        Err(fault) => {
            let _ = eprintln!(rt; "{fault}");
            ExitCode::from(fault.status())
        }
    }
}
