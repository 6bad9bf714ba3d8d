//! Makes one call between its first two writes to standard output, tells what it answered and what
//! stands, and where the call was refused makes it again. It is run with each request for memory of
//! that call refused in turn, which `tools/refusals.sh` does; its words name the call:
//!
//!     refusals_commands command LINE | request LINE | run FORM WAY | apply FORM WAY | run_fault
//!     refusals_commands session FORM INPUT | session_known FORM INPUT | session_last FORM INPUT
//!     refusals_commands session_kept owned INPUT | patch FORM CALL
//!
//! The calls that take no command and no patch are those of `refusals` and `refusals_paths`.
//!
//! The statuses: 0 told; 2 usage; 4 out of memory where the call was not yet made, or again; 5
//! output failed.
#![tactic(auto)]

mod applies;
mod lines;
mod patches;
mod run_faults;
mod runs;
mod sessions;

use crate::lines::Reading;
use crate::sessions::Session;
use refusals_common::{Fault, word};
use std::env;
use std::process::ExitCode;
use std::rt::Env;

fn run(rt: &(impl Env + Print + AllocGlobal)) -> Result<(), Fault> {
    let words: Vec<String> = env::args(rt)?.skip(1).collect(rt.alloc())?;
    let (second, third) = (word(&words, 1), word(&words, 2));
    match word(&words, 0) {
        "run" => runs::run_form(rt, second, third),
        "run_fault" => run_faults::meet(rt),
        "apply" => applies::insert(rt, second, third),
        "command" => lines::read(rt, Reading::Command, second),
        "request" => lines::read(rt, Reading::Request, second),
        "session" => sessions::answer(rt, Session::First, second, third),
        "session_known" => sessions::answer(rt, Session::Known, second, third),
        "session_kept" => sessions::answer(rt, Session::Kept, second, third),
        "session_last" => sessions::answer(rt, Session::Last, second, third),
        "patch" => patches::run_call(rt, second, third),
        _ => Err(Fault::Usage),
    }
}

fn main(rt: HostRuntime) -> ExitCode {
    match run(&rt) {
        Ok(()) => ExitCode::SUCCESS,
        Err(fault) => {
            let _ = eprintln!(rt; "{fault}");
            ExitCode::from(fault.status())
        }
    }
}
