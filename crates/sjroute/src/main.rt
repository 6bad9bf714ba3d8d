//! Routes messages: JSON texts, one a line, come from standard input, and go to the outputs whose
//! rules they meet.
//!
//! `sjroute RULES`: docs/SJROUTE.md has the rules and the statuses.
#![tactic(auto)]

mod fault;
mod files;
mod flaw;
mod found;
mod outputs;
mod piece;
mod reading;
mod report;
mod routing;
mod rule;
mod rules;
mod run;
mod words;

use crate::run::run;
use std::io::IsTerminal;
use std::process::ExitCode;

fn main(rt: HostRuntime) -> ExitCode {
    match run(&rt, rt.stderr().is_terminal()) {
        Ok(status) => ExitCode::from(status),
        Err(fault) => {
            let _ = eprintln!(rt; "sjroute: {fault}");
            ExitCode::from(fault.status())
        }
    }
}
