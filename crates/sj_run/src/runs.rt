//! Runs of commands.

ghost use Rattle.std.specs.Prelude.{◌≡◌, IfOk, IfErr, OnOk, map};
ghost use Rattle.sj_run.specs.Repeats.{replies_by, part_after};
ghost use Rattle.sj_commands.specs.Meant.{command_meant};
ghost use Rattle.sj_run.specs.Meant.{reply_meant};
ghost use Rattle.sj_run.specs.Run.{Faults};

use crate::document::Document;
use crate::reply::Reply;
use sj_commands::Command;
use sj_text_core::WriteError;
use std::alloc::{AllocError, AllocFailed, Global};
use thiserror::Error;

/// Why a command was not answered.
#[derive(Clone, Copy, Debug, PartialEq, Eq, Error)]
pub enum Why {
    /// A request for memory was refused.
    #[error("out of memory")]
    OutOfMemory,
    /// A print would pass `usize::MAX` bytes.
    #[error("too long")]
    TooLong,
}

impl From<AllocError> for Why {
    ghost use Rattle.std.specs.Prelude.{◌≡◌};
    ghost use Rattle.sj_run.specs.declared.runs.Why.TheVariants.{OutOfMemory};

    ghost from_gives = { λ _ why. why ≡ OutOfMemory };

    fn from(_error: AllocError) -> Why {
        Why::OutOfMemory
    }
}

impl<T: Drop> From<AllocFailed<T>> for Why {
    ghost use Rattle.std.specs.Prelude.{◌≡◌};
    ghost use Rattle.sj_run.specs.declared.runs.Why.TheVariants.{OutOfMemory};

    ghost from_gives = { λ _ why. why ≡ OutOfMemory };

    fn from(_error: AllocFailed<T>) -> Why {
        Why::OutOfMemory
    }
}

impl From<WriteError> for Why {
    ghost use Rattle.std.specs.Prelude.{◌≡◌};
    ghost use Rattle.sj_run.specs.Run.{print_fault};

    ghost from_gives = { λ error why. why ≡ print_fault error };

    fn from(error: WriteError) -> Why {
        match error {
            WriteError::TooLong => Why::TooLong,
            WriteError::OutOfMemory => Why::OutOfMemory,
        }
    }
}

/// Why a run ended before its last command, and the replies until then.
#[derive(Debug, Drop, Error)]
#[error("{why}")]
pub struct RunFault {
    /// The replies to the commands before the refused one.
    pub done: Vec<Reply>,
    /// Why that one was refused.
    pub why: Why,
}

/// The replies to the commands, in order. A run ends at the first command that is refused, and the
/// document is then as that refusal leaves it.
pub fn run<D: Document>(
    alloc: Global,
    document: &mut D,
    commands: Vec<Command>,
) -> Result<Vec<Reply>, RunFault>
    ensures replies { IfOk result (λ replies. map reply_meant replies.items ≡ replies_by (D.part document.old) (map command_meant commands.items)) }
    ensures after { OnOk result (D.part document.new ≡ part_after (D.part document.old) (map command_meant commands.items)) }
    ensures fault { IfErr result (λ fault. Faults (D.part document.old) (map command_meant commands.items) (map reply_meant fault.done.items) fault.why (D.part document.new)) }
{
    let mut done = Vec::new(alloc);
    for command in commands {
        if done.reserve(1).is_err() {
            return Err(RunFault {
                done,
                why: Why::OutOfMemory,
            });
        }
        match document.apply(alloc, command) {
            Ok(reply) => done.push(reply).unwrap(),
            Err(why) => return Err(RunFault { done, why }),
        }
    }
    Ok(done)
}
