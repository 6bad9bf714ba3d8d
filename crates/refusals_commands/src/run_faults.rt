//! Faults of runs and of sessions, and the one error that stands for each.

use refusals_common::{Fault, say_call, say_right};
use sj_run::{RunFault, SessionFault, Why};
use sj_text_core::{ErrorKind, JsonError, WriteError};

/// Makes the one error of each between the first two writes.
pub fn meet(rt: &(impl Print + AllocGlobal)) -> Result<(), Fault> {
    let ended = RunFault {
        done: Vec::new(rt.alloc()),
        why: Why::TooLong,
    };
    say_call(rt)?;
    let is_right = JsonError::from(Why::OutOfMemory) == JsonError::OutOfMemory
        && JsonError::from(ended) == JsonError::Write(WriteError::TooLong)
        && JsonError::from(SessionFault::Usage) == JsonError::NotServed
        && JsonError::from(SessionFault::TooLong) == JsonError::Write(WriteError::TooLong)
        && JsonError::from(SessionFault::OutOfMemory) == JsonError::OutOfMemory
        && JsonError::from(SessionFault::Refused(ErrorKind::Float))
            == JsonError::Read(ErrorKind::Float);
    say_right(rt, is_right)
}
