//! The faults of runs and of sessions, as the one error for all calls.

use crate::runs::{RunFault, Why};
use crate::sessions::SessionFault;
use sj_text_core::{JsonError, WriteError};

impl From<Why> for JsonError {
    ghost use Rattle.std.specs.Prelude.{◌≡◌};
    ghost use Rattle.sj_run.specs.Faults.{unanswered};

    ghost from_gives = { λ why e. e ≡ unanswered why };

    fn from(why: Why) -> JsonError {
        match why {
            Why::OutOfMemory => JsonError::OutOfMemory,
            Why::TooLong => JsonError::Write(WriteError::TooLong),
        }
    }
}

/// The replies until then are let go.
impl From<RunFault> for JsonError {
    ghost use Rattle.std.specs.Prelude.{◌≡◌};
    ghost use Rattle.sj_run.specs.Faults.{unanswered};

    ghost from_gives = { λ fault e. e ≡ unanswered fault.why };

    fn from(fault: RunFault) -> JsonError {
        JsonError::from(fault.why)
    }
}

impl From<SessionFault> for JsonError {
    ghost use Rattle.std.specs.Prelude.{◌≡◌};
    ghost use Rattle.sj_run.specs.Faults.{unserved};

    ghost from_gives = { λ fault e. e ≡ unserved fault };

    fn from(fault: SessionFault) -> JsonError {
        match fault {
            SessionFault::Usage => JsonError::NotServed,
            SessionFault::Refused(kind) => JsonError::from(kind),
            SessionFault::OutOfMemory => JsonError::OutOfMemory,
            SessionFault::TooLong => JsonError::Write(WriteError::TooLong),
        }
    }
}
