//! Why the program gave no replies.

use sj_fault::{Fault as Place, fault_at};
use sj_run::SessionFault;
use sj_text_core::ErrorKind;
use std::alloc::AllocError;
use std::io;
use thiserror::Error;

/// Why the program gave no replies, as it is told on standard error.
#[derive(Debug, Drop, Error)]
pub enum Fault {
    #[error("usage: sjval owned|borrowed|lazy [known] [last]")]
    Usage,
    /// Why the document was refused, and where no readable text goes on so; None where memory for a
    /// copy to look at was refused.
    #[error("text refused: {0:?}")]
    Refused(ErrorKind, Option<Place>),
    #[error("out of memory")]
    OutOfMemory,
    #[error("too long")]
    TooLong,
    #[error("input or output failed")]
    Failed,
}

impl Fault {
    /// The exit status.
    pub fn status(&self) -> u8 {
        match self {
            Fault::Usage => 2,
            Fault::Refused(..) => 3,
            Fault::OutOfMemory | Fault::TooLong => 4,
            Fault::Failed => 5,
        }
    }
}

impl From<AllocError> for Fault {
    fn from(_error: AllocError) -> Fault {
        Fault::OutOfMemory
    }
}

impl From<io::Error> for Fault {
    fn from(_error: io::Error) -> Fault {
        Fault::Failed
    }
}

impl Fault {
    /// The fault of a session whose document is that copy.
    pub fn of_session(fault: SessionFault, document: Option<&[u8]>) -> Fault {
        match fault {
            SessionFault::Usage => Fault::Usage,
            SessionFault::Refused(kind) => Fault::Refused(
                kind,
                document.and_then(|bytes| fault_at(bytes)),
            ),
            SessionFault::OutOfMemory => Fault::OutOfMemory,
            SessionFault::TooLong => Fault::TooLong,
        }
    }
}
