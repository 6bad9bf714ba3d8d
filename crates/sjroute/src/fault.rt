//! Why the program ended before its input did.

use crate::flaw::RuleFault;
use sj_fault::Fault as Place;
use sj_text_core::{ErrorKind, JsonError};
use std::alloc::{AllocError, AllocFailed};
use thiserror::Error;

/// Why the program ended, as it is told on standard error.
#[derive(Debug, Drop, Error)]
pub enum Fault {
    #[error("usage: sjroute RULES (or --help)")]
    Usage,
    /// The file of rules is not there, or not to be read.
    #[error("{0}: cannot be read")]
    NoRules(String),
    /// It is no JSON text.
    #[error("{0}: line {1}, column {2}: {3}")]
    Unread(String, usize, usize, ErrorKind),
    /// It has no routes.
    #[error("{0}: {1}")]
    Rules(String, RuleFault),
    #[error("out of memory")]
    OutOfMemory,
    #[error("standard input: cannot be read")]
    Input,
    /// An output was not opened or not written.
    #[error("{0}: cannot be written")]
    Output(String),
}

impl Fault {
    /// The exit status.
    pub fn status(&self) -> u8 {
        match self {
            Fault::Usage => 2,
            Fault::NoRules(_) | Fault::Unread(..) | Fault::Rules(..) => 3,
            Fault::OutOfMemory => 4,
            Fault::Input | Fault::Output(_) => 5,
        }
    }

    /// The fault of a file that is no JSON text: at the place and for its reason, where one was found.
    pub fn unread(path: String, place: Option<Place>, why: ErrorKind) -> Fault {
        let (line, column, why) = place.map_or(
            (1, 1, why),
            |place| (place.line, place.column, place.why),
        );
        Fault::Unread(path, line, column, why)
    }
}

impl From<AllocError> for Fault {
    fn from(_error: AllocError) -> Fault {
        Fault::OutOfMemory
    }
}

impl<T: Drop> From<AllocFailed<T>> for Fault {
    fn from(_error: AllocFailed<T>) -> Fault {
        Fault::OutOfMemory
    }
}

/// A print that would pass the largest list is want of memory too.
impl From<JsonError> for Fault {
    fn from(_error: JsonError) -> Fault {
        Fault::OutOfMemory
    }
}
