//! Why nothing was done.

use sj_fault::Fault as Place;
use sj_patch::{PatchFault, PatchReadFault};
use sj_text_core::{ErrorKind, WriteError};
use std::alloc::{AllocError, AllocFailed, Global};
use std::io;
use thiserror::Error;

/// Why nothing was done, as it is told on standard error.
#[derive(Debug, Drop, Error)]
pub enum Fault {
    #[error("a word is not UTF-8")]
    NoText,
    #[error("standard input is one file alone")]
    InputTwice,
    #[error("standard input cannot be replaced")]
    InputReplaced,
    /// The file of that path is no JSON text, by line and column, both counted from 1.
    #[error("{0}: line {1}, column {2}: {3}")]
    NoJson(String, usize, usize, ErrorKind),
    /// The file of that path is no patch.
    #[error("{0}: {1}")]
    NoPatch(String, PatchReadFault),
    #[error("{0}")]
    Failed(PatchFault),
    /// The file of that path was not read.
    #[error("{0}: cannot be read: {1}")]
    Unread(String, io::Error),
    /// The file of that path was not written.
    #[error("{0}: cannot be written: {1}")]
    Unwritten(String, io::Error),
    #[error("the result is too long")]
    TooLong,
    #[error("out of memory")]
    OutOfMemory,
}

/// The name of a file in what is told.
fn file_name(alloc: Global, path: &str) -> Result<String, AllocError> {
    String::from_str(alloc, if path == "-" { "standard input" } else { path })
}

impl Fault {
    /// The exit status.
    pub fn status(&self) -> u8 {
        match self {
            Fault::NoText | Fault::InputTwice | Fault::InputReplaced => 2,
            Fault::NoJson(..) | Fault::NoPatch(..) => 3,
            Fault::OutOfMemory | Fault::TooLong => 4,
            Fault::Unread(..) | Fault::Unwritten(..) => 5,
            Fault::Failed(_) => 6,
        }
    }

    /// The fault of a file that is no JSON text: at the place and for its reason, where one was found.
    pub fn no_json(
        alloc: Global,
        path: &str,
        place: Option<Place>,
        why: ErrorKind,
    ) -> Result<Fault, AllocError> {
        let (line, column, why) = place.map_or(
            (1, 1, why),
            |place| (place.line, place.column, place.why),
        );
        Ok(Fault::NoJson(file_name(alloc, path)?, line, column, why))
    }

    /// The fault of a file that is no patch.
    pub fn no_patch(alloc: Global, path: &str, why: PatchReadFault) -> Result<Fault, AllocError> {
        match why {
            PatchReadFault::OutOfMemory => Ok(Fault::OutOfMemory),
            _ => Ok(Fault::NoPatch(file_name(alloc, path)?, why)),
        }
    }

    /// The fault of a file that was not read.
    pub fn unread(alloc: Global, path: &str, why: io::Error) -> Result<Fault, AllocError> {
        match why.kind() {
            io::ErrorKind::OutOfMemory => Ok(Fault::OutOfMemory),
            _ => Ok(Fault::Unread(file_name(alloc, path)?, why)),
        }
    }

    /// The fault of a file that was not written.
    pub fn unwritten(alloc: Global, path: &str, why: io::Error) -> Result<Fault, AllocError> {
        match why.kind() {
            io::ErrorKind::OutOfMemory => Ok(Fault::OutOfMemory),
            _ => Ok(Fault::Unwritten(String::from_str(alloc, path)?, why)),
        }
    }
}

impl From<AllocError> for Fault {
    fn from(_error: AllocError) -> Fault {
        Fault::OutOfMemory
    }
}

impl<T: Drop> From<AllocFailed<T>> for Fault {
    fn from(_error: AllocFailed<T>) -> Fault {
        Fault::OutOfMemory
    }
}

impl From<WriteError> for Fault {
    fn from(error: WriteError) -> Fault {
        match error {
            WriteError::TooLong => Fault::TooLong,
            WriteError::OutOfMemory => Fault::OutOfMemory,
        }
    }
}

impl From<PatchFault> for Fault {
    fn from(fault: PatchFault) -> Fault {
        match fault {
            PatchFault::OutOfMemory => Fault::OutOfMemory,
            _ => Fault::Failed(fault),
        }
    }
}
