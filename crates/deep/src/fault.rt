//! Why not all was done.

use sj_text_core::WriteError;
use std::alloc::{AllocError, AllocFailed};
use std::io;
use thiserror::Error;

/// Why not all was done.
#[derive(Debug, Drop, Error)]
pub enum Fault {
    #[error("usage: deep commands FORM WAY LEVELS | copies FORM LEVELS | same|debug|merge LEVELS")]
    Usage,
    #[error("out of memory")]
    OutOfMemory,
    #[error("input or output failed")]
    Failed,
}

impl Fault {
    /// The exit status.
    pub fn status(&self) -> u8 {
        match self {
            Fault::Usage => 2,
            Fault::OutOfMemory => 4,
            Fault::Failed => 5,
        }
    }
}

impl From<AllocError> for Fault {
    fn from(_error: AllocError) -> Fault {
        Fault::OutOfMemory
    }
}

impl<T: Drop> From<AllocFailed<T>> for Fault {
    fn from(_error: AllocFailed<T>) -> Fault {
        Fault::OutOfMemory
    }
}

impl From<WriteError> for Fault {
    fn from(_error: WriteError) -> Fault {
        Fault::OutOfMemory
    }
}

impl From<io::Error> for Fault {
    fn from(_error: io::Error) -> Fault {
        Fault::Failed
    }
}
