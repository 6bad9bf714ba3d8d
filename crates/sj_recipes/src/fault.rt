//! A program's own faults beside the library's.

use sj_owned::{AccessError, JsonError, Refused, Value};
use sj_path::PointerError;
use std::alloc::{AllocError, AllocFailed};
use thiserror::Error;

/// Why a setting was not changed.
#[derive(Debug, Drop, Error)]
pub enum Fault {
    #[error("no hosts in the settings")]
    NoHosts,
    #[error("no position {0} among the hosts")]
    NoPosition(usize),
    #[error("{0}")]
    Json(JsonError),
}

impl From<AllocError> for Fault {
    fn from(error: AllocError) -> Fault {
        Fault::Json(JsonError::from(error))
    }
}

impl<T: Drop> From<AllocFailed<T>> for Fault {
    fn from(error: AllocFailed<T>) -> Fault {
        Fault::Json(JsonError::from(error))
    }
}

impl From<PointerError> for Fault {
    fn from(error: PointerError) -> Fault {
        Fault::Json(JsonError::from(error))
    }
}

impl From<Refused<AccessError, Value>> for Fault {
    fn from(refused: Refused<AccessError, Value>) -> Fault {
        Fault::Json(JsonError::from(refused))
    }
}
