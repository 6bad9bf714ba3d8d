//! Why nothing, or not all, was told.

ghost use Rattle.std.specs.Prelude.{◌≡◌};
ghost use Rattle.refusals_common.specs.Faults.{status_of};

use sj_text_core::WriteError;
use std::alloc::{AllocError, AllocFailed};
use std::io;
use thiserror::Error;

/// Why nothing, or not all, was told.
#[derive(Debug, Drop, Error)]
pub enum Fault {
    #[error("no such call")]
    Usage,
    #[error("out of memory")]
    OutOfMemory,
    #[error("output failed")]
    Failed,
}

impl Fault {
    /// The exit status.
    pub fn status(&self) -> u8
        ensures { result ≡ status_of self.now }
    {
        match self {
            Fault::Usage => 2,
            Fault::OutOfMemory => 4,
            Fault::Failed => 5,
        }
    }
}

impl From<AllocError> for Fault {
    ghost use Rattle.std.specs.Prelude.{◌≡◌};
    ghost use Rattle.refusals_common.specs.declared.fault.Fault.TheVariants.{OutOfMemory};

    ghost from_gives = { λ _ e. e ≡ OutOfMemory };

    fn from(_error: AllocError) -> Fault {
        Fault::OutOfMemory
    }
}

impl<T: Drop> From<AllocFailed<T>> for Fault {
    ghost use Rattle.std.specs.Prelude.{◌≡◌};
    ghost use Rattle.refusals_common.specs.declared.fault.Fault.TheVariants.{OutOfMemory};

    ghost from_gives = { λ _ e. e ≡ OutOfMemory };

    fn from(_error: AllocFailed<T>) -> Fault {
        Fault::OutOfMemory
    }
}

impl From<WriteError> for Fault {
    ghost use Rattle.std.specs.Prelude.{◌≡◌};
    ghost use Rattle.refusals_common.specs.declared.fault.Fault.TheVariants.{OutOfMemory};

    ghost from_gives = { λ _ e. e ≡ OutOfMemory };

    fn from(_error: WriteError) -> Fault {
        Fault::OutOfMemory
    }
}

impl From<io::Error> for Fault {
    ghost use Rattle.std.specs.Prelude.{◌≡◌};
    ghost use Rattle.refusals_common.specs.declared.fault.Fault.TheVariants.{Failed};

    ghost from_gives = { λ _ e. e ≡ Failed };

    fn from(_error: io::Error) -> Fault {
        Fault::Failed
    }
}
