//! One error for all calls.

use crate::error::{AccessError, BadTape, ErrorKind, PointerError, WriteError};
use crate::patch_fault::{PatchFault, PatchReadFault};
use crate::refused::Refused;
use crate::value_type::TryTypeError;
use std::alloc::{AllocError, AllocFailed};
use thiserror::Error;

/// Why a call of the library gave nothing, whichever call it was. `?` makes it of each fault of the
/// library but a place of `sj_fault`, and of a refusal that hands a value back (`Refused`), which is
/// then let go.
#[derive(Clone, Copy, Debug, PartialEq, Eq, Error)]
pub enum JsonError {
    /// A text was not read.
    #[error("not read: {0}")]
    Read(ErrorKind),
    /// A value was not printed.
    #[error("not printed: {0}")]
    Write(WriteError),
    /// A value was not changed.
    #[error("not changed: {0}")]
    Access(AccessError),
    /// A value is of another kind.
    #[error("{0}")]
    Kind(TryTypeError),
    /// A list of nodes is no tape.
    #[error("{0}")]
    Tape(BadTape),
    /// A text is no pointer.
    #[error("no pointer: {0}")]
    Pointer(PointerError),
    /// A document is no patch.
    #[error("no patch: {0}")]
    PatchRead(PatchReadFault),
    /// A patch was not done.
    #[error("not patched: {0}")]
    Patch(PatchFault),
    /// A session's form is not served in its way.
    #[error("this form is not served in this way")]
    NotServed,
    /// A request for memory was refused, in whichever call.
    #[error("out of memory")]
    OutOfMemory,
}

impl From<ErrorKind> for JsonError {
    ghost use Rattle.std.specs.Prelude.{◌≡◌};
    ghost use Rattle.sj_text_core.specs.Faults.{unread};

    ghost from_gives = { λ why e. e ≡ unread why };

    fn from(why: ErrorKind) -> JsonError {
        match why {
            ErrorKind::OutOfMemory => JsonError::OutOfMemory,
            _ => JsonError::Read(why),
        }
    }
}

impl From<WriteError> for JsonError {
    ghost use Rattle.std.specs.Prelude.{◌≡◌};
    ghost use Rattle.sj_text_core.specs.Faults.{unwritten};

    ghost from_gives = { λ why e. e ≡ unwritten why };

    fn from(why: WriteError) -> JsonError {
        match why {
            WriteError::OutOfMemory => JsonError::OutOfMemory,
            _ => JsonError::Write(why),
        }
    }
}

impl From<AccessError> for JsonError {
    ghost use Rattle.std.specs.Prelude.{◌≡◌};
    ghost use Rattle.sj_text_core.specs.Faults.{unchanged};

    ghost from_gives = { λ why e. e ≡ unchanged why };

    fn from(why: AccessError) -> JsonError {
        match why {
            AccessError::OutOfMemory => JsonError::OutOfMemory,
            _ => JsonError::Access(why),
        }
    }
}

impl From<PointerError> for JsonError {
    ghost use Rattle.std.specs.Prelude.{◌≡◌};
    ghost use Rattle.sj_text_core.specs.Faults.{no_pointer};

    ghost from_gives = { λ why e. e ≡ no_pointer why };

    fn from(why: PointerError) -> JsonError {
        match why {
            PointerError::OutOfMemory => JsonError::OutOfMemory,
            _ => JsonError::Pointer(why),
        }
    }
}

impl From<PatchReadFault> for JsonError {
    ghost use Rattle.std.specs.Prelude.{◌≡◌};
    ghost use Rattle.sj_text_core.specs.Faults.{no_patch};

    ghost from_gives = { λ why e. e ≡ no_patch why };

    fn from(why: PatchReadFault) -> JsonError {
        match why {
            PatchReadFault::OutOfMemory => JsonError::OutOfMemory,
            _ => JsonError::PatchRead(why),
        }
    }
}

impl From<PatchFault> for JsonError {
    ghost use Rattle.std.specs.Prelude.{◌≡◌};
    ghost use Rattle.sj_text_core.specs.Faults.{unpatched};

    ghost from_gives = { λ why e. e ≡ unpatched why };

    fn from(why: PatchFault) -> JsonError {
        match why {
            PatchFault::OutOfMemory => JsonError::OutOfMemory,
            _ => JsonError::Patch(why),
        }
    }
}

impl From<TryTypeError> for JsonError {
    ghost use Rattle.std.specs.Prelude.{◌≡◌};
    ghost use Rattle.sj_text_core.specs.declared.json_error.JsonError.TheVariants.{Kind};

    ghost from_gives = { λ why e. e ≡ Kind why };

    fn from(why: TryTypeError) -> JsonError {
        JsonError::Kind(why)
    }
}

impl From<BadTape> for JsonError {
    ghost use Rattle.std.specs.Prelude.{◌≡◌};
    ghost use Rattle.sj_text_core.specs.declared.json_error.JsonError.TheVariants.{Tape};

    ghost from_gives = { λ why e. e ≡ Tape why };

    fn from(why: BadTape) -> JsonError {
        JsonError::Tape(why)
    }
}

impl From<AllocError> for JsonError {
    ghost use Rattle.std.specs.Prelude.{◌≡◌};
    ghost use Rattle.sj_text_core.specs.declared.json_error.JsonError.TheVariants.{OutOfMemory};

    ghost from_gives = { λ _ e. e ≡ OutOfMemory };

    fn from(_error: AllocError) -> JsonError {
        JsonError::OutOfMemory
    }
}

impl<T: Drop> From<AllocFailed<T>> for JsonError {
    ghost use Rattle.std.specs.Prelude.{◌≡◌};
    ghost use Rattle.sj_text_core.specs.declared.json_error.JsonError.TheVariants.{OutOfMemory};

    ghost from_gives = { λ _ e. e ≡ OutOfMemory };

    fn from(_error: AllocFailed<T>) -> JsonError {
        JsonError::OutOfMemory
    }
}

// Why so: docs/REFUSED.md, "A refusal goes into `JsonError` by `Reason`".
/// Why a call refused a value that it hands back, and which error for all calls stands for it.
pub trait Reason {
    ghost use Rattle.std.specs.Prelude.{◌≡◌};
    ghost use Rattle.sj_text_core.specs.declared.json_error.JsonError.{JsonError};

    /// The error that stands for it.
    ghost stands_for: { Self → JsonError };

    /// The error that stands for it.
    fn json_error(self) -> JsonError
        ensures { result ≡ stands_for self };
}

impl Reason for ErrorKind {
    ghost use Rattle.sj_text_core.specs.Faults.{unread};

    ghost stands_for = { unread };

    fn json_error(self) -> JsonError {
        JsonError::from(self)
    }
}

impl Reason for AccessError {
    ghost use Rattle.sj_text_core.specs.Faults.{unchanged};

    ghost stands_for = { unchanged };

    fn json_error(self) -> JsonError {
        JsonError::from(self)
    }
}

impl Reason for BadTape {
    ghost use Rattle.sj_text_core.specs.declared.json_error.JsonError.TheVariants.{Tape};

    ghost stands_for = { Tape };

    fn json_error(self) -> JsonError {
        JsonError::from(self)
    }
}

impl Reason for PatchReadFault {
    ghost use Rattle.sj_text_core.specs.Faults.{no_patch};

    ghost stands_for = { no_patch };

    fn json_error(self) -> JsonError {
        JsonError::from(self)
    }
}

impl Reason for AllocError {
    ghost use Rattle.sj_text_core.specs.declared.json_error.JsonError.TheVariants.{OutOfMemory};

    ghost stands_for = { λ _. OutOfMemory };

    fn json_error(self) -> JsonError {
        JsonError::from(self)
    }
}

/// The value is let go.
impl<E: Reason, V: Drop> From<Refused<E, V>> for JsonError {
    ghost use Rattle.std.specs.Prelude.{◌≡◌};

    ghost from_gives = { λ refused e. e ≡ E.stands_for refused.why };

    fn from(refused: Refused<E, V>) -> JsonError {
        refused.why.json_error()
    }
}
