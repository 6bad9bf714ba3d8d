//! Why a known key was not inserted.

use sj_text_core::{JsonError, Reason, Refused, TryTypeError, ValueType};
use std::alloc::{AllocError, AllocFailed};
use thiserror::Error;

/// Why a value was not changed by a known key.
#[derive(Clone, Copy, Debug, PartialEq, Eq, Error)]
pub enum Error {
    /// The target is no object, but of this kind.
    #[error("expected object, found {0}")]
    NotAnObject(ValueType),
    /// A request for memory was refused.
    #[error("out of memory")]
    OutOfMemory,
}

impl From<AllocError> for Error {
    ghost use Rattle.std.specs.Prelude.{◌≡◌};
    ghost use Rattle.sj_borrowed.specs.declared.known_key.error.Error.TheVariants.{OutOfMemory};

    ghost from_gives = { λ _ e. e ≡ OutOfMemory };

    fn from(_error: AllocError) -> Error {
        Error::OutOfMemory
    }
}

impl<T: Drop> From<AllocFailed<T>> for Error {
    ghost use Rattle.std.specs.Prelude.{◌≡◌};
    ghost use Rattle.sj_borrowed.specs.declared.known_key.error.Error.TheVariants.{OutOfMemory};

    ghost from_gives = { λ _ e. e ≡ OutOfMemory };

    fn from(_error: AllocFailed<T>) -> Error {
        Error::OutOfMemory
    }
}

/// The value is let go.
impl<V: Drop> From<Refused<AllocError, V>> for Error {
    ghost use Rattle.std.specs.Prelude.{◌≡◌};
    ghost use Rattle.sj_borrowed.specs.declared.known_key.error.Error.TheVariants.{OutOfMemory};

    ghost from_gives = { λ _ e. e ≡ OutOfMemory };

    fn from(_refused: Refused<AllocError, V>) -> Error {
        Error::OutOfMemory
    }
}

/// The value is let go.
impl<V: Drop> From<Refused<Error, V>> for Error {
    ghost use Rattle.std.specs.Prelude.{◌≡◌};

    ghost from_gives = { λ refused e. e ≡ refused.why };

    fn from(refused: Refused<Error, V>) -> Error {
        refused.why
    }
}

/// An object was expected, and which kind was found.
impl From<Error> for JsonError {
    ghost use Rattle.std.specs.Prelude.{◌≡◌};
    ghost use Rattle.sj_borrowed.specs.Faults.{unset};

    ghost from_gives = { λ why e. e ≡ unset why };

    fn from(why: Error) -> JsonError {
        match why {
            Error::NotAnObject(got) => JsonError::Kind(TryTypeError {
                expected: ValueType::Object,
                got,
            }),
            Error::OutOfMemory => JsonError::OutOfMemory,
        }
    }
}

impl Reason for Error {
    ghost use Rattle.sj_borrowed.specs.Faults.{unset};

    ghost stands_for = { unset };

    fn json_error(self) -> JsonError {
        JsonError::from(self)
    }
}
