//! Faults, by name.

use crate::refused::Refused;
use std::alloc::{AllocError, AllocFailed};
use thiserror::Error;

/// Why a text was not read.
#[derive(Clone, Copy, Debug, PartialEq, Eq, Error)]
pub enum ErrorKind {
    /// The bytes are not UTF-8 (RFC 8259, section 8.1).
    #[error("invalid UTF-8")]
    InvalidUtf8,
    /// A byte can't continue the text, or the text ends too soon.
    #[error("syntax error")]
    Syntax,
    /// An escape is half of a surrogate pair (RFC 8259, section 8.2).
    #[error("lone surrogate")]
    LoneSurrogate,
    /// A number has a fraction or an exponent.
    #[error("number with a fraction or an exponent")]
    Float,
    /// A whole number lies below -2^127 or past 2^128-1.
    #[error("number too large")]
    NumberTooLarge,
    /// More than 1024 arrays and objects are open at once.
    #[error("nested too deep")]
    TooDeep,
    /// A request for memory was refused.
    #[error("out of memory")]
    OutOfMemory,
}

/// The nodes are not those of one tree in preorder.
#[derive(Clone, Copy, Debug, PartialEq, Eq, Error)]
#[error("the nodes are not those of one tree")]
pub struct BadTape;

/// Why a value was not printed.
#[derive(Clone, Copy, Debug, PartialEq, Eq, Error)]
pub enum WriteError {
    /// The output with the print would pass `usize::MAX` bytes.
    #[error("the output would be too long")]
    TooLong,
    /// A request for memory was refused.
    #[error("out of memory")]
    OutOfMemory,
}

/// Why a value was not changed.
#[derive(Clone, Copy, Debug, PartialEq, Eq, Error)]
pub enum AccessError {
    /// The target is no object.
    #[error("not an object")]
    NotAnObject,
    /// The target is no array.
    #[error("not an array")]
    NotAnArray,
    /// A request for memory was refused.
    #[error("out of memory")]
    OutOfMemory,
}

/// Why a text was not read as a pointer.
#[derive(Clone, Copy, Debug, PartialEq, Eq, Error)]
pub enum PointerError {
    /// The text is not empty and does not begin with a slash (RFC 6901, section 3).
    #[error("no slash at the start")]
    NoSlash,
    /// A tilde has neither a 0 nor a 1 behind it (RFC 6901, section 3).
    #[error("a tilde without 0 or 1 behind it")]
    BadTilde,
    /// A request for memory was refused.
    #[error("out of memory")]
    OutOfMemory,
}

impl From<AllocError> for ErrorKind {
    ghost use Rattle.std.specs.Prelude.{◌≡◌};
    ghost use Rattle.sj_text_core.specs.declared.error.ErrorKind.TheVariants.{OutOfMemory};

    ghost from_gives = { λ _ e. e ≡ OutOfMemory };

    fn from(_error: AllocError) -> ErrorKind {
        ErrorKind::OutOfMemory
    }
}

impl<T: Drop> From<AllocFailed<T>> for ErrorKind {
    ghost use Rattle.std.specs.Prelude.{◌≡◌};
    ghost use Rattle.sj_text_core.specs.declared.error.ErrorKind.TheVariants.{OutOfMemory};

    ghost from_gives = { λ _ e. e ≡ OutOfMemory };

    fn from(_error: AllocFailed<T>) -> ErrorKind {
        ErrorKind::OutOfMemory
    }
}

impl From<AllocError> for WriteError {
    ghost use Rattle.std.specs.Prelude.{◌≡◌};
    ghost use Rattle.sj_text_core.specs.declared.error.WriteError.TheVariants.{OutOfMemory};

    ghost from_gives = { λ _ e. e ≡ OutOfMemory };

    fn from(_error: AllocError) -> WriteError {
        WriteError::OutOfMemory
    }
}

impl<T: Drop> From<AllocFailed<T>> for WriteError {
    ghost use Rattle.std.specs.Prelude.{◌≡◌};
    ghost use Rattle.sj_text_core.specs.declared.error.WriteError.TheVariants.{OutOfMemory};

    ghost from_gives = { λ _ e. e ≡ OutOfMemory };

    fn from(_error: AllocFailed<T>) -> WriteError {
        WriteError::OutOfMemory
    }
}

impl From<AllocError> for AccessError {
    ghost use Rattle.std.specs.Prelude.{◌≡◌};
    ghost use Rattle.sj_text_core.specs.declared.error.AccessError.TheVariants.{OutOfMemory};

    ghost from_gives = { λ _ e. e ≡ OutOfMemory };

    fn from(_error: AllocError) -> AccessError {
        AccessError::OutOfMemory
    }
}

impl<T: Drop> From<AllocFailed<T>> for AccessError {
    ghost use Rattle.std.specs.Prelude.{◌≡◌};
    ghost use Rattle.sj_text_core.specs.declared.error.AccessError.TheVariants.{OutOfMemory};

    ghost from_gives = { λ _ e. e ≡ OutOfMemory };

    fn from(_error: AllocFailed<T>) -> AccessError {
        AccessError::OutOfMemory
    }
}

/// The value is let go.
impl<V: Drop> From<Refused<AllocError, V>> for AccessError {
    ghost use Rattle.std.specs.Prelude.{◌≡◌};
    ghost use Rattle.sj_text_core.specs.declared.error.AccessError.TheVariants.{OutOfMemory};

    ghost from_gives = { λ _ e. e ≡ OutOfMemory };

    fn from(_refused: Refused<AllocError, V>) -> AccessError {
        AccessError::OutOfMemory
    }
}

/// The value is let go.
impl<V: Drop> From<Refused<AccessError, V>> for AccessError {
    ghost use Rattle.std.specs.Prelude.{◌≡◌};

    ghost from_gives = { λ refused e. e ≡ refused.why };

    fn from(refused: Refused<AccessError, V>) -> AccessError {
        refused.why
    }
}

/// The value is let go.
impl<V: Drop> From<Refused<AllocError, V>> for AllocError {
    ghost use Rattle.std.specs.Prelude.{◌≡◌};

    ghost from_gives = { λ refused e. e ≡ refused.why };

    fn from(refused: Refused<AllocError, V>) -> AllocError {
        refused.why
    }
}

impl From<AllocError> for PointerError {
    ghost use Rattle.std.specs.Prelude.{◌≡◌};
    ghost use Rattle.sj_text_core.specs.declared.error.PointerError.TheVariants.{OutOfMemory};

    ghost from_gives = { λ _ e. e ≡ OutOfMemory };

    fn from(_error: AllocError) -> PointerError {
        PointerError::OutOfMemory
    }
}

impl<T: Drop> From<AllocFailed<T>> for PointerError {
    ghost use Rattle.std.specs.Prelude.{◌≡◌};
    ghost use Rattle.sj_text_core.specs.declared.error.PointerError.TheVariants.{OutOfMemory};

    ghost from_gives = { λ _ e. e ≡ OutOfMemory };

    fn from(_error: AllocFailed<T>) -> PointerError {
        PointerError::OutOfMemory
    }
}
