//! Why a patch is not read or not done (RFC 6902).

use crate::refused::Refused;
use std::alloc::{AllocError, AllocFailed};
use thiserror::Error;

/// Why an operation of a patch has no result.
#[derive(Clone, Copy, Debug, PartialEq, Eq, Error)]
pub enum OperationFault {
    /// Nothing stands where something has to.
    #[error("nothing stands there")]
    Missing,
    /// No item can go to that place of the array.
    #[error("no such place in the array")]
    NoPlace,
    /// The whole document cannot be removed.
    #[error("the whole document cannot be removed")]
    Whole,
    /// A value cannot be moved into itself.
    #[error("a value cannot be moved into itself")]
    IntoItself,
    /// The value is another one.
    #[error("the value differs")]
    Differs,
}

/// Why a patch was not done.
#[derive(Clone, Copy, Debug, PartialEq, Eq, Error)]
pub enum PatchFault {
    /// The operation with that number, counted from 0, has no result.
    #[error("operation {0}: {1}")]
    Failed(usize, OperationFault),
    /// A request for memory was refused.
    #[error("out of memory")]
    OutOfMemory,
}

/// What is wrong with an item of a patch document (RFC 6902, section 4).
#[derive(Clone, Copy, Debug, PartialEq, Eq, Error)]
pub enum ItemFault {
    /// The item is no object.
    #[error("no object")]
    NotAnObject,
    /// The member "op" is absent, no text, or none of the six names.
    #[error("no \"op\" that names an operation")]
    Op,
    /// The member "path" is absent, no text, or no JSON pointer.
    #[error("no \"path\" that is a pointer")]
    Path,
    /// The member "from" of a move or a copy is absent, no text, or no JSON pointer.
    #[error("no \"from\" that is a pointer")]
    From,
    /// The member "value" of an add, a replace or a test is absent. A null is a value.
    #[error("no \"value\"")]
    Value,
}

/// Why a patch document was not read.
#[derive(Clone, Copy, Debug, PartialEq, Eq, Error)]
pub enum PatchReadFault {
    /// The document is no array.
    #[error("a patch is an array")]
    NotAnArray,
    /// The item with that number, counted from 0, is no operation.
    #[error("operation {0}: {1}")]
    Item(usize, ItemFault),
    /// A request for memory was refused.
    #[error("out of memory")]
    OutOfMemory,
}

impl From<AllocError> for PatchFault {
    ghost use Rattle.std.specs.Prelude.{◌≡◌};
    ghost use Rattle.sj_text_core.specs.declared.patch_fault.PatchFault.TheVariants.{OutOfMemory};

    ghost from_gives = { λ _ e. e ≡ OutOfMemory };

    fn from(_error: AllocError) -> PatchFault {
        PatchFault::OutOfMemory
    }
}

impl From<AllocError> for PatchReadFault {
    ghost use Rattle.std.specs.Prelude.{◌≡◌};
    ghost use Rattle.sj_text_core.specs.declared.patch_fault.PatchReadFault.TheVariants.{OutOfMemory};

    ghost from_gives = { λ _ e. e ≡ OutOfMemory };

    fn from(_error: AllocError) -> PatchReadFault {
        PatchReadFault::OutOfMemory
    }
}

impl<T: Drop> From<AllocFailed<T>> for PatchReadFault {
    ghost use Rattle.std.specs.Prelude.{◌≡◌};
    ghost use Rattle.sj_text_core.specs.declared.patch_fault.PatchReadFault.TheVariants.{OutOfMemory};

    ghost from_gives = { λ _ e. e ≡ OutOfMemory };

    fn from(_error: AllocFailed<T>) -> PatchReadFault {
        PatchReadFault::OutOfMemory
    }
}

/// The document is let go.
impl<V: Drop> From<Refused<PatchReadFault, V>> for PatchReadFault {
    ghost use Rattle.std.specs.Prelude.{◌≡◌};

    ghost from_gives = { λ refused e. e ≡ refused.why };

    fn from(refused: Refused<PatchReadFault, V>) -> PatchReadFault {
        refused.why
    }
}
