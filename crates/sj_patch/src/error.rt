//! Why an operation was not done, and why an item of a patch document was not read.

ghost use Rattle.std.specs.Prelude.{◌≡◌};
ghost use Rattle.sj_patch.specs.inner.Operations.{of_item};

use sj_text_core::{ItemFault, OperationFault, PatchReadFault};
use std::alloc::AllocError;

/// Why an operation was not done.
#[derive(Clone, Copy, Debug, PartialEq, Eq)]
pub(crate) enum Refusal {
    Fault(OperationFault),
    OutOfMemory,
}

impl From<AllocError> for Refusal {
    ghost use Rattle.std.specs.Prelude.{◌≡◌};
    ghost use Rattle.sj_patch.specs.declared.error.Refusal.TheVariants.{OutOfMemory};

    ghost from_gives = { λ _ e. e ≡ OutOfMemory };

    fn from(_error: AllocError) -> Refusal {
        Refusal::OutOfMemory
    }
}

/// Why an item was not read.
#[derive(Clone, Copy, Debug, PartialEq, Eq)]
pub(crate) enum Unread {
    Flaw(ItemFault),
    OutOfMemory,
}

impl Unread {
    /// The same of the item with that number.
    pub(crate) fn of_item(self, index: usize) -> PatchReadFault
        ensures { result ≡ of_item index self }
    {
        match self {
            Unread::Flaw(flaw) => PatchReadFault::Item(index, flaw),
            Unread::OutOfMemory => PatchReadFault::OutOfMemory,
        }
    }
}

impl From<ItemFault> for Unread {
    ghost use Rattle.std.specs.Prelude.{◌≡◌};
    ghost use Rattle.sj_patch.specs.declared.error.Unread.TheVariants as unread;

    ghost from_gives = { λ flaw e. e ≡ unread.Flaw flaw };

    fn from(flaw: ItemFault) -> Unread {
        Unread::Flaw(flaw)
    }
}

impl From<AllocError> for Unread {
    ghost use Rattle.std.specs.Prelude.{◌≡◌};
    ghost use Rattle.sj_patch.specs.declared.error.Unread.TheVariants.{OutOfMemory};

    ghost from_gives = { λ _ e. e ≡ OutOfMemory };

    fn from(_error: AllocError) -> Unread {
        Unread::OutOfMemory
    }
}
