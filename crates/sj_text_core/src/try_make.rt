//! Values that are made of others where that takes memory.

ghost use Rattle.std.specs.Prelude.{IfOk};

use crate::meaning::Meaning;
use std::alloc::{AllocError, Global};

/// A value is made of one of another type, where that takes memory.
pub trait TryMake<T>: Meaning + Sized {
    /// Holds of a value and of each that may be made of it.
    ghost makes: { T → Self → Type 0 };

    /// Makes the value. On a refused request for memory `from` is given up.
    fn try_make(alloc: Global, from: T) -> Result<Self, AllocError>
        ensures { IfOk result (λ v. makes from v) };
}
