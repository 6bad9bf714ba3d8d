//! Refusals that hand back what was given.

ghost use Rattle.std.specs.Prelude.{◌≡◌};

use std::error::Error;
use std::fmt;

/// Why a call was refused, and the value that it was given.
#[derive(Debug, Drop)]
pub struct Refused<E, V> {
    pub why: E,
    pub value: V,
}

impl<E: Drop, V> Refused<E, V> {
    /// The same value, refused for another reason.
    pub fn because<F>(self, why: F) -> Refused<F, V>
        ensures reason { result.why ≡ why }
        ensures value { result.value ≡ self.value }
    {
        Refused {
            why,
            value: self.value,
        }
    }
}

/// The reason alone is told.
impl<E: fmt::Display, V> fmt::Display for Refused<E, V> {
    fn fmt<W: fmt::Write>(&self, f: &mut fmt::Formatter<W>) -> fmt::Result {
        self.why.fmt(f)
    }
}

impl<E: Error + Drop, V: fmt::Debug + Drop> Error for Refused<E, V> {}
