//! Comparisons across types, read from the other side.

ghost use Rattle.std.specs.Prelude.{◌↔◌, IsTrue};

use crate::same_as::SameAs;

/// What a `D` can be compared with: each type that `SameAs` of `D` is there for.
///
/// A bound by it in the place of `D: SameAs<X>` lets the impls for `&X`, `&[X]` and maps stand side
/// by side.
pub trait SameWith<D> {
    /// The relation of the two values that is answered.
    ghost same_with: { D → Self → Type 0 };

    /// Whether the two are the same.
    fn is_same_with(&self, other: &D) -> bool
        ensures { IsTrue result ↔ same_with other.now self.now };
}

impl<D: SameAs<X>, X> SameWith<D> for X {
    ghost same_with = { D.same };

    fn is_same_with(&self, other: &D) -> bool {
        other.same_as(self)
    }
}
