//! A box taken apart.

ghost use Rattle.std.specs.Prelude.{◌≡◌};
ghost use Rattle.std.specs.Box.Ownership.{box_owns};

use std::alloc::Allocator;
use std::marker::Model;

/// The place of a value in a block of its own, with the allocator that the block came from.
pub struct Unboxed<T, A: Allocator> {
    pub place: *mut T,
    pub allocator: A,
    pub ghost content: { T },
}

impl<T, A: Allocator> Model for Unboxed<T, A> {
    ghost also_owns = { λ u. box_owns (A.dealloc_token u.allocator) T.row u.place u.content };
}

impl<T: Drop, A: Allocator> Unboxed<T, A> {
    /// Takes the box apart.
    pub fn of(boxed: Box<T, A>) -> Unboxed<T, A>
        ensures { result.content ≡ boxed.value }
    {
        let (place, allocator) = Box::into_raw_with_allocator(boxed);
        Unboxed { place, allocator }
    }

    /// Makes the box again.
    pub fn into_box(self) -> Box<T, A>
        ensures { result.value ≡ self.content }
    {
        let Unboxed { place, allocator } = self;
        unsafe { Box::from_raw(allocator, place) }
    }
}
