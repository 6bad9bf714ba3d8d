//! A print in a block of its own, or nothing, as C keeps it.

ghost use Rattle.std.specs.Prelude.{◌≡◌, ◌≢◌, Option, Some, None};
ghost use Rattle.sj_c.specs.declared.held.Printed.{Printed};
ghost use Rattle.sj_c.specs.Owned.{printed};

use crate::held::Printed;
use crate::unboxed::Unboxed;
use std::alloc::Global;
use std::marker::Model;

// Why so: docs/REFUSED.md, "Each kind of handle".
/// The place of a print, or null.
#[repr(C)]
#[derive(Drop)]
pub struct KeptText {
    at: *mut u8,
    alloc: Global,
    pub ghost holds: { Option Printed },
}

impl Model for KeptText {
    ghost also_owns = { λ k. printed k.alloc k.at k.holds };
}

impl KeptText {
    /// Nothing.
    pub fn empty(alloc: Global) -> KeptText
        ensures { result.holds ≡ None }
    {
        let at: *mut u8 = std::ptr::null_mut();
        KeptText { at, alloc }
    }

    /// The print.
    pub fn of(unboxed: Unboxed<Printed, Global>) -> KeptText
        ensures { result.holds ≡ Some unboxed.content }
    {
        let Unboxed { place, allocator } = unboxed;
        let at: *mut u8 = place.cast();
        KeptText {
            at,
            alloc: allocator,
        }
    }

    /// The print again.
    pub fn into_unboxed(self) -> Unboxed<Printed, Global>
        requires { self.holds ≢ None }
        ensures { self.holds ≡ Some result.content }
    {
        let KeptText { at, alloc } = self;
        let place: *mut Printed = at.cast();
        Unboxed {
            place,
            allocator: alloc,
        }
    }
}

unsafe impl std::marker::Send for KeptText {}
