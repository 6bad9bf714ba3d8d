//! A document in a block of its own, or nothing, as C keeps it.

ghost use Rattle.std.specs.Prelude.{◌≡◌, ◌≢◌, Option, Some, None};
ghost use Rattle.std.specs.Coded.{coded_option};
ghost use Rattle.sj_c.specs.declared.held.Held.{Held};
ghost use Rattle.sj_c.specs.contracts.held.Held.{the_row as held_row};
ghost use Rattle.sj_c.specs.Owned.{held};

use crate::held::Held;
use crate::unboxed::Unboxed;
use std::alloc::Global;
use std::marker::Model;

/// The place of a document, or null.
#[repr(C)]
#[derive(Drop)]
pub struct Kept {
    at: *mut u8,
    alloc: Global,
    pub ghost holds: { Option Held } by { coded_option held_row.coded },
}

impl Model for Kept {
    ghost also_owns = { λ k. held k.alloc k.at k.holds };
}

impl Kept {
    /// Nothing.
    pub fn empty(alloc: Global) -> Kept
        ensures { result.holds ≡ None }
    {
        let at: *mut u8 = std::ptr::null_mut();
        Kept { at, alloc }
    }

    /// The document.
    pub fn of(unboxed: Unboxed<Held, Global>) -> Kept
        ensures { result.holds ≡ Some unboxed.content }
    {
        let Unboxed { place, allocator } = unboxed;
        let at: *mut u8 = place.cast();
        Kept {
            at,
            alloc: allocator,
        }
    }

    /// The document again.
    pub fn into_unboxed(self) -> Unboxed<Held, Global>
        requires { self.holds ≢ None }
        ensures { self.holds ≡ Some result.content }
    {
        let Kept { at, alloc } = self;
        let place: *mut Held = at.cast();
        Unboxed {
            place,
            allocator: alloc,
        }
    }
}

unsafe impl std::marker::Send for Kept {}
