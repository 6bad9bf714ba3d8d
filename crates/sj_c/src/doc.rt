//! The handle of a document.

ghost use Rattle.std.specs.Prelude.{◌≢◌, ◌↔◌, IsTrue, None};

use crate::held::Held;
use crate::kept::Kept;
use crate::unboxed::Unboxed;
use std::alloc::Global;
use std::mem::replace;

/// A document, or none. To C it is `sj_doc`; all bytes zero is none.
#[repr(C)]
#[derive(Drop)]
pub struct Doc {
    pub kept: Kept,
    pub is_open: bool,
    pub ghost in_step: { IsTrue is_open ↔ (kept.holds ≢ None) },
}

impl Doc {
    ghost use Rattle.std.specs.Prelude.{◌≡◌, IsNone, IfSome, Some};

    /// Takes the document out, where there is one.
    pub fn take(&mut self, alloc: Global) -> Option<Box<Held>>
        ensures none { IsNone result ↔ (self.old.kept.holds ≡ None) }
        ensures some { IfSome result (λ b. self.old.kept.holds ≡ Some b.value) }
        ensures empty { self.new.kept.holds ≡ None }
    {
        if self.is_open {
            let kept = replace(&mut self.kept, Kept::empty(alloc));
            self.is_open = false;
            Some(kept.into_unboxed().into_box())
        } else {
            None
        }
    }

    /// Puts a document into a handle that has none.
    pub fn put(&mut self, held: Box<Held>)
        requires { self.old.kept.holds ≡ None }
        ensures { self.new.kept.holds ≡ Some held.value }
    {
        self.kept = Kept::of(Unboxed::of(held));
        self.is_open = true;
    }
}
