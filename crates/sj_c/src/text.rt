//! The handle of a print.

ghost use Rattle.std.specs.Prelude.{◌≢◌, ◌↔◌, IsTrue, None};

use crate::held::Printed;
use crate::kept_text::KeptText;
use crate::unboxed::Unboxed;
use std::alloc::Global;
use std::mem::replace;

/// A print, or none. To C it is `sj_text`; all bytes zero is none.
#[repr(C)]
#[derive(Drop)]
pub struct Text {
    pub kept: KeptText,
    pub is_open: bool,
    pub ghost in_step: { IsTrue is_open ↔ (kept.holds ≢ None) },
}

impl Text {
    ghost use Rattle.std.specs.Prelude.{◌≡◌, IsNone, IfSome, Some};

    /// Takes the print out, where there is one.
    pub fn take(&mut self, alloc: Global) -> Option<Box<Printed>>
        ensures none { IsNone result ↔ (self.old.kept.holds ≡ None) }
        ensures some { IfSome result (λ b. self.old.kept.holds ≡ Some b.value) }
        ensures empty { self.new.kept.holds ≡ None }
    {
        if self.is_open {
            let kept = replace(&mut self.kept, KeptText::empty(alloc));
            self.is_open = false;
            Some(kept.into_unboxed().into_box())
        } else {
            None
        }
    }

    /// Puts a print into a handle that has none.
    pub fn put(&mut self, printed: Box<Printed>)
        requires { self.old.kept.holds ≡ None }
        ensures { self.new.kept.holds ≡ Some printed.value }
    {
        self.kept = KeptText::of(Unboxed::of(printed));
        self.is_open = true;
    }
}
