//! Whether a lazy value is within a depth.

ghost use Rattle.std.specs.Prelude.{◌↔◌, ◌≤◌, IfOk, IsTrue};
ghost use Rattle.sj_text_core.specs.Tree.{depth};
ghost use Rattle.sj_lazy.specs.Value.{value_tree};

use super::{Lazy, Value};
use sj_document::is_within_depth;
use std::alloc::{AllocError, Global};

impl<'b, 't, 'i> Value<'b, 't, 'i> {
    /// Whether at most so many arrays and objects stand inside one another. It takes a stack of one
    /// size, and memory for as many levels as are open at once. It is refused only for want of that.
    pub fn is_within_depth(&self, levels: usize, alloc: Global) -> Result<bool, AllocError>
        ensures { IfOk result (λ is. IsTrue is ↔ (depth (value_tree self.now) ≤ levels)) }
    {
        match self {
            Lazy::Tape(part) => is_within_depth(part, levels, alloc),
            Lazy::Value(value) => value.document().is_within_depth(levels, alloc),
        }
    }
}
