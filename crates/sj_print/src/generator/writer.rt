//! Compact prints, at the end of a list of bytes.

ghost use Rattle.std.specs.Prelude.{◌≡◌, Some, None};

use super::BaseGenerator;
use crate::output::append_quoted;
use std::alloc::AllocError;

/// Compact prints, at the end of a list of bytes.
#[derive(Drop)]
pub struct WriterGenerator<'a> {
    out: &'a mut Vec<u8>,
    level: usize,
}

impl<'a> WriterGenerator<'a> {
    /// A generator that writes behind what is there.
    pub fn new(out: &'a mut Vec<u8>) -> WriterGenerator<'a>
        ensures sink { ⟦<WriterGenerator<'a> as BaseGenerator>⟧.sink result ≡ Some out.entry.ghost_name }
        ensures written { ⟦<WriterGenerator<'a> as BaseGenerator>⟧.written result ≡ out.old.items }
        ensures style { ⟦<WriterGenerator<'a> as BaseGenerator>⟧.style result ≡ None }
        ensures level { ⟦<WriterGenerator<'a> as BaseGenerator>⟧.level result ≡ 0 }
    {
        WriterGenerator { out, level: 0 }
    }
}

impl BaseGenerator for WriterGenerator<'_> {
    ghost written = { λ g. g.out.now.items };

    ghost style = { λ _. None };

    ghost level = { λ g. g.level };

    ghost sink = { λ g. Some g.out.ghost_name };

    fn write(&mut self, text: &str) -> Result<(), AllocError> {
        self.out.extend_from_slice(text.as_bytes())
    }

    fn write_string(&mut self, text: &str) -> Result<(), AllocError> {
        append_quoted(self.out, text)
    }

    fn write_min(&mut self, _pretty: &str, compact: &str) -> Result<(), AllocError> {
        self.out.extend_from_slice(compact.as_bytes())
    }

    fn new_line(&mut self) -> Result<(), AllocError> {
        Ok(())
    }

    fn indent(&mut self) {
        self.level += 1;
    }

    fn dedent(&mut self) {
        self.level -= 1;
    }
}
