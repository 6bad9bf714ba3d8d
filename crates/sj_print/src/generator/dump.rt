//! Compact prints, into bytes of their own.

ghost use Rattle.std.specs.Prelude.{◌≡◌, [], None, string_bytes};

use super::BaseGenerator;
use super::text::Text;
use std::alloc::{AllocError, Global};

/// Compact prints, into bytes of its own.
#[derive(Drop)]
pub struct DumpGenerator {
    code: Text,
    level: usize,
}

impl DumpGenerator {
    /// A generator that has written nothing.
    pub fn new(alloc: Global) -> DumpGenerator
        ensures written { ⟦<DumpGenerator as BaseGenerator>⟧.written result ≡ [] }
        ensures style { ⟦<DumpGenerator as BaseGenerator>⟧.style result ≡ None }
        ensures level { ⟦<DumpGenerator as BaseGenerator>⟧.level result ≡ 0 }
    {
        DumpGenerator {
            code: Text::new(alloc),
            level: 0,
        }
    }

    /// The text that was written.
    pub fn consume(self) -> String
        ensures { string_bytes result ≡ ⟦<DumpGenerator as BaseGenerator>⟧.written self }
    {
        self.code.into_string()
    }
}

impl BaseGenerator for DumpGenerator {
    ghost written = { λ g. g.code };

    ghost style = { λ _. None };

    ghost level = { λ g. g.level };

    ghost sink = { λ _. None };

    fn write(&mut self, text: &str) -> Result<(), AllocError> {
        self.code.push_str(text)
    }

    fn write_string(&mut self, text: &str) -> Result<(), AllocError> {
        self.code.push_quoted(text)
    }

    fn write_min(&mut self, _pretty: &str, compact: &str) -> Result<(), AllocError> {
        self.code.push_str(compact)
    }

    fn new_line(&mut self) -> Result<(), AllocError> {
        Ok(())
    }

    fn indent(&mut self) {
        self.level += 1;
    }

    fn dedent(&mut self) {
        self.level -= 1;
    }
}
