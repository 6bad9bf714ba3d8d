//! Pretty prints, into bytes of their own.

ghost use Rattle.std.specs.Prelude.{◌≡◌, ◌+◌, ◌*◌, ◌^◌, ◌<◌, [], Some, None, string_bytes};

use super::BaseGenerator;
use super::text::Text;
use std::alloc::{AllocError, Global};

/// Pretty prints, into bytes of its own.
#[derive(Drop)]
pub struct PrettyGenerator {
    code: Text,
    level: usize,
    spaces: u16,
    ghost fits: { level * spaces + 1 < 2 ^ 64 },
}

impl PrettyGenerator {
    /// A generator that has written nothing, with so many spaces a level.
    pub fn new(alloc: Global, spaces: u16) -> PrettyGenerator
        ensures written { ⟦<PrettyGenerator as BaseGenerator>⟧.written result ≡ [] }
        ensures style { ⟦<PrettyGenerator as BaseGenerator>⟧.style result ≡ Some spaces }
        ensures level { ⟦<PrettyGenerator as BaseGenerator>⟧.level result ≡ 0 }
    {
        PrettyGenerator {
            code: Text::new(alloc),
            level: 0,
            spaces,
        }
    }

    /// The text that was written.
    pub fn consume(self) -> String
        ensures { string_bytes result ≡ ⟦<PrettyGenerator as BaseGenerator>⟧.written self }
    {
        self.code.into_string()
    }
}

impl BaseGenerator for PrettyGenerator {
    ghost written = { λ g. g.code };

    ghost style = { λ g. Some g.spaces };

    ghost level = { λ g. g.level };

    ghost sink = { λ _. None };

    fn write(&mut self, text: &str) -> Result<(), AllocError> {
        self.code.push_str(text)
    }

    fn write_string(&mut self, text: &str) -> Result<(), AllocError> {
        self.code.push_quoted(text)
    }

    fn write_min(&mut self, pretty: &str, _compact: &str) -> Result<(), AllocError> {
        self.code.push_str(pretty)
    }

    fn new_line(&mut self) -> Result<(), AllocError> {
        self.code.push_line(self.level * usize::from(self.spaces))
    }

    fn indent(&mut self) {
        self.level += 1;
    }

    fn dedent(&mut self) {
        self.level -= 1;
    }
}
