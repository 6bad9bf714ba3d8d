//! Pretty prints, at the end of a list of bytes.

ghost use Rattle.std.specs.Prelude.{◌≡◌, ◌+◌, ◌*◌, ◌^◌, ◌<◌, Some};

use super::BaseGenerator;
use crate::output::{append_line, append_quoted};
use std::alloc::AllocError;

/// Pretty prints, at the end of a list of bytes.
#[derive(Drop)]
pub struct PrettyWriterGenerator<'a> {
    out: &'a mut Vec<u8>,
    level: usize,
    spaces: u16,
    ghost fits: { level * spaces + 1 < 2 ^ 64 },
}

impl<'a> PrettyWriterGenerator<'a> {
    /// A generator that writes behind what is there, with so many spaces a level.
    pub fn new(out: &'a mut Vec<u8>, spaces: u16) -> PrettyWriterGenerator<'a>
        ensures sink { ⟦<PrettyWriterGenerator<'a> as BaseGenerator>⟧.sink result ≡ Some out.entry.ghost_name }
        ensures written { ⟦<PrettyWriterGenerator<'a> as BaseGenerator>⟧.written result ≡ out.old.items }
        ensures style { ⟦<PrettyWriterGenerator<'a> as BaseGenerator>⟧.style result ≡ Some spaces }
        ensures level { ⟦<PrettyWriterGenerator<'a> as BaseGenerator>⟧.level result ≡ 0 }
    {
        PrettyWriterGenerator {
            out,
            level: 0,
            spaces,
        }
    }
}

impl BaseGenerator for PrettyWriterGenerator<'_> {
    ghost written = { λ g. g.out.now.items };

    ghost style = { λ g. Some g.spaces };

    ghost level = { λ g. g.level };

    ghost sink = { λ g. Some g.out.ghost_name };

    fn write(&mut self, text: &str) -> Result<(), AllocError> {
        self.out.extend_from_slice(text.as_bytes())
    }

    fn write_string(&mut self, text: &str) -> Result<(), AllocError> {
        append_quoted(self.out, text)
    }

    fn write_min(&mut self, pretty: &str, _compact: &str) -> Result<(), AllocError> {
        self.out.extend_from_slice(pretty.as_bytes())
    }

    fn new_line(&mut self) -> Result<(), AllocError> {
        append_line(self.out, self.level * usize::from(self.spaces))
    }

    fn indent(&mut self) {
        self.level += 1;
    }

    fn dedent(&mut self) {
        self.level -= 1;
    }
}
