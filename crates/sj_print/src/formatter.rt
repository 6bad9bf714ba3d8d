//! Prints through a formatter.

ghost use Rattle.std.specs.Fmt.{WritesOnOk};
ghost use Rattle.sj_text_core.specs.Print.{compact};

use crate::layout::Layout;
use crate::output::Output;
use crate::parts::Parts;
use crate::print::print;
use std::alloc::Global;
use std::fmt;

/// A formatter, up to its first fault.
#[derive(Drop)]
struct Shown<'f, W> {
    formatter: &'f mut fmt::Formatter<W>,
    result: fmt::Result,
}

impl<'f, W: fmt::Write> Output for Shown<'f, W> {
    ghost use Rattle.std.specs.Prelude.{◌≡◌, IsOk};
    ghost use Rattle.std.specs.Borrow.{GName};
    ghost use Rattle.std.specs.Fmt.{IsPlainFormatter, HasWritten};
    ghost use Rattle.std.specs.declared.fmt.Formatter.{Formatter};

    // whose text it is, and the formatter before
    ghost Start = { GName × Formatter W };

    ghost holds = { λ start s b. (s.formatter.ghost_name ≡ start.0) × (IsPlainFormatter start.1 → IsOk s.result → HasWritten W.write_str_gives start.1 b s.formatter.now) };

    fn put_bytes(self, bytes: &[u8]) -> Self {
        let Shown { formatter, result } = self;
        let result = match (result, str::from_utf8(bytes)) {
            (Ok(()), Ok(text)) => formatter.write_str(text),
            _ => Err(fmt::Error),
        };
        Shown { formatter, result }
    }

    // A compact print has no lines.
    fn put_line(self, _spaces: usize) -> Self {
        Shown {
            formatter: self.formatter,
            result: Err(fmt::Error),
        }
    }
}

/// Writes the value's compact print to the formatter, up to its first fault.
pub fn display<P: Parts, W: fmt::Write>(
    value: &P,
    alloc: Global,
    formatter: &mut fmt::Formatter<W>,
) -> fmt::Result
    ensures { WritesOnOk W.write_str_gives formatter.old result (compact (P.tree_of value.now)) formatter.new }
{
    let shown = Shown {
        formatter,
        result: Ok(()),
    };
    print(value, Layout::Compact, alloc, shown).result
}
