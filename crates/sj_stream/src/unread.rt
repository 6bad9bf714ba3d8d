//! Lines that are not read.

ghost use Rattle.sj_stream.specs.Places.{IsPlaceIn};

use sj_fault::fault_at;
use sj_tape::{ErrorKind, JsonError};
use std::error::Error;
use std::fmt;

/// Where a text is refused.
#[derive(Clone, Copy, Debug, PartialEq, Eq)]
pub struct Place {
    /// How many bytes of the text stand in front of it.
    pub at: usize,
    /// Its column in bytes, from 1 on.
    pub column: usize,
}

/// A line that is not read. It is told as `line 3: syntax error`, or with its place as
/// `line 3, column 6: syntax error`.
#[derive(Clone, Copy, Debug, PartialEq, Eq)]
pub struct Unread {
    /// Which line of the input it is, from 1 on.
    pub line: usize,
    /// Where no readable text goes on so, as `sj_fault::fault_at` has it; None where no places are told,
    /// and for want of memory.
    pub place: Option<Place>,
    /// Why it is not read.
    pub why: ErrorKind,
}

impl fmt::Display for Unread {
    fn fmt<W: fmt::Write>(&self, f: &mut fmt::Formatter<W>) -> fmt::Result {
        let Unread { line, place, why } = self;
        match place {
            Some(Place { at: _, column }) => write!(f, "line {line}, column {column}: {why}"),
            None => write!(f, "line {line}: {why}"),
        }
    }
}

impl Error for Unread {}

/// The number of the line and the place are given up.
impl From<Unread> for JsonError {
    ghost use Rattle.std.specs.Prelude.{◌≡◌};
    ghost use Rattle.sj_text_core.specs.Faults.{unread};

    ghost from_gives = { λ line e. e ≡ unread line.why };

    fn from(line: Unread) -> JsonError {
        JsonError::from(line.why)
    }
}

/// Where the text is refused: in front of its first byte, should no place be found.
pub(crate) fn place_in(text: &[u8]) -> Place
    ensures { IsPlaceIn text.now result }
{
    match fault_at(text) {
        Some(fault) => Place {
            at: fault.at,
            column: fault.column,
        },
        None => Place { at: 0, column: 1 },
    }
}
