//! The lines of a piece of the input.

ghost use Rattle.std.specs.Prelude.{◌≢◌, ◌+◌, ◌<◌, ◌^◌, suc, length, OnOk};
ghost use Rattle.sj_lines.specs.Lines.{full_lines, numbered};
ghost use Rattle.sjroute.specs.Routed.{AllTaken, IsUnread, Routed, text_to};

use crate::report::Counts;
use crate::routing::{Route, put_message, put_unread};
use sj_stream::{Lines, Stream, Unread};
use sj_tape::{ErrorKind, JsonError, Repeats};
use std::alloc::Global;

// Why so: docs/REFUSED.md, "A function can't be given `Lines`".
/// Routes the lines of a piece behind so many lines: each text goes out as it came. The lines that are
/// not read are put behind `broken`.
pub fn route_piece(
    alloc: Global,
    routes: &mut [Route],
    before: usize,
    piece: &mut [u8],
    counts: &mut Counts,
    broken: &mut Vec<Unread>,
) -> Result<(), JsonError>
    requires { before + length piece.old < 2 ^ 64 }
    ensures { OnOk result (Routed (numbered (suc before) (full_lines piece.old)) routes.old routes.new) }
{
    let mut stream = Stream::of_lines(alloc, Lines::behind(before, piece)).with_places();
    while let Some(step) = stream.advance() {
        counts.lines = counts.lines.saturating_add(1);
        let Some(text) = stream.text() else {
            return Err(JsonError::OutOfMemory);
        };
        match step {
            Ok(_) => {
                if let Some(message) = stream.value(Repeats::First) {
                    let is_met = put_message(alloc, routes, text, message)?;
                    counts.unmet = counts.unmet.saturating_add(u64::from(!is_met));
                }
            }
            Err(unread) => take_broken(routes, text, unread, counts, broken)?,
        }
    }
    Ok(())
}

/// Tells of a line that was not read, counts it, and routes its text; refused where that was for want
/// of memory.
fn take_broken(
    routes: &mut [Route],
    text: &[u8],
    unread: Unread,
    counts: &mut Counts,
    broken: &mut Vec<Unread>,
) -> Result<(), JsonError>
    ensures known { OnOk result (unread.why ≢ ErrorKind.OutOfMemory) }
    ensures taken { OnOk result (AllTaken IsUnread (text_to text.now) routes.old routes.new) }
{
    if unread.why == ErrorKind::OutOfMemory {
        return Err(JsonError::OutOfMemory);
    }
    broken.push(unread)?;
    counts.unread = counts.unread.saturating_add(1);
    put_unread(routes, text)
}
