//! The program, on any runtime.

ghost use Rattle.std.specs.Prelude.{◌+◌, ◌<◌, ◌^◌, length};

use crate::fault::Fault;
use crate::outputs::{Output, open, write_all};
use crate::piece::route_piece;
use crate::reading::read_routes;
use crate::report::{Counts, tell, tell_broken, tell_progress};
use crate::routing::Route;
use crate::words::{HELP, Task, read_task};
use sj_pieces::Pieces;
use std::io::{self, BufReader, ErrorKind};
use std::rt::{Env, Files};

/// How many bytes of the input are read ahead.
const ROOM: usize = 1 << 18;

/// How many pieces there may be.
const PIECES: u64 = 1 << 62;

/// How many pieces there are between two lines that tell the progress.
const PROGRESS: u64 = 64;

/// The exit status where some lines were not read.
const SOME_UNREAD: u8 = 1;

/// Routes standard input, and answers the exit status.
pub fn run<R>(rt: &R, tells_progress: bool) -> Result<u8, Fault>
where
    R: Env + Files + Input + Print + Eprint + AllocGlobal,
{
    let rules = match read_task(rt)? {
        Task::Help => {
            return match print!(rt; "{HELP}") {
                Ok(()) => Ok(0),
                Err(_) => Err(Fault::Output(String::from_str(rt.alloc(), "-")?)),
            };
        }
        Task::Route { rules } => rules,
    };
    let mut routes = read_routes(rt, rules)?;
    let mut outputs = open(rt, &routes)?;
    let mut counts = Counts::default();
    let routed = route_all(rt, &mut routes, &mut outputs, &mut counts, tells_progress);
    let _ = tell(rt, counts, &routes);
    routed?;
    Ok(if counts.unread > 0 { SOME_UNREAD } else { 0 })
}

/// Routes the lines of standard input, piece by piece. Where a read fails, the full lines in front of
/// that are routed.
fn route_all<R>(
    rt: &R,
    routes: &mut [Route],
    outputs: &mut [Output<R::File>],
    counts: &mut Counts,
    tells_progress: bool,
) -> Result<(), Fault>
where
    R: Files + Input + Print + Eprint + AllocGlobal,
{
    let reader = BufReader::with_capacity(rt.alloc(), ROOM, rt.reader()).map_err(input_fault)?;
    let mut pieces = Pieces::new(reader);
    let mut piece = Vec::new(rt.alloc());
    for turn in 0..PIECES {
        let read = pieces.next_piece(&mut piece);
        route_one(
            rt,
            routes,
            outputs,
            counts,
            pieces.lines_before(),
            &mut piece,
        )?;
        if !read.map_err(input_fault)? {
            return Ok(());
        }
        if tells_progress && turn % PROGRESS == 0 {
            tell_progress(rt, *counts);
        }
    }
    Ok(())
}

/// Routes the lines of a piece behind so many lines, and writes them. What waits is written also where one
/// of them ends the run.
fn route_one<R>(
    rt: &R,
    routes: &mut [Route],
    outputs: &mut [Output<R::File>],
    counts: &mut Counts,
    before: usize,
    piece: &mut [u8],
) -> Result<(), Fault>
where
    R: Files + Print + Eprint + AllocGlobal,
    requires { before + length piece.old < 2 ^ 64 }
{
    let mut broken = Vec::new(rt.alloc());
    let routed = route_piece(rt.alloc(), routes, before, piece, counts, &mut broken);
    tell_broken(rt, &broken);
    write_all(rt, routes, outputs)?;
    routed?;
    Ok(())
}

/// The fault of a read that failed.
fn input_fault(error: io::Error) -> Fault {
    match error.kind() {
        ErrorKind::OutOfMemory => Fault::OutOfMemory,
        _ => Fault::Input,
    }
}
