//! Streams of documents, pieces of an input, and the memory of a tape that serves the next.

use refusals_common::{Fault, say, say_call, text_of};
use sj_pieces::Pieces;
use sj_stream::{Place, Repeats, Stream, Unread, unread_lines};
use sj_tape::{ErrorKind, Spare, Tape, to_tape_with_spare};
use sj_text_core::{Refused, ValueObjectAccessAsScalar};
use std::alloc::Global;
use std::io;

const LINES: &[u8] = b"{\"a\":[1,2]}\n\n[3,{\"b\":4}]\n";

/// Makes the call of that name.
pub fn run_call(rt: &(impl Print + AllocGlobal), call: &str) -> Result<(), Fault> {
    match call {
        "cold" => cold(rt, false),
        "cold_placed" => cold(rt, true),
        "warm" => warm(rt, false),
        "warm_placed" => warm(rt, true),
        "unread_lines" => unread(rt),
        "spare" => spare(rt),
        "pieces" => pieces(rt),
        _ => Err(Fault::Usage),
    }
}

/// Tells what a step of a stream answers.
fn tell_step(rt: &(impl Print + AllocGlobal), stream: &mut Stream<'_>) -> Result<(), Fault> {
    match stream.advance() {
        Some(Ok(1)) => say(rt, "line 1 read"),
        Some(Ok(3)) => say(rt, "line 3 read"),
        Some(Err(unread)) if unread.why == ErrorKind::OutOfMemory => say(rt, "OutOfMemory"),
        Some(_) => say(rt, "ANOTHER STEP"),
        None => say(rt, "no line"),
    }
}

/// A stream of the input, with places or without.
fn stream_of(alloc: Global, input: &mut [u8], placed: bool) -> Stream<'_> {
    let stream = Stream::new(alloc, input);
    if placed { stream.with_places() } else { stream }
}

/// Takes a stream's first step, and then the second.
fn cold(rt: &(impl Print + AllocGlobal), placed: bool) -> Result<(), Fault> {
    let mut bytes = LINES.to_vec(rt.alloc())?;
    say_call(rt)?;
    let mut stream = stream_of(rt.alloc(), bytes.as_mut_slice(), placed);
    tell_step(rt, &mut stream)?;
    say(rt, ", again ")?;
    tell_step(rt, &mut stream)?;
    say(rt, "\n")
}

/// Whether a refusal is told with its place.
fn is_told(room: &mut String) -> bool {
    let unread = Unread {
        line: 3,
        place: Some(Place { at: 5, column: 6 }),
        why: ErrorKind::Syntax,
    };
    write!(room, "{unread}").is_ok() && room.as_str() == "line 3, column 6: syntax error"
}

/// Takes the second step of a stream, and looks at its document and at the text.
fn warm(rt: &(impl Print + AllocGlobal), placed: bool) -> Result<(), Fault> {
    let mut bytes = LINES.to_vec(rt.alloc())?;
    let mut room = String::with_capacity(rt.alloc(), 40)?;
    let mut stream = stream_of(rt.alloc(), bytes.as_mut_slice(), placed);
    let first = matches!(stream.advance(), Some(Ok(1)));
    say_call(rt)?;
    let second = matches!(stream.advance(), Some(Ok(3)));
    let found = match stream.value(Repeats::First) {
        Some(document) => document.get_idx(1).and_then(|item| item.get_u8("b")),
        None => None,
    };
    let is_text = match stream.text() {
        Some(text) => placed && text == b"[3,{\"b\":4}]".as_slice(),
        None => !placed,
    };
    let is_end = stream.advance().is_none() && is_told(&mut room);
    let is_right = first && second && found == Some(4) && is_text && is_end;
    say(rt, if is_right { "found\n" } else { "NOT FOUND\n" })
}

/// Tells which lines are not read, twice.
fn unread(rt: &(impl Print + AllocGlobal)) -> Result<(), Fault> {
    let mut bytes = b"[1\n[2]".to_vec(rt.alloc())?;
    let mut copy = bytes.clone()?;
    say_call(rt)?;
    tell_unread(rt, bytes.as_mut_slice())?;
    say(rt, "again ")?;
    tell_unread(rt, copy.as_mut_slice())
}

fn tell_unread(rt: &(impl Print + AllocGlobal), bytes: &mut [u8]) -> Result<(), Fault> {
    match unread_lines(rt.alloc(), bytes) {
        Ok(unread) if unread.iter().any(|line| line.why == ErrorKind::OutOfMemory) => {
            say(rt, "out of memory\n")
        }
        Ok(unread) => match unread.first() {
            Some(line) if line.line == 1 && unread.len() == 1 => say(rt, "line 1\n"),
            _ => say(rt, "OTHER LINES\n"),
        },
        Err(_) => say(rt, "out of memory\n"),
    }
}

/// Takes the next piece of an input, twice.
fn pieces(rt: &(impl Print + AllocGlobal)) -> Result<(), Fault> {
    let mut pieces = Pieces::new(LINES);
    let mut piece = Vec::new(rt.alloc());
    say_call(rt)?;
    tell_piece(rt, pieces.next_piece(&mut piece))?;
    let (mut count, mut last) = (0u8, 0);
    for line in pieces.lines(&mut piece) {
        count = count.saturating_add(1);
        last = line.number;
    }
    let is_all = pieces.lines_before() == 0 && (count == 0 || (count == 2 && last == 3));
    say(rt, if is_all { ", again " } else { ", OTHER LINES" })?;
    tell_piece(rt, pieces.next_piece(&mut piece))?;
    say(rt, "\n")
}

/// Tells what is answered where the next piece is asked for.
fn tell_piece(rt: &impl Print, read: io::Result<bool>) -> Result<(), Fault> {
    match read {
        Ok(true) => say(rt, "a piece"),
        Ok(false) => say(rt, "no more"),
        Err(fault) if fault.kind() == io::ErrorKind::OutOfMemory => say(rt, "OutOfMemory"),
        Err(_) => say(rt, "ANOTHER FAULT"),
    }
}

/// Reads a text into new memory, and then another into the memory that is left.
fn spare(rt: &(impl Print + AllocGlobal)) -> Result<(), Fault> {
    let alloc = rt.alloc();
    let mut bytes = text_of(alloc, "example")?;
    let mut copy = text_of(alloc, "example")?;
    let spare = Spare::new(alloc);
    say_call(rt)?;
    let read = to_tape_with_spare(bytes.as_mut_slice(), spare);
    let spare = tell_tape(rt, read)?;
    say(rt, "again ")?;
    let read = to_tape_with_spare(copy.as_mut_slice(), spare);
    tell_tape(rt, read)?;
    Ok(())
}

/// Tells how many nodes the tape has, and gives its memory up.
fn tell_tape<'i>(
    rt: &(impl Print + AllocGlobal),
    read: Result<Tape<'i>, Refused<ErrorKind, Spare<'i>>>,
) -> Result<Spare<'i>, Fault> {
    match read {
        Ok(tape) => {
            let is_whole = tape.as_value().nodes().len() == 6;
            say(
                rt,
                if is_whole {
                    "6 nodes\n"
                } else {
                    "OTHER NODES\n"
                },
            )?;
            Ok(tape.into_spare(rt.alloc()))
        }
        Err(refused) => {
            let is_memory = refused.why == ErrorKind::OutOfMemory;
            say(
                rt,
                if is_memory {
                    "OutOfMemory\n"
                } else {
                    "ANOTHER FAULT\n"
                },
            )?;
            Ok(refused.value)
        }
    }
}
