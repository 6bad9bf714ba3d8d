//! One command line.

use refusals_common::{Fault, say, say_call};
use sj_commands::{Command, command_of, request_of};
use std::alloc::{AllocError, Global};

/// What a line is read to.
#[derive(Clone, Copy)]
pub enum Reading {
    Command,
    Request,
}

/// The line of that name. None is a command but the last.
fn line_of(alloc: Global, name: &str) -> Result<Vec<u8>, Fault> {
    let line = match name {
        "number" => "7",
        "word" => "help",
        "words" => "help me out, please",
        "cut" => "[1,2",
        "numbers" => "[1,2,3",
        "open" => "[\"insert\",[],\"n\",true",
        "len" => "[\"len\",[]]",
        _ => return Err(Fault::Usage),
    };
    Ok(line.as_bytes().to_vec(alloc)?)
}

/// Tells which command a line is.
fn say_command(rt: &impl Print, command: &Result<Command, AllocError>) -> Result<(), Fault> {
    match command {
        Ok(Command::Bad) => say(rt, "bad command\n"),
        Ok(Command::Len(_)) => say(rt, "len\n"),
        Ok(_) => say(rt, "ANOTHER COMMAND\n"),
        Err(AllocError) => say(rt, "OutOfMemory\n"),
    }
}

/// The command of a line, read so.
fn command_by(alloc: Global, reading: Reading, line: &mut [u8]) -> Result<Command, AllocError> {
    match reading {
        Reading::Command => command_of(alloc, line),
        Reading::Request => Ok(Command::from(request_of(alloc, line)?)),
    }
}

/// Reads the line between the first two writes, and again from a fresh copy.
pub fn read(rt: &(impl Print + AllocGlobal), reading: Reading, name: &str) -> Result<(), Fault> {
    let alloc = rt.alloc();
    let mut line = line_of(alloc, name)?;
    let mut copy = line_of(alloc, name)?;
    say_call(rt)?;
    say_command(rt, &command_by(alloc, reading, line.as_mut_slice()))?;
    say(rt, "again ")?;
    say_command(rt, &command_by(alloc, reading, copy.as_mut_slice()))
}
