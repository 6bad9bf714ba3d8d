//! What is told, each time by one write.

use crate::fault::Fault;
use std::io::{self, Write};

/// Tells a text by one write to standard output, without a request for memory.
pub fn say(rt: &impl Print, text: &str) -> Result<(), Fault> {
    say_bytes(rt, text.as_bytes())
}

/// Tells bytes by one write to standard output, without a request for memory.
pub fn say_bytes(rt: &impl Print, bytes: &[u8]) -> Result<(), Fault> {
    io::writer(rt).write_all(bytes)?;
    Ok(())
}

/// Tells that the call is made next: what follows is the call.
pub fn say_call(rt: &impl Print) -> Result<(), Fault> {
    say(rt, "call: ")
}

/// Tells whether something is as it was.
pub fn say_kept(rt: &impl Print, what: &str, is_kept: bool) -> Result<(), Fault> {
    say(rt, what)?;
    say(
        rt,
        if is_kept {
            " as before, "
        } else {
            " CHANGED, "
        },
    )
}

/// Tells whether something was made.
pub fn say_made(rt: &impl Print, is_made: bool) -> Result<(), Fault> {
    say(rt, if is_made { "made\n" } else { "AllocError\n" })
}

/// Tells whether the call made a document.
pub fn say_again(rt: &impl Print, is_made: bool) -> Result<(), Fault> {
    say(
        rt,
        if is_made {
            "made, again "
        } else {
            "AllocError, then "
        },
    )
}

/// Tells whether an error was the one that should come.
pub fn say_right(rt: &impl Print, is_right: bool) -> Result<(), Fault> {
    say(
        rt,
        if is_right {
            "found\n"
        } else {
            "ANOTHER ERROR\n"
        },
    )
}
