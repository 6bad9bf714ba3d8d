//! Readings and prints of one text, and what changes documents, one case alone, so that its
//! instructions and its requests for memory can be counted.

use crate::changed::{Merge, commanded, merged};
use crate::texts::{Kind, text_of};
use sj_run::Form;
use sj_tape::to_tape;
use sj_text_core::{JsonError, Writable};
use std::alloc::Global;
use std::io;

/// The bytes of the text, about.
const SIZE: usize = 50_000;

/// What a text is read to.
#[derive(Clone, Copy, Debug)]
enum Target {
    Tape,
    Borrowed,
    Owned,
}

impl Target {
    fn named(name: &str) -> Option<Target> {
        match name {
            "tape" => Some(Target::Tape),
            "borrowed" => Some(Target::Borrowed),
            "owned" => Some(Target::Owned),
            _ => None,
        }
    }

    /// Reads the text, and lets go what it was read to.
    fn read(self, alloc: Global, text: &mut [u8]) -> Result<(), JsonError> {
        match self {
            Target::Tape => drop(to_tape(alloc, text)?),
            Target::Borrowed => drop(sj_borrowed::to_value(alloc, text)?),
            Target::Owned => drop(sj_owned::to_value(alloc, text)?),
        }
        Ok(())
    }

    /// Reads the text and prints it so often; the bytes of all prints.
    fn print(self, alloc: Global, text: &mut [u8], count: usize) -> Result<usize, JsonError> {
        match self {
            Target::Tape => printed(alloc, &to_tape(alloc, text)?.as_value(), count),
            Target::Borrowed => printed(alloc, &sj_borrowed::to_value(alloc, text)?, count),
            Target::Owned => printed(alloc, &sj_owned::to_value(alloc, text)?, count),
        }
    }
}

/// Reads a copy of the text so often; the bytes of all copies.
fn read(alloc: Global, text: &Vec<u8>, target: Target, count: usize) -> Result<usize, JsonError> {
    let mut bytes = 0usize;
    for _ in 0..count {
        let mut copy = text.clone()?;
        target.read(alloc, copy.as_mut_slice())?;
        bytes = bytes.wrapping_add(copy.len());
    }
    Ok(bytes)
}

/// Prints the value so often; the bytes of all prints.
fn printed<V: Writable>(alloc: Global, value: &V, count: usize) -> Result<usize, JsonError> {
    let mut bytes = 0usize;
    for _ in 0..count {
        bytes = bytes.wrapping_add(value.encode(alloc)?.len());
    }
    Ok(bytes)
}

/// The text of the kind with that name.
fn text_named(alloc: Global, name: &str) -> Result<Option<Vec<u8>>, JsonError> {
    for kind in Kind::ALL {
        if kind.name() == name {
            return Ok(Some(text_of(alloc, kind, SIZE)?));
        }
    }
    Ok(None)
}

/// The readings or the prints that the words ask for; None where they are no case.
fn of_text(alloc: Global, words: [&str; 3], count: usize) -> Result<Option<usize>, JsonError> {
    let [what, target, kind] = words;
    let (Some(target), Some(mut text)) = (Target::named(target), text_named(alloc, kind)?) else {
        return Ok(None);
    };
    match what {
        "read" => Ok(Some(read(alloc, &text, target, count)?)),
        "print" => Ok(Some(target.print(alloc, text.as_mut_slice(), count)?)),
        _ => Ok(None),
    }
}

/// The merges or the commands that the words ask for; None where they are no case.
fn of_changes(alloc: Global, words: [&str; 2], count: usize) -> Result<Option<usize>, JsonError> {
    match words {
        ["merge", "kept"] => Ok(Some(merged(alloc, Merge::Kept, count)?)),
        ["merge", "taken"] => Ok(Some(merged(alloc, Merge::Taken, count)?)),
        ["commands", "owned"] => Ok(Some(commanded(alloc, Form::Owned, count)?)),
        ["commands", "borrowed"] => Ok(Some(commanded(alloc, Form::Borrowed, count)?)),
        ["commands", "lazy"] => Ok(Some(commanded(alloc, Form::Lazy, count)?)),
        _ => Ok(None),
    }
}

fn count_of(word: &String) -> usize {
    word.as_str().parse::<usize>().unwrap_or(0)
}

/// Runs the case that the words name so often, and prints the bytes that it saw.
pub fn report(rt: &HostRuntime, words: &[String]) -> io::Result<()> {
    let alloc = rt.alloc();
    let seen = match words {
        [what, target, kind, count] => of_text(
            alloc,
            [what.as_str(), target.as_str(), kind.as_str()],
            count_of(count),
        ),
        [what, which, count] => {
            of_changes(alloc, [what.as_str(), which.as_str()], count_of(count))
        }
        _ => Ok(None),
    };
    match seen {
        Ok(Some(bytes)) => println!(rt; "{bytes} bytes"),
        Ok(None) => println!(rt; "no such case"),
        Err(why) => println!(rt; "refused: {why}"),
    }
}
