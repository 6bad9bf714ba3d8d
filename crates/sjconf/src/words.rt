//! The words that the program is called with.

use clap::{Arg, ArgAction, Command, Error};
use std::alloc::{AllocError, Global};

/// What is asked for. A file is named by its path; `-` is standard input.
#[derive(Debug, Drop)]
pub struct Task<'a> {
    /// The files, each to be merged over those before it.
    pub files: Vec<&'a str>,
    /// What is to be set in turn, as `KEY=VALUE`.
    pub settings: Vec<&'a str>,
    /// The file of the shape that the whole has to have.
    pub shape: Option<&'a str>,
    /// Where the one value stands that is asked for.
    pub get: Option<&'a str>,
    /// Indented by two spaces a level.
    pub is_pretty: bool,
    /// A text without its quotes and escapes.
    pub is_raw: bool,
}

const STATUSES: &str = "\
A KEY is keys with a dot between each two, as log.level, or a JSON pointer, as /log/level. A VALUE is
JSON, or else it is a text.
Statuses: 0 done, 1 nothing stands at --get, 2 usage, 3 no JSON text or no shape, 4 out of memory or
too long, 5 input or output failed, 6 a --set leads nowhere, 7 the shape is not met. After 1 to 7
nothing was printed but faults; after 5 a part may have been.";

fn option<'a>(alloc: Global, name: &'a str, value: &'a str, help: &'a str) -> Arg<'a> {
    Arg::new(alloc, name)
        .long(name)
        .value_name(value)
        .help(help)
}

fn flag<'a>(alloc: Global, name: &'a str, short: char, help: &'a str) -> Arg<'a> {
    Arg::new(alloc, name)
        .short(short)
        .long(name)
        .action(ArgAction::SetTrue)
        .help(help)
}

fn files<'a>(alloc: Global) -> Arg<'a> {
    Arg::new(alloc, "FILE")
        .required(true)
        .num_args(1..)
        .action(ArgAction::Append)
        .help("JSON files, each merged over those before it (RFC 7396), - for standard input")
}

fn command<'a>(alloc: Global) -> Result<Command<'a>, AllocError> {
    Command::new(alloc, "sjconf")
        .about(
            "Merges configuration files, sets values, checks the whole against a shape, and prints it",
        )
        .after_help(STATUSES)
        .arg(files(alloc))?
        .arg(option(
            alloc,
            "set",
            "KEY=VALUE",
            "Sets a value behind the files, and makes the objects on the way",
        )
        .action(ArgAction::Append))?
        .arg(option(
            alloc,
            "shape",
            "FILE",
            "Says what has to stand where, - for standard input",
        ))?
        .arg(option(
            alloc,
            "get",
            "KEY",
            "Prints the one value that stands there",
        ))?
        .arg(flag(alloc, "pretty", 'p', "Indents what is printed"))?
        .arg(flag(alloc, "raw", 'r', "Prints a text without its quotes"))
}

/// A copy of the words that an option was given, in order.
fn copy_words<'a>(alloc: Global, words: Option<&[&'a str]>) -> Result<Vec<&'a str>, AllocError> {
    match words {
        Some(words) => words.to_vec(alloc),
        None => Ok(Vec::new(alloc)),
    }
}

/// What the words ask for, the first of which is the program's name.
pub fn task_of<'a>(alloc: Global, words: &'a [String]) -> Result<Task<'a>, Error> {
    let matches = command(alloc)?.try_get_matches_from(words)?;
    Ok(Task {
        files: copy_words(alloc, matches.get_strs("FILE"))?,
        settings: copy_words(alloc, matches.get_strs("set"))?,
        shape: matches.get_str("shape"),
        get: matches.get_str("get"),
        is_pretty: matches.get_flag("pretty"),
        is_raw: matches.get_flag("raw"),
    })
}

impl Task<'_> {
    /// Whether standard input is asked for more than once.
    pub fn reads_input_twice(&self) -> bool {
        let files = self.files.iter().filter(|file| **file == "-").count();
        files > 1 || (files == 1 && self.shape == Some("-"))
    }
}
