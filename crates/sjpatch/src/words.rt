//! The words that the program is called with.

use crate::fault::Fault;
use clap::{Arg, ArgAction, ArgMatches, Command, Error};
use std::alloc::{AllocError, Global};

/// How a result is written.
#[derive(Clone, Copy, Debug, PartialEq, Eq)]
pub struct Target {
    /// Into the file, and not to standard output.
    pub in_place: bool,
    /// Indented by two spaces a level.
    pub pretty: bool,
}

/// What is asked for. A file is named by its path; `-` is standard input.
#[derive(Clone, Copy, Debug, PartialEq, Eq)]
pub enum Task<'a> {
    /// To apply a JSON patch (RFC 6902) to a file.
    Apply {
        patch: &'a str,
        file: &'a str,
        target: Target,
    },
    /// To merge a merge patch (RFC 7396) into a file.
    Merge {
        patch: &'a str,
        file: &'a str,
        target: Target,
    },
    /// To tell the JSON patch that leads from a file to another.
    Diff {
        from: &'a str,
        to: &'a str,
        target: Target,
    },
    /// To print the canonical form of a file (RFC 8785).
    Canon {
        file: &'a str,
        in_place: bool,
    },
    /// To tell by the status whether two files mean the same document.
    Same {
        one: &'a str,
        other: &'a str,
    },
}

fn file<'a>(alloc: Global, name: &'a str, help: &'a str) -> Arg<'a> {
    Arg::new(alloc, name).required(true).help(help)
}

fn flag<'a>(alloc: Global, name: &'a str, short: char, help: &'a str) -> Arg<'a> {
    Arg::new(alloc, name)
        .short(short)
        .long(name)
        .action(ArgAction::SetTrue)
        .help(help)
}

fn pretty<'a>(alloc: Global) -> Arg<'a> {
    flag(alloc, "pretty", 'p', "Indents the result")
}

fn in_place<'a>(alloc: Global) -> Arg<'a> {
    flag(alloc, "in-place", 'i', "Replaces FILE by the result")
}

/// A word that changes FILE by PATCH.
fn change<'a>(alloc: Global, name: &'a str, about: &'a str) -> Result<Command<'a>, AllocError> {
    Command::new(alloc, name)
        .about(about)
        .arg(in_place(alloc))?
        .arg(pretty(alloc))?
        .arg(file(alloc, "PATCH", "The patch, - for standard input"))?
        .arg(file(
            alloc,
            "FILE",
            "The file that it changes, - for standard input",
        ))
}

/// A word on two files.
fn pair<'a>(alloc: Global, name: &'a str, about: &'a str) -> Result<Command<'a>, AllocError> {
    Command::new(alloc, name)
        .about(about)
        .arg(file(alloc, "A", "A file, - for standard input"))?
        .arg(file(alloc, "B", "Another one, - for standard input"))
}

const STATUSES: &str = "\
Results go to standard output. Statuses: 0 done, 1 the documents differ, 2 usage, 3 no JSON text or
no patch, 4 out of memory or too long, 5 input or output failed, 6 an operation has no result. After
2 to 6 nothing was changed.";

fn command<'a>(alloc: Global) -> Result<Command<'a>, AllocError> {
    let apply = change(
        alloc,
        "apply",
        "Applies a JSON patch (RFC 6902), all of it or nothing",
    )?;
    let merge = change(alloc, "merge", "Merges a merge patch (RFC 7396)")?;
    let diff = pair(alloc, "diff", "Tells the JSON patch that leads from A to B")?;
    let canon = Command::new(alloc, "canon")
        .about("Prints the canonical form of FILE (RFC 8785), with no line feed behind it")
        .arg(in_place(alloc))?
        .arg(file(alloc, "FILE", "A file, - for standard input"))?;
    let same = pair(
        alloc,
        "same",
        "Exits with 0 where A and B mean one document, else with 1",
    )?;
    Command::new(alloc, "sjpatch")
        .about("Patches, merges and compares JSON files")
        .after_help(STATUSES)
        .subcommand_required(true)
        .disable_help_subcommand(true)
        .subcommand(apply)?
        .subcommand(merge)?
        .subcommand(diff.arg(pretty(alloc))?)?
        .subcommand(canon)?
        .subcommand(same)
}

/// The file of that name; each is required.
fn file_of<'a>(matches: &ArgMatches<'a>, name: &str) -> &'a str {
    matches.get_str(name).unwrap_or("-")
}

fn target_of(matches: &ArgMatches<'_>) -> Target {
    Target {
        in_place: matches.get_flag("in-place"),
        pretty: matches.get_flag("pretty"),
    }
}

/// What the words ask for, the first of which is the program's name.
pub fn task_of<'a>(alloc: Global, words: &'a [String]) -> Result<Task<'a>, Error> {
    let matches = command(alloc)?.try_get_matches_from(words)?;
    // a word is required, so there is one
    let (word, matches) = matches.subcommand().unwrap_or(("same", &matches));
    let target = target_of(matches);
    Ok(match word {
        "apply" => Task::Apply {
            patch: file_of(matches, "PATCH"),
            file: file_of(matches, "FILE"),
            target,
        },
        "merge" => Task::Merge {
            patch: file_of(matches, "PATCH"),
            file: file_of(matches, "FILE"),
            target,
        },
        "diff" => Task::Diff {
            from: file_of(matches, "A"),
            to: file_of(matches, "B"),
            target,
        },
        "canon" => Task::Canon {
            file: file_of(matches, "FILE"),
            in_place: target.in_place,
        },
        _ => Task::Same {
            one: file_of(matches, "A"),
            other: file_of(matches, "B"),
        },
    })
}

impl Task<'_> {
    /// Standard input is one file at most, and none that is replaced.
    pub fn check(&self) -> Result<(), Fault> {
        let (one, other, is_replaced) = match *self {
            Task::Apply {
                patch,
                file,
                target,
            }
            | Task::Merge {
                patch,
                file,
                target,
            } => (patch, file, target.in_place),
            Task::Diff { from, to, .. } => (from, to, false),
            Task::Canon { file, in_place } => ("", file, in_place),
            Task::Same { one, other } => (one, other, false),
        };
        if is_replaced && other == "-" {
            return Err(Fault::InputReplaced);
        }
        if one == "-" && other == "-" {
            return Err(Fault::InputTwice);
        }
        Ok(())
    }
}
