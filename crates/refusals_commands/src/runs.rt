//! Runs of commands.

use crate::applies::{print_of, way_of};
use refusals_common::{Fault, read, say, say_call};
use sj_commands::command_of;
use sj_document::{BorrowedValue, OwnedValue};
use sj_lazy::Value;
use sj_object::deserialize;
use sj_run::{
    BorrowedDoc, Command, Document, LazyDoc, OwnedDoc, Reply, RunFault, Way, Why, run as run_on,
};
use sj_tape::to_tape;
use sj_text_core::ValueType;
use std::alloc::Global;
use std::borrow::CowStr;

const TEXT: &[u8] = b"[1,[2,3]]";

/// Command lines that read and write, where something is found and where nothing is, and some that
/// are refused for the kind.
const LINES: [&str; 11] = [
    r#"["kind",[1]]"#,
    r#"["len",[1]]"#,
    r#"["push",[1],{"a":1,"a":2}]"#,
    r#"["put",[0],null]"#,
    r#"["pop",[5]]"#,
    r#"["pop",[]]"#,
    r#"["has",[],"a"]"#,
    r#"["len",[0]]"#,
    r#"["insert",[],"k",1]"#,
    r#"["nonsense"]"#,
    r#"["encode",[]]"#,
];

/// What the document prints before each of them, and behind the last.
const PRINTS: [&str; 12] = [
    "[1,[2,3]]",
    "[1,[2,3]]",
    "[1,[2,3]]",
    r#"[1,[2,3,{"a":1}]]"#,
    r#"[null,[2,3,{"a":1}]]"#,
    r#"[null,[2,3,{"a":1}]]"#,
    "[null]",
    "[null]",
    "[null]",
    "[null]",
    "[null]",
    "[null]",
];

fn commands(alloc: Global) -> Result<Vec<Command>, Fault> {
    let mut all = Vec::new(alloc);
    for line in LINES {
        let mut line = line.as_bytes().to_vec(alloc)?;
        all.push(command_of(alloc, line.as_mut_slice())?)?;
    }
    Ok(all)
}

/// The document of a text, as the value that was there.
fn old(alloc: Global, text: &str) -> Result<Reply, Fault> {
    let mut bytes = text.as_bytes().to_vec(alloc)?;
    let value = read(deserialize::<OwnedValue, String>(alloc, bytes.as_mut_slice()))?;
    Ok(Reply::Old(value))
}

/// The replies to the commands.
fn replies(alloc: Global) -> Result<Vec<Reply>, Fault> {
    let all = vec![in alloc;
        Reply::Kind(ValueType::Array),
        Reply::Count(2),
        Reply::Done,
        old(alloc, "1")?,
        Reply::Missing,
        old(alloc, r#"[2,3,{"a":1}]"#)?,
        Reply::Truth(false),
        Reply::NoLength,
        Reply::NotAnObject,
        Reply::BadCommand,
        Reply::Printed(String::from_str(alloc, "[null]")?),
    ]?;
    Ok(all)
}

/// Whether the replies are a beginning of those.
fn begins(replies: &[Reply], all: &[Reply]) -> bool {
    match all.get(..replies.len()) {
        Some(beginning) => beginning == replies,
        None => false,
    }
}

/// Whether the document is as before the command of that place, or as behind it.
fn stands<D: Document>(alloc: Global, document: &mut D, place: usize) -> Result<bool, Fault> {
    let print = print_of(alloc, document)?;
    Ok(is_print(place, print.as_str()) || is_print(place.wrapping_add(1), print.as_str()))
}

/// Whether that is the print at the place.
fn is_print(place: usize, print: &str) -> bool {
    match PRINTS.get(place) {
        Some(wanted) => *wanted == print,
        None => false,
    }
}

/// Runs the commands on a document between the first two writes, and where that was refused on
/// another one.
fn run_twice<D: Document + Drop>(
    rt: &(impl Print + AllocGlobal),
    mut first: D,
    mut second: D,
) -> Result<(), Fault> {
    let alloc = rt.alloc();
    let given = commands(alloc)?;
    let wanted = replies(alloc)?;
    say_call(rt)?;
    match run_on(alloc, &mut first, given) {
        Ok(replies) => say_answered(rt, &mut first, replies.as_slice(), wanted.as_slice()),
        Err(RunFault { done, why }) => {
            let is_memory = why == Why::OutOfMemory;
            say(
                rt,
                if is_memory {
                    "refused, "
                } else {
                    "ANOTHER FAULT, "
                },
            )?;
            say_told(rt, "replies", begins(done.as_slice(), wanted.as_slice()))?;
            say_told(rt, "document", stands(alloc, &mut first, done.len())?)?;
            match run_on(alloc, &mut second, commands(alloc)?) {
                Ok(replies) => {
                    say_answered(rt, &mut second, replies.as_slice(), wanted.as_slice())
                }
                Err(_) => Err(Fault::OutOfMemory),
            }
        }
    }
}

/// Tells whether something is as the tables have it.
fn say_told(rt: &impl Print, what: &str, is_told: bool) -> Result<(), Fault> {
    say(rt, what)?;
    say(
        rt,
        if is_told {
            " as told, "
        } else {
            " OTHERWISE, "
        },
    )
}

fn say_answered<D: Document>(
    rt: &(impl Print + AllocGlobal),
    document: &mut D,
    replies: &[Reply],
    wanted: &[Reply],
) -> Result<(), Fault> {
    let is_whole = replies == wanted && stands(rt.alloc(), document, LINES.len())?;
    say(
        rt,
        if is_whole {
            "answered\n"
        } else {
            "OTHER REPLIES\n"
        },
    )
}

fn owned_doc(alloc: Global, way: Way) -> Result<OwnedDoc, Fault> {
    let mut bytes = TEXT.to_vec(alloc)?;
    let value = read(deserialize::<OwnedValue, String>(alloc, bytes.as_mut_slice()))?;
    Ok(OwnedDoc { way, value })
}

fn borrowed_doc(alloc: Global, way: Way) -> Result<BorrowedDoc<'static>, Fault> {
    let mut bytes = TEXT.to_vec(alloc)?;
    let value = read(deserialize::<BorrowedValue<'_>, CowStr<'_>>(alloc, bytes.as_mut_slice()))?;
    Ok(BorrowedDoc {
        way,
        value: value.into_static(alloc)?,
    })
}

fn run_lazy(rt: &(impl Print + AllocGlobal)) -> Result<(), Fault> {
    let alloc = rt.alloc();
    let mut bytes = TEXT.to_vec(alloc)?;
    let tape = read(to_tape(alloc, bytes.as_mut_slice()))?;
    let part = tape.as_value();
    let (first, second) = (Value::from_tape(part), Value::from_tape(part));
    run_twice(rt, LazyDoc { value: first }, LazyDoc { value: second })
}

/// Runs the commands on documents of that form.
pub fn run_form(rt: &(impl Print + AllocGlobal), form: &str, way: &str) -> Result<(), Fault> {
    let alloc = rt.alloc();
    let way = way_of(way);
    match form {
        "owned" => run_twice(rt, owned_doc(alloc, way)?, owned_doc(alloc, way)?),
        "borrowed" => run_twice(rt, borrowed_doc(alloc, way)?, borrowed_doc(alloc, way)?),
        "lazy" => run_lazy(rt),
        _ => Err(Fault::Usage),
    }
}
