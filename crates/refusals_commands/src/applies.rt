//! One insert, applied as a command.

use refusals_common::{Fault, say, say_call};
use sj_document::{BorrowedValue, OwnedValue};
use sj_lazy::Value;
use sj_run::{BorrowedDoc, Command, Document, LazyDoc, OwnedDoc, Reply, Way, Why};
use std::alloc::Global;

/// The command that sets `k` of the document to null.
fn insert_of(alloc: Global) -> Result<Command, Fault> {
    let key = String::from_str(alloc, "k")?;
    Ok(Command::Insert(Vec::new(alloc), key, OwnedValue::null()))
}

/// The compact print of the document.
pub fn print_of<D: Document>(alloc: Global, document: &mut D) -> Result<String, Fault> {
    match document.apply(alloc, Command::Encode(Vec::new(alloc))) {
        Ok(Reply::Printed(text)) => Ok(text),
        _ => Err(Fault::OutOfMemory),
    }
}

/// What was applied, once or again.
fn say_reply(rt: &impl Print, reply: &Result<Reply, Why>) -> Result<(), Fault> {
    match reply {
        Ok(Reply::Nothing) => say(rt, "inserted, "),
        Ok(Reply::Old(_)) => say(rt, "set again, "),
        _ => say(rt, "ANOTHER ANSWER, "),
    }
}

/// Applies the insert to a document of no members between the first two writes, and again where it
/// was refused. The document is then as it was, or has the member.
fn apply_to<D: Document + Drop>(
    rt: &(impl Print + AllocGlobal),
    mut document: D,
) -> Result<(), Fault> {
    let alloc = rt.alloc();
    let (first, second) = (insert_of(alloc)?, insert_of(alloc)?);
    say_call(rt)?;
    match document.apply(alloc, first) {
        Err(Why::OutOfMemory) => {
            say(rt, "refused, ")?;
            let print = print_of(alloc, &mut document)?;
            let is_left = matches!(print.as_str(), "{}" | "{\"k\":null}");
            say(
                rt,
                if is_left {
                    "as it was or done, "
                } else {
                    "CHANGED, "
                },
            )?;
            let reply = document.apply(alloc, second);
            let is_told = matches!(reply, Ok(Reply::Nothing)) == (print.as_str() == "{}");
            say(
                rt,
                if is_told {
                    "then applied, "
                } else {
                    "then NOT APPLIED, "
                },
            )?;
        }
        reply => say_reply(rt, &reply)?,
    }
    say(rt, print_of(alloc, &mut document)?.as_str())?;
    say(rt, "\n")
}

/// The way of that name.
pub fn way_of(name: &str) -> Way {
    if name == "known" {
        Way::ByKnownKey
    } else {
        Way::ByText
    }
}

/// Applies the insert to a document of that form, in that way.
pub fn insert(rt: &(impl Print + AllocGlobal), form: &str, way: &str) -> Result<(), Fault> {
    let alloc = rt.alloc();
    let way = way_of(way);
    match form {
        "owned" => apply_to(
            rt,
            OwnedDoc {
                way,
                value: OwnedValue::object(alloc)?,
            },
        ),
        "borrowed" => apply_to(
            rt,
            BorrowedDoc {
                way,
                value: BorrowedValue::object(alloc)?,
            },
        ),
        "lazy" => apply_to(
            rt,
            LazyDoc {
                value: Value::object(alloc)?,
            },
        ),
        _ => Err(Fault::Usage),
    }
}
