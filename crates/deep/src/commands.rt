//! Command lines at a deep document.

use crate::build::document;
use crate::fault::Fault;
use crate::reply::write_reply;
use sj_commands::command_of;
use sj_lazy::Value;
use sj_run::{BorrowedDoc, Document, LazyDoc, OwnedDoc, Way};
use std::borrow::CowStr;
use std::io::{self, Write};

/// Answers the command lines of standard input on a document of that form and depth.
pub fn answer(
    rt: &(impl Input + Print + AllocGlobal),
    form: &str,
    way: &str,
    levels: usize,
) -> Result<(), Fault> {
    let alloc = rt.alloc();
    let way = match way {
        "text" => Way::ByText,
        "known" => Way::ByKnownKey,
        _ => return Err(Fault::Usage),
    };
    match form {
        "owned" => {
            let value = document::<String>(alloc, levels)?;
            answer_on(rt, OwnedDoc { way, value })
        }
        "borrowed" => {
            let value = document::<CowStr<'static>>(alloc, levels)?;
            answer_on(rt, BorrowedDoc { way, value })
        }
        "lazy" => {
            let value = Value::from(document::<CowStr<'static>>(alloc, levels)?);
            answer_on(rt, LazyDoc { value })
        }
        _ => Err(Fault::Usage),
    }
}

fn answer_on<D: Document + Drop>(
    rt: &(impl Input + Print + AllocGlobal),
    mut document: D,
) -> Result<(), Fault> {
    let alloc = rt.alloc();
    let mut out = Vec::new(alloc);
    for line in rt.lines(alloc) {
        let mut text = line?.into_bytes();
        let command = command_of(alloc, text.as_mut_slice())?;
        match document.apply(alloc, command) {
            Ok(reply) => write_reply(alloc, reply, &mut out)?,
            Err(_) => return Err(Fault::OutOfMemory),
        }
    }
    io::writer(rt).write_all(out.as_slice())?;
    Ok(())
}
