//! One session.

use refusals_common::{Fault, say, say_bytes, say_call, say_kept};
use sj_commands::cut_at_mark;
use sj_owned::to_value;
use sj_run::{Form, OwnedDoc, SessionFault, Way, answer_owned, session, session_repeats};
use sj_text_core::{ErrorKind, Repeats};
use std::alloc::Global;

/// A call that answers lines.
#[derive(Clone, Copy, Debug, PartialEq, Eq)]
pub enum Session {
    /// By text, and the first value of a key.
    First,
    /// The same by known key.
    Known,
    /// By text, and the last value of a key.
    Last,
    /// By text, on an owned document that is kept.
    Kept,
}

/// Reads the document of the input, and answers its lines on that.
fn answer_kept(alloc: Global, input: &mut [u8], out: &mut Vec<u8>) -> Result<(), SessionFault> {
    let cut = cut_at_mark(input);
    let (text, behind) = input.split_at_mut(cut.document);
    let lines = &mut behind[cut.commands - cut.document..];
    match to_value(alloc, text) {
        Ok(value) => {
            let way = Way::ByText;
            let mut document = OwnedDoc { way, value };
            Ok(answer_owned(alloc, &mut document, lines, out)?)
        }
        Err(ErrorKind::OutOfMemory) => Err(SessionFault::OutOfMemory),
        Err(kind) => Err(SessionFault::Refused(kind)),
    }
}

fn answer_once(
    alloc: Global,
    kind: Session,
    form: Form,
    input: &mut [u8],
    out: &mut Vec<u8>,
) -> Result<(), SessionFault> {
    match kind {
        Session::First => session(alloc, form, Way::ByText, input, out),
        Session::Known => session(alloc, form, Way::ByKnownKey, input, out),
        Session::Last => session_repeats(alloc, form, Way::ByText, Repeats::Last, input, out),
        Session::Kept => answer_kept(alloc, input, out),
    }
}

/// The form of that name.
fn form_of(name: &str) -> Result<Form, Fault> {
    match name {
        "owned" => Ok(Form::Owned),
        "borrowed" => Ok(Form::Borrowed),
        "lazy" => Ok(Form::Lazy),
        _ => Err(Fault::Usage),
    }
}

/// The document and command lines of that name.
fn input_of(alloc: Global, name: &str) -> Result<Vec<u8>, Fault> {
    let input = match name {
        "example" => {
            "{\"some\": [\"key\", \"value\", 2]}\n---\n[\"encode\",[]]\n[\"insert\",[],\"n\",-0]\n[\"insert\",[],\"n\",true]\n[\"encode\",[]]\n"
        }
        "repeat" => "{\"a\":1,\"a\":2}\n---\n[\"len\",[]]\n[\"pop\",[]]\n[\"encode\",[]]\n",
        "reads" => "[\"a\",\"b\",\"c\"]\n---\n[\"len\",[]]\n",
        "bad" => "[]\n---\n7\nhelp\nhelp me out, please\n[1,2\n",
        _ => return Err(Fault::Usage),
    };
    Ok(input.as_bytes().to_vec(alloc)?)
}

/// Answers the lines of the input between the first two writes, and where that was refused again,
/// each time from a fresh copy.
pub fn answer(
    rt: &(impl Print + AllocGlobal),
    kind: Session,
    form: &str,
    name: &str,
) -> Result<(), Fault> {
    let alloc = rt.alloc();
    let form = form_of(form)?;
    let mut input = input_of(alloc, name)?;
    let mut copy = input_of(alloc, name)?;
    let mut out = b"> ".to_vec(alloc)?;
    say_call(rt)?;
    match answer_once(alloc, kind, form, input.as_mut_slice(), &mut out) {
        Ok(()) => say(rt, "answered\n")?,
        Err(SessionFault::OutOfMemory) => {
            say(rt, "OutOfMemory, ")?;
            say_kept(rt, "out", out.as_slice() == b"> ".as_slice())?;
            if answer_once(alloc, kind, form, copy.as_mut_slice(), &mut out).is_err() {
                return Err(Fault::OutOfMemory);
            }
            say(rt, "then answered\n")?;
        }
        Err(_) => say(rt, "ANOTHER FAULT\n")?,
    }
    say_bytes(rt, out.as_slice())
}
