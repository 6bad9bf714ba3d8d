//! Copies and prints of lazy documents, and what they are turned into.

use crate::lazy::{form_of, of_lent, of_tape};
use refusals_common::{Fault, read, say, say_bytes, say_call, say_kept, text_of};
use sj_document::{BorrowedValue, OwnedValue, borrowed_from_tape, owned_from_tape};
use sj_lazy::{Lent, Shared, Upgrade, Value};
use sj_object::{KeyText, build_from_tape, deserialize};
use sj_tape::to_tape;
use sj_text_core::{Writable, WriteError};
use std::alloc::{AllocError, Global};
use std::borrow::CowStr;

/// A call that leaves the value, or takes it.
#[derive(Clone, Copy, Debug, PartialEq, Eq)]
enum Call {
    Clone,
    Encode,
    EncodePretty,
    Write,
    WritePretty,
    IntoValue,
    IntoOwned,
    IntoString,
    Upgrade,
    Copied,
    BorrowedFromTape,
    OwnedFromTape,
    BuildFromTape,
}

impl Call {
    fn of(word: &str) -> Result<Call, Fault> {
        match word {
            "clone" => Ok(Call::Clone),
            "encode" => Ok(Call::Encode),
            "encode_pp" => Ok(Call::EncodePretty),
            "write" => Ok(Call::Write),
            "write_pp" => Ok(Call::WritePretty),
            "into_value" => Ok(Call::IntoValue),
            "into_owned" => Ok(Call::IntoOwned),
            "into_string" => Ok(Call::IntoString),
            "upgrade" => Ok(Call::Upgrade),
            "copied" => Ok(Call::Copied),
            "borrowed_from_tape" => Ok(Call::BorrowedFromTape),
            "owned_from_tape" => Ok(Call::OwnedFromTape),
            "build_from_tape" => Ok(Call::BuildFromTape),
            _ => Err(Fault::Usage),
        }
    }
}

/// What a call answered.
#[derive(Drop)]
enum Answer<'b, 't, 'i> {
    Made(Value<'b, 't, 'i>),
    Owned(OwnedValue),
    Printed(String),
    Text(CowStr<'i>),
    Written,
    Refused,
    Another,
}

fn made<'b, 't, 'i>(made: Result<Value<'b, 't, 'i>, AllocError>) -> Answer<'b, 't, 'i> {
    match made {
        Ok(value) => Answer::Made(value),
        Err(AllocError) => Answer::Refused,
    }
}

fn turned<'b, 't, 'i>(made: Result<BorrowedValue<'i>, AllocError>) -> Answer<'b, 't, 'i> {
    match made {
        Ok(document) => Answer::Made(Value::from(document)),
        Err(AllocError) => Answer::Refused,
    }
}

fn owned<'b, 't, 'i>(made: Result<OwnedValue, AllocError>) -> Answer<'b, 't, 'i> {
    match made {
        Ok(document) => Answer::Owned(document),
        Err(AllocError) => Answer::Refused,
    }
}

fn printed<'b, 't, 'i>(printed: Result<String, WriteError>) -> Answer<'b, 't, 'i> {
    match printed {
        Ok(text) => Answer::Printed(text),
        Err(WriteError::OutOfMemory) => Answer::Refused,
        Err(WriteError::TooLong) => Answer::Another,
    }
}

fn written<'b, 't, 'i>(written: Result<(), WriteError>) -> Answer<'b, 't, 'i> {
    match written {
        Ok(()) => Answer::Written,
        Err(WriteError::OutOfMemory) => Answer::Refused,
        Err(WriteError::TooLong) => Answer::Another,
    }
}

fn text_in<'b, 't, 'i>(text: Result<Option<CowStr<'i>>, AllocError>) -> Answer<'b, 't, 'i> {
    match text {
        Ok(Some(text)) => Answer::Text(text),
        Ok(None) => Answer::Another,
        Err(AllocError) => Answer::Refused,
    }
}

/// The answer of a call that takes a part of a tape, or a lent document, alone.
fn answer_of_part<'b, 't, 'i>(
    alloc: Global,
    call: Call,
    value: &Value<'b, 't, 'i>,
) -> Answer<'b, 't, 'i> {
    match value {
        Value::Tape(part) => match call {
            Call::Upgrade => turned(part.upgrade(alloc)),
            Call::BorrowedFromTape => turned(borrowed_from_tape(alloc, *part)),
            Call::BuildFromTape => turned(build_from_tape::<BorrowedValue<'i>, CowStr<'i>>(
                alloc, *part,
            )),
            Call::OwnedFromTape => owned(owned_from_tape(alloc, *part)),
            _ => Answer::Another,
        },
        Value::Value(Shared::Borrowed(lent)) => match call {
            Call::Copied => turned(lent.copied(alloc)),
            _ => Answer::Another,
        },
        Value::Value(Shared::Owned(_)) => Answer::Another,
    }
}

fn answer_of<'b, 't, 'i>(
    alloc: Global,
    call: Call,
    value: &Value<'b, 't, 'i>,
    given: Value<'b, 't, 'i>,
    out: &mut Vec<u8>,
) -> Answer<'b, 't, 'i> {
    match call {
        Call::Clone => made(value.clone()),
        Call::Encode => printed(value.encode(alloc)),
        Call::EncodePretty => printed(value.encode_pp(alloc)),
        Call::Write => written(value.write(out)),
        Call::WritePretty => written(value.write_pp(out)),
        Call::IntoValue => turned(given.into_value(alloc)),
        Call::IntoOwned => made(given.into_owned(alloc)),
        Call::IntoString => text_in(given.into_string()),
        _ => answer_of_part(alloc, call, value),
    }
}

/// Makes the call between the first two writes, and again where it was refused. A call that takes
/// its value is given a copy.
fn make<'b, 't, 'i>(
    rt: &(impl Print + AllocGlobal),
    call: Call,
    value: Value<'b, 't, 'i>,
) -> Result<(), Fault> {
    let alloc = rt.alloc();
    let (first, second) = (value.clone()?, value.clone()?);
    let form = form_of(&value);
    let before = value.encode(alloc)?;
    let mut out = b"> ".to_vec(alloc)?;
    say_call(rt)?;
    match answer_of(alloc, call, &value, first, &mut out) {
        Answer::Refused => {
            say(rt, "refused, ")?;
            let is_kept = value.encode(alloc)?.as_str() == before.as_str();
            say_kept(rt, "value", is_kept && form_of(&value) == form)?;
            say_kept(rt, "out", out.as_slice() == b"> ".as_slice())?;
            let again = answer_of(alloc, call, &value, second, &mut out);
            tell(rt, &again, out.as_slice())
        }
        answer => tell(rt, &answer, out.as_slice()),
    }
}

/// Tells what was made or printed.
fn tell(
    rt: &(impl Print + AllocGlobal),
    answer: &Answer<'_, '_, '_>,
    out: &[u8],
) -> Result<(), Fault> {
    let alloc = rt.alloc();
    say(rt, "done, ")?;
    match answer {
        Answer::Made(value) => {
            say(rt, form_of(value))?;
            say(rt, " ")?;
            say(rt, value.encode(alloc)?.as_str())?;
        }
        Answer::Owned(document) => say(rt, document.encode(alloc)?.as_str())?,
        Answer::Printed(text) => say(rt, text.as_str())?,
        Answer::Text(text) => say(rt, text.text())?,
        Answer::Written => say(rt, "written")?,
        Answer::Refused => say(rt, "NOT")?,
        Answer::Another => say(rt, "ANOTHER ANSWER")?,
    }
    say(rt, " ")?;
    say_bytes(rt, out)?;
    say(rt, "\n")
}

/// Makes the call on the document of the first example as that form, or on its text `key`:
/// `text` owns its bytes, and the others lend them.
pub fn run_call(rt: &(impl Print + AllocGlobal), form: &str, call: &str) -> Result<(), Fault> {
    let alloc = rt.alloc();
    let call = Call::of(call)?;
    let mut bytes = text_of(alloc, "example")?;
    if form == "tape" {
        return on_tape(rt, call, bytes.as_mut_slice());
    }
    let document = read(deserialize::<BorrowedValue<'_>, CowStr<'_>>(alloc, bytes.as_mut_slice()))?;
    match form {
        "lent" => make(rt, call, of_lent(part_of(call, &document)?)),
        "text" => {
            let document = document.into_static(alloc)?;
            make(rt, call, of_lent(part_of(call, &document)?))
        }
        "owned" => {
            let lent = part_of(call, &document)?;
            make(rt, call, of_lent(lent).into_owned(alloc)?)
        }
        _ => Err(Fault::Usage),
    }
}

fn on_tape(rt: &(impl Print + AllocGlobal), call: Call, bytes: &mut [u8]) -> Result<(), Fault> {
    let tape = read(to_tape(rt.alloc(), bytes))?;
    let whole = tape.as_value();
    if call != Call::IntoString {
        return make(rt, call, of_tape(whole));
    }
    match whole.get("some").and_then(|items| items.get_idx(0)) {
        Some(text) => make(rt, call, of_tape(text)),
        None => Err(Fault::Usage),
    }
}

/// The document, or its text, for a call that gives a text.
fn part_of<'b, 'i>(
    call: Call,
    document: &'b BorrowedValue<'i>,
) -> Result<&'b BorrowedValue<'i>, Fault> {
    if call != Call::IntoString {
        return Ok(document);
    }
    match document.get("some").and_then(|items| items.get_idx(0)) {
        Some(text) => Ok(text),
        None => Err(Fault::Usage),
    }
}
