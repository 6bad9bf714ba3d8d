//! Canonical prints.

use crate::lazy::of_lent;
use refusals_common::{Fault, read, say, say_bytes, say_call, say_kept};
use sj_canonical::{Canonical, WriteError};
use sj_document::{BorrowedValue, OwnedValue};
use sj_object::deserialize;
use sj_tape::to_tape;
use std::borrow::CowStr;

const TEXT: &str = r#"{"b":[2,{"d":4,"c":3}],"a":"text"}"#;

/// Prints the value between the first two writes, and again where that was refused.
fn encode<V: Canonical>(rt: &(impl Print + AllocGlobal), value: &V) -> Result<(), Fault> {
    let alloc = rt.alloc();
    say_call(rt)?;
    let text = match value.canonical(alloc) {
        Ok(text) => text,
        Err(why) => {
            say_refused(rt, why)?;
            value.canonical(alloc)?
        }
    };
    say(rt, text.as_str())?;
    say(rt, "\n")
}

/// Appends the print between the first two writes, and again where that was refused.
fn write<V: Canonical>(rt: &(impl Print + AllocGlobal), value: &V) -> Result<(), Fault> {
    let mut out = b"kept ".to_vec(rt.alloc())?;
    say_call(rt)?;
    if let Err(why) = value.write_canonical(&mut out) {
        say_refused(rt, why)?;
        say_kept(rt, "output", out.as_slice() == b"kept ".as_slice())?;
        value.write_canonical(&mut out)?;
    }
    say_bytes(rt, out.as_slice())?;
    say(rt, "\n")
}

fn say_refused(rt: &impl Print, why: WriteError) -> Result<(), Fault> {
    say(
        rt,
        match why {
            WriteError::OutOfMemory => "refused, ",
            WriteError::TooLong => "ANOTHER FAULT, ",
        },
    )
}

fn print<V: Canonical>(
    rt: &(impl Print + AllocGlobal),
    call: &str,
    value: &V,
) -> Result<(), Fault> {
    match call {
        "canonical" => encode(rt, value),
        "write_canonical" => write(rt, value),
        _ => Err(Fault::Usage),
    }
}

/// Makes the call on a value of that form.
pub fn run_call(rt: &(impl Print + AllocGlobal), form: &str, call: &str) -> Result<(), Fault> {
    let alloc = rt.alloc();
    let mut bytes = TEXT.as_bytes().to_vec(alloc)?;
    let mut copy = TEXT.as_bytes().to_vec(alloc)?;
    let mut third = TEXT.as_bytes().to_vec(alloc)?;
    let tape = read(to_tape(alloc, bytes.as_mut_slice()))?;
    let owned = read(deserialize::<OwnedValue, String>(alloc, copy.as_mut_slice()))?;
    let borrowed = read(deserialize::<BorrowedValue<'_>, CowStr<'_>>(alloc, third.as_mut_slice()))?;
    match form {
        "tape" => print(rt, call, &tape.as_value()),
        "owned" => print(rt, call, &owned),
        "borrowed" => print(rt, call, &borrowed),
        "lent" => print(rt, call, &of_lent(&borrowed)),
        _ => Err(Fault::Usage),
    }
}
