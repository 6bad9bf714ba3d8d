//! Texts for people, written where there is room for them.

use crate::lazy::of_lent;
use refusals_common::{Fault, read, say, say_call, text_of};
use sj_document::{BorrowedValue, OwnedValue};
use sj_lazy::Value;
use sj_object::{HashMap, ObjectHasher, deserialize};
use sj_tape::{Value as TapeValue, to_tape};
use sj_text_core::StaticNode;
use std::alloc::{AllocError, Global};
use std::borrow::CowStr;

/// Writes the second example in that form to a text that has room, between the first two writes.
pub fn write(rt: &(impl Print + AllocGlobal), form: &str) -> Result<(), Fault> {
    let alloc = rt.alloc();
    let mut bytes = text_of(alloc, "escapes")?;
    let mut copy = text_of(alloc, "escapes")?;
    let mut third = text_of(alloc, "escapes")?;
    let tape = read(to_tape(alloc, bytes.as_mut_slice()))?;
    let owned = read(deserialize::<OwnedValue, String>(alloc, copy.as_mut_slice()))?;
    let borrowed = read(deserialize::<BorrowedValue<'_>, CowStr<'_>>(alloc, third.as_mut_slice()))?;
    let members = one_member(alloc)?;
    let mut out = String::with_capacity(alloc, 200)?;
    say_call(rt)?;
    let written = match form {
        "static" => write!(out, "{}", StaticNode::I128(-7)),
        "tape" => write_tape(tape.as_value(), &mut out),
        "nodes" => write_nodes(tape.as_value(), &mut out),
        "owned" => write!(out, "{owned}"),
        "lent" => write_lazy(&of_lent(&borrowed), &mut out),
        "map" => write!(out, "{members:?}"),
        _ => return Err(Fault::Usage),
    };
    written?;
    say(rt, out.as_str())?;
    say(rt, "\n")
}

/// The map of `k00` with 0.
fn one_member(alloc: Global) -> Result<HashMap<String, u64, ObjectHasher>, Fault> {
    let mut map = HashMap::with_capacity_and_hasher(alloc, 0, ObjectHasher::default())?;
    match map.insert(String::from_str(alloc, "k00")?, 0) {
        Ok(_) => Ok(map),
        Err(_) => Err(Fault::OutOfMemory),
    }
}

// A formatted value has one name for each of its lifetimes.

fn write_tape(part: TapeValue<'_, '_>, out: &mut String) -> Result<(), AllocError> {
    write!(out, "{part}")
}

fn write_nodes(part: TapeValue<'_, '_>, out: &mut String) -> Result<(), AllocError> {
    write!(out, "{:?}", part.nodes())
}

fn write_lazy(value: &Value<'_, '_, '_>, out: &mut String) -> Result<(), AllocError> {
    write!(out, "{value}")
}
