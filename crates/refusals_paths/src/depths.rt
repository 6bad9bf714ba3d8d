//! Whether documents of each form are within a depth.

use crate::lazy::of_lent;
use refusals_common::{Fault, read, say, say_call, text_of};
use sj_document::{Document, OwnedValue, borrowed_from_tape};
use sj_lazy::Value;
use sj_object::{KeyText, deserialize};
use sj_tape::to_tape;
use std::alloc::AllocError;

/// Asks between the first two writes whether a document of that form, of two levels, is within two.
pub fn ask(rt: &(impl Print + AllocGlobal), form: &str) -> Result<(), Fault> {
    let alloc = rt.alloc();
    let mut bytes = text_of(alloc, "example")?;
    match form {
        "owned" => {
            let document = read(deserialize::<OwnedValue, String>(alloc, bytes.as_mut_slice()))?;
            ask_document(rt, &document)
        }
        "tape" => {
            let tape = read(to_tape(alloc, bytes.as_mut_slice()))?;
            ask_lazy(rt, &Value::from_tape(tape.as_value()))
        }
        "lent" => {
            let tape = read(to_tape(alloc, bytes.as_mut_slice()))?;
            let document = borrowed_from_tape(alloc, tape.as_value())?;
            ask_lazy(rt, &of_lent(&document))
        }
        _ => Err(Fault::Usage),
    }
}

fn ask_document<T: KeyText>(
    rt: &(impl Print + AllocGlobal),
    document: &Document<T>,
) -> Result<(), Fault> {
    let alloc = rt.alloc();
    say_call(rt)?;
    match document.is_within_depth(2, alloc) {
        Err(AllocError) => {
            say(rt, "refused, then ")?;
            tell(rt, document.is_within_depth(2, alloc)?)
        }
        Ok(is_within) => tell(rt, is_within),
    }
}

fn ask_lazy(rt: &(impl Print + AllocGlobal), value: &Value<'_, '_, '_>) -> Result<(), Fault> {
    let alloc = rt.alloc();
    say_call(rt)?;
    match value.is_within_depth(2, alloc) {
        Err(AllocError) => {
            say(rt, "refused, then ")?;
            tell(rt, value.is_within_depth(2, alloc)?)
        }
        Ok(is_within) => tell(rt, is_within),
    }
}

fn tell(rt: &impl Print, is_within: bool) -> Result<(), Fault> {
    say(
        rt,
        if is_within {
            "within\n"
        } else {
            "NOT WITHIN\n"
        },
    )
}
