//! Documents that are made with room, and filled without a request for memory.

use refusals_common::{Fault, say, say_call};
use sj_document::Document;
use sj_object::{KeyOf, KeyText};
use std::borrow::CowStr;

const KEYS: [&str; 10] = ["a", "b", "c", "d", "e", "f", "g", "h", "i", "j"];

/// Fills an array and an object of that form between the first two writes.
pub fn fill(rt: &(impl Print + AllocGlobal), form: &str) -> Result<(), Fault> {
    match form {
        "owned" => fill_by::<String>(rt),
        "borrowed" => fill_by::<CowStr<'static>>(rt),
        _ => Err(Fault::Usage),
    }
}

fn fill_by<'k, T: KeyOf<'k>>(rt: &(impl Print + AllocGlobal)) -> Result<(), Fault> {
    let alloc = rt.alloc();
    let mut array: Document<T> = Document::array_with_capacity(alloc, KEYS.len())?;
    let mut object: Document<T> = Document::object_with_capacity(alloc, KEYS.len())?;
    let mut keys = Vec::new(alloc);
    for key in KEYS {
        keys.push(T::of(alloc, key)?)?;
    }
    say_call(rt)?;
    let mut is_filled = true;
    for key in keys {
        is_filled = is_filled
            && array.push(Document::null()).is_ok()
            && object.insert(key, Document::null()).is_ok();
    }
    say(
        rt,
        if is_filled && are_full(&array, &object) {
            "filled\n"
        } else {
            "NOT FILLED\n"
        },
    )
}

/// Whether each has as many as there are keys.
fn are_full<T: KeyText + Drop>(array: &Document<T>, object: &Document<T>) -> bool {
    array
        .as_array()
        .is_some_and(|items| items.len() == KEYS.len())
        && object
            .as_object()
            .is_some_and(|members| members.len() == KEYS.len())
}
