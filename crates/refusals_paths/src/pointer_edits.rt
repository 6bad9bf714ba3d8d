//! Edits of what a pointer finds in a document.

use refusals_common::{Fault, say, say_call, say_kept};
use sj_document::Replace;
use sj_owned::{AccessError, Value, ValueAsScalar};
use sj_path::{Pointer, owned, pointer};
use sj_text_core::Writable;
use std::alloc::Global;

const TEXT: &str = r#"{"a":[1,{"b":2}]}"#;

/// The pointer of that text.
pub fn read_pointer(alloc: Global, text: &str) -> Result<Pointer, Fault> {
    match pointer(alloc, text) {
        Ok(pointer) => Ok(pointer),
        Err(_) => Err(Fault::OutOfMemory),
    }
}

fn document(alloc: Global) -> Result<Value, Fault> {
    match sj_owned::from_str(alloc, TEXT) {
        Ok(value) => Ok(value),
        Err(_) => Err(Fault::OutOfMemory),
    }
}

/// Whether the document prints so.
fn prints(alloc: Global, value: &Value, want: &str) -> Result<bool, Fault> {
    Ok(value.encode(alloc)?.as_str() == want)
}

/// Inserts a member, and inserts it again where it comes back.
fn insert(rt: &(impl Print + AllocGlobal)) -> Result<(), Fault> {
    let alloc = rt.alloc();
    let mut value = document(alloc)?;
    let at = read_pointer(alloc, "/a/1")?;
    let (first, second) = (String::from_str(alloc, "c")?, String::from_str(alloc, "c")?);
    say_call(rt)?;
    match owned::insert(&mut value, &at, first, Value::null()) {
        Ok(_) => say(rt, "done, ")?,
        Err(refused) => {
            let is_kept = refused.why == AccessError::OutOfMemory && refused.value.is_null();
            say(rt, "refused, ")?;
            say_kept(rt, "document", is_kept && prints(alloc, &value, TEXT)?)?;
            if owned::insert(&mut value, &at, second, refused.value).is_err() {
                return Err(Fault::OutOfMemory);
            }
        }
    }
    let is_there = prints(alloc, &value, r#"{"a":[1,{"b":2,"c":null}]}"#)?;
    say(
        rt,
        if is_there {
            "inserted\n"
        } else {
            "NOT THERE\n"
        },
    )
}

/// Appends an item, and appends it again where it comes back.
fn push(rt: &(impl Print + AllocGlobal)) -> Result<(), Fault> {
    let alloc = rt.alloc();
    let mut value = document(alloc)?;
    let at = read_pointer(alloc, "/a")?;
    say_call(rt)?;
    match owned::push(&mut value, &at, Value::null()) {
        Ok(()) => say(rt, "done, ")?,
        Err(refused) => {
            let is_kept = refused.why == AccessError::OutOfMemory && refused.value.is_null();
            say(rt, "refused, ")?;
            say_kept(rt, "document", is_kept && prints(alloc, &value, TEXT)?)?;
            if owned::push(&mut value, &at, refused.value).is_err() {
                return Err(Fault::OutOfMemory);
            }
        }
    }
    let is_there = prints(alloc, &value, r#"{"a":[1,{"b":2},null]}"#)?;
    say(rt, if is_there { "pushed\n" } else { "NOT THERE\n" })
}

/// Sets what is missing, and sets it again where it comes back.
fn set(rt: &(impl Print + AllocGlobal)) -> Result<(), Fault> {
    let alloc = rt.alloc();
    let mut value = document(alloc)?;
    let at = read_pointer(alloc, "/a/1/c/d")?;
    say_call(rt)?;
    match owned::set(&mut value, alloc, &at, Value::null()) {
        Ok(_) => say(rt, "done, ")?,
        Err(refused) => {
            let is_kept = refused.why == AccessError::OutOfMemory && refused.value.is_null();
            say(rt, "refused, ")?;
            say_kept(rt, "document", is_kept && prints(alloc, &value, TEXT)?)?;
            if owned::set(&mut value, alloc, &at, refused.value).is_err() {
                return Err(Fault::OutOfMemory);
            }
        }
    }
    let is_there = prints(alloc, &value, r#"{"a":[1,{"b":2,"c":{"d":null}}]}"#)?;
    say(rt, if is_there { "set\n" } else { "NOT THERE\n" })
}

/// Edits that want no memory.
fn edit(rt: &(impl Print + AllocGlobal)) -> Result<(), Fault> {
    let alloc = rt.alloc();
    let mut value = document(alloc)?;
    let (list, inner, number) = (
        read_pointer(alloc, "/a")?,
        read_pointer(alloc, "/a/1")?,
        read_pointer(alloc, "/a/0")?,
    );
    say_call(rt)?;
    let nine = Replace {
        value: Value::from(9_u8),
    };
    let is_removed = matches!(owned::remove(&mut value, &inner, "b"), Ok(Some(_)));
    let is_popped = matches!(owned::pop(&mut value, &list), Ok(Some(_)));
    let is_taken = owned::take(&mut value, &number).is_some();
    let is_updated = owned::update(&mut value, &number, nine).is_ok();
    let is_done = is_removed && is_popped && is_taken && is_updated;
    say(rt, if is_done { "edited, " } else { "NOT EDITED, " })?;
    let is_left = prints(alloc, &value, r#"{"a":[9]}"#)?;
    say(rt, if is_left { "and left\n" } else { "NOT LEFT\n" })
}

/// Makes the call of that name.
pub fn run_call(rt: &(impl Print + AllocGlobal), call: &str) -> Result<(), Fault> {
    match call {
        "insert" => insert(rt),
        "push" => push(rt),
        "set" => set(rt),
        "edit" => edit(rt),
        _ => Err(Fault::Usage),
    }
}
