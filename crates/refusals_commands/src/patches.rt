//! Patches of documents, and the differences of two.

use refusals_common::{Fault, read, say, say_call, say_kept};
use sj_document::{Document, OwnedValue};
use sj_object::deserialize;
use sj_patch::{
    Operation, OperationFault, OwnedText, PatchFault, PatchReadFault, diff, document_of,
    operations_of, patch,
};
use sj_text_core::{Refused, Writable};
use std::alloc::{AllocError, Global};

const DOCUMENT: &str = r#"{"a":[1,{"b":2}],"c":"text"}"#;

/// An operation of each kind.
const PATCH: &str =
    r#"[{"op":"test","path":"/c","value":"text"},{"op":"add","path":"/a/1","value":[3]},{"op":"copy","path":"/d","from":"/a/2"},{"op":"move","path":"/a/-","from":"/c"},{"op":"replace","path":"/d/b","value":{"e":4}},{"op":"remove","path":"/a/0"}]"#;

/// Changes of each kind, of which several take out of one container after another, and then an
/// operation that finds nothing.
const FAILING: &str =
    r#"[{"op":"add","path":"/a/1","value":[3]},{"op":"copy","path":"/d","from":"/a/2"},{"op":"move","path":"/a/-","from":"/c"},{"op":"replace","path":"/d/b","value":{"e":4}},{"op":"remove","path":"/a/0"},{"op":"remove","path":"/a/2"},{"op":"remove","path":"/a/0"},{"op":"remove","path":"/d"},{"op":"remove","path":"/a"},{"op":"replace","path":"","value":0},{"op":"remove","path":"/c"}]"#;

/// Another document.
const CHANGED: &str = r#"{"a":[1,{"b":3},4],"d":"text"}"#;

/// The text that the call is given beside the document.
fn given_to(call: &str) -> &'static str {
    match call {
        "diff" => CHANGED,
        "undo" => FAILING,
        _ => PATCH,
    }
}

/// The operations that a document lists.
fn operations_in<T: OwnedText + Drop>(
    alloc: Global,
    given: Document<T>,
) -> Result<Vec<Operation<T>>, Fault> {
    match operations_of(alloc, given) {
        Ok(operations) => Ok(operations),
        Err(_) => Err(Fault::OutOfMemory),
    }
}

/// Reads the operations between the first two writes, and again of what was handed back.
fn list<T: OwnedText + Drop>(
    rt: &(impl Print + AllocGlobal),
    given: Document<T>,
) -> Result<(), Fault> {
    let alloc = rt.alloc();
    let before = given.encode(alloc)?;
    say_call(rt)?;
    match operations_of(alloc, given) {
        Ok(operations) => say_count(rt, operations.len()),
        Err(Refused { why, value }) => {
            let is_memory = why == PatchReadFault::OutOfMemory;
            say(
                rt,
                if is_memory {
                    "refused, "
                } else {
                    "ANOTHER FAULT, "
                },
            )?;
            let is_kept = value.encode(alloc)?.as_str() == before.as_str();
            say_kept(rt, "patch", is_kept)?;
            say_count(rt, operations_in(alloc, value)?.len())
        }
    }
}

fn say_count(rt: &impl Print, count: usize) -> Result<(), Fault> {
    say(
        rt,
        if count == 6 {
            "listed\n"
        } else {
            "ANOTHER COUNT\n"
        },
    )
}

fn say_patched(rt: &impl Print, answer: Result<(), PatchFault>) -> Result<(), Fault> {
    match answer {
        Ok(()) => say(rt, "patched, "),
        Err(PatchFault::Failed(10, OperationFault::Missing)) => say(rt, "nothing there, "),
        Err(PatchFault::Failed(_, _)) => say(rt, "ANOTHER FAULT, "),
        Err(PatchFault::OutOfMemory) => say(rt, "OutOfMemory, "),
    }
}

/// Patches the document between the first two writes, and again where that was refused.
fn apply<T: OwnedText + Drop>(
    rt: &(impl Print + AllocGlobal),
    mut document: Document<T>,
    given: Document<T>,
) -> Result<(), Fault> {
    let alloc = rt.alloc();
    let operations = operations_in(alloc, given)?;
    let before = document.encode(alloc)?;
    say_call(rt)?;
    let answer = patch(alloc, &mut document, operations.as_slice());
    say_patched(rt, answer)?;
    if answer == Err(PatchFault::OutOfMemory) {
        let is_kept = document.encode(alloc)?.as_str() == before.as_str();
        say_kept(rt, "document", is_kept)?;
        say_patched(rt, patch(alloc, &mut document, operations.as_slice()))?;
    }
    say(rt, document.encode(alloc)?.as_str())?;
    say(rt, "\n")
}

/// Makes the difference between the first two writes, and again where that was refused.
fn compare<T: OwnedText + Drop>(
    rt: &(impl Print + AllocGlobal),
    document: &Document<T>,
    given: &Document<T>,
) -> Result<(), Fault> {
    let alloc = rt.alloc();
    say_call(rt)?;
    let operations = match diff(alloc, document, given) {
        Ok(operations) => operations,
        Err(AllocError) => {
            say(rt, "refused, ")?;
            diff(alloc, document, given)?
        }
    };
    say(rt, "made, ")?;
    let listed = document_of(alloc, operations.as_slice())?;
    say(rt, listed.encode(alloc)?.as_str())?;
    say(rt, "\n")
}

/// Lists the operations between the first two writes, and again where that was refused.
fn write_list<T: OwnedText + Drop>(
    rt: &(impl Print + AllocGlobal),
    given: Document<T>,
) -> Result<(), Fault> {
    let alloc = rt.alloc();
    let before = given.encode(alloc)?;
    let operations = operations_in(alloc, given)?;
    say_call(rt)?;
    let listed = match document_of(alloc, operations.as_slice()) {
        Ok(listed) => listed,
        Err(AllocError) => {
            say(rt, "refused, ")?;
            document_of(alloc, operations.as_slice())?
        }
    };
    say(rt, "made, ")?;
    let is_same = listed.encode(alloc)?.as_str() == before.as_str();
    say(
        rt,
        if is_same {
            "as read\n"
        } else {
            "ANOTHER LIST\n"
        },
    )
}

fn make<T: OwnedText + Drop>(
    rt: &(impl Print + AllocGlobal),
    call: &str,
    document: Document<T>,
    given: Document<T>,
) -> Result<(), Fault> {
    match call {
        "operations_of" => list(rt, given),
        "patch" | "undo" => apply(rt, document, given),
        "diff" => compare(rt, &document, &given),
        "document_of" => write_list(rt, given),
        _ => Err(Fault::Usage),
    }
}

fn owned(alloc: Global, text: &str) -> Result<OwnedValue, Fault> {
    let mut bytes = text.as_bytes().to_vec(alloc)?;
    read(deserialize::<OwnedValue, String>(alloc, bytes.as_mut_slice()))
}

/// Makes the call on documents of that form.
pub fn run_call(rt: &(impl Print + AllocGlobal), form: &str, call: &str) -> Result<(), Fault> {
    let alloc = rt.alloc();
    let given = given_to(call);
    match form {
        "owned" => make(rt, call, owned(alloc, DOCUMENT)?, owned(alloc, given)?),
        _ => Err(Fault::Usage),
    }
}
