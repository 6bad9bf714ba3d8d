//! Pointers, and what they find in documents of each form.

use crate::lazy::{form_of, of_document, of_lent, of_tape};
use crate::pointer_edits::read_pointer;
use refusals_common::{Fault, read, say, say_call, say_kept, text_of};
use sj_document::{BorrowedValue, Document, OwnedValue};
use sj_lazy::Value;
use sj_object::{KeyText, deserialize};
use sj_path::{LendPointed, Pointer, PointerError, lazy, owned, pointer, position};
use sj_tape::to_tape;
use sj_text_core::{Refused, ValueAsScalar, Writable};
use std::alloc::{AllocError, Global};
use std::borrow::CowStr;

/// Reads a text with escapes as a pointer twice, the first time between the first two writes.
pub fn parse(rt: &(impl Print + AllocGlobal)) -> Result<(), Fault> {
    say_call(rt)?;
    say_pointer(rt, &pointer(rt.alloc(), "/a~1b/0/m~0n"))?;
    say(rt, "again ")?;
    say_pointer(rt, &pointer(rt.alloc(), "/a~1b/0/m~0n"))?;
    say(rt, "\n")
}

fn say_pointer(rt: &impl Print, answer: &Result<Pointer, PointerError>) -> Result<(), Fault> {
    match answer {
        Ok(pointer) => {
            for token in pointer.tokens() {
                say(rt, "<")?;
                say(rt, token.as_str())?;
                say(rt, "> ")?;
            }
            Ok(())
        }
        Err(PointerError::OutOfMemory) => say(rt, "OutOfMemory "),
        Err(_) => say(rt, "ANOTHER FAULT "),
    }
}

/// Reads the empty pointer, and texts that are none; names places.
pub fn refuse(rt: &(impl Print + AllocGlobal)) -> Result<(), Fault> {
    let alloc = rt.alloc();
    say_call(rt)?;
    let is_empty = match pointer(alloc, "") {
        Ok(pointer) => pointer.tokens().is_empty() && pointer.into_tokens().is_empty(),
        Err(_) => false,
    };
    let is_refused = matches!(pointer(alloc, "a~2"), Err(PointerError::NoSlash))
        && matches!(pointer(alloc, "/a~2"), Err(PointerError::BadTilde));
    let is_placed = position("12") == Some(12) && position("012").is_none();
    say(
        rt,
        if is_empty && is_refused && is_placed {
            "found\n"
        } else {
            "NOT FOUND\n"
        },
    )
}

/// Finds and replaces in a document of that form, which owns its texts.
pub fn in_document(rt: &(impl Print + AllocGlobal), form: &str) -> Result<(), Fault> {
    let alloc = rt.alloc();
    let mut bytes = text_of(alloc, "example")?;
    let item = read_pointer(alloc, "/some/1")?;
    let none = read_pointer(alloc, "/some/3")?;
    match form {
        "owned" => {
            let mut value = read(deserialize::<OwnedValue, String>(alloc, bytes.as_mut_slice()))?;
            say_call(rt)?;
            let is_found = owned::find(&value, &item).is_some_and(|found| found.is_str())
                && owned::find(&value, &none).is_none()
                && owned::find_mut(&mut value, &item).is_some()
                && value.pointed_mut(&none).is_none()
                && is_replaced(&mut value, &item, &none);
            tell(rt, is_found, &value)
        }
        _ => Err(Fault::Usage),
    }
}

/// Whether what stood at the item is answered, and what was given for nothing comes back.
fn is_replaced<T: KeyText + Drop>(value: &mut Document<T>, item: &Pointer, none: &Pointer) -> bool {
    owned::replace(value, none, Document::null()).is_err_and(|given| given.is_null())
        && owned::replace(value, item, Document::null()).is_ok_and(|before| before.is_str())
}

fn tell<T: KeyText + Drop>(
    rt: &(impl Print + AllocGlobal),
    is_found: bool,
    value: &Document<T>,
) -> Result<(), Fault> {
    say(rt, if is_found { "found, " } else { "NOT FOUND, " })?;
    say(rt, value.encode(rt.alloc())?.as_str())?;
    say(rt, "\n")
}

/// A call that makes a lazy value a document first.
#[derive(Clone, Copy, Debug, PartialEq, Eq)]
enum Call {
    Find,
    FindMut,
    Replace,
}

impl Call {
    fn of(word: &str) -> Result<Call, Fault> {
        match word {
            "find" => Ok(Call::Find),
            "find_mut" => Ok(Call::FindMut),
            "replace" => Ok(Call::Replace),
            _ => Err(Fault::Usage),
        }
    }
}

/// Whether something was found, or the call was refused for want of memory, and handed back what it
/// was given.
#[derive(Clone, Copy, Debug, PartialEq, Eq)]
enum Answer {
    Found,
    Missing,
    Refused,
    ValueLost,
}

fn replaced(
    answer: &Result<
        Result<BorrowedValue<'_>, BorrowedValue<'_>>,
        Refused<AllocError, BorrowedValue<'_>>,
    >,
) -> Answer {
    match answer {
        Ok(Ok(before)) if before.is_str() => Answer::Found,
        Ok(Err(given)) if given.is_null() => Answer::Missing,
        Err(refused) if refused.value.is_null() => Answer::Refused,
        _ => Answer::ValueLost,
    }
}

fn answer_of(
    alloc: Global,
    call: Call,
    value: &mut Value<'_, '_, '_>,
    pointer: &Pointer,
) -> Answer {
    match call {
        Call::Find => match lazy::find(value, pointer) {
            Some(_) => Answer::Found,
            None => Answer::Missing,
        },
        Call::FindMut => match lazy::find_mut(value, alloc, pointer) {
            Ok(Some(_)) => Answer::Found,
            Ok(None) => Answer::Missing,
            Err(AllocError) => Answer::Refused,
        },
        Call::Replace => {
            let answer = lazy::replace(value, alloc, pointer, BorrowedValue::null());
            replaced(&answer)
        }
    }
}

/// Makes the call on the first example in that form, where the pointer finds something.
pub fn in_lazy(rt: &(impl Print + AllocGlobal), form: &str, call: &str) -> Result<(), Fault> {
    let alloc = rt.alloc();
    let call = Call::of(call)?;
    let mut bytes = text_of(alloc, "example")?;
    if form == "tape" {
        let tape = read(to_tape(alloc, bytes.as_mut_slice()))?;
        return make(rt, call, of_tape(tape.as_value()));
    }
    let document = read(deserialize::<BorrowedValue<'_>, CowStr<'_>>(alloc, bytes.as_mut_slice()))?;
    match form {
        "lent" => make(rt, call, of_lent(&document)),
        "owned" => make(rt, call, of_document(document)),
        _ => Err(Fault::Usage),
    }
}

/// Makes the call where the pointer finds nothing and where it finds an item, and again where it
/// was refused.
fn make(
    rt: &(impl Print + AllocGlobal),
    call: Call,
    mut value: Value<'_, '_, '_>,
) -> Result<(), Fault> {
    let alloc = rt.alloc();
    let item = read_pointer(alloc, "/some/1")?;
    let none = read_pointer(alloc, "/some/3")?;
    let form = form_of(&value);
    let before = value.encode(alloc)?;
    say_call(rt)?;
    let mut answer = answer_of(alloc, call, &mut value, &none);
    if answer == Answer::Refused {
        say(rt, "refused, ")?;
        say_kept(rt, "tree", value.encode(alloc)?.as_str() == before.as_str())?;
        say_kept(rt, "form", form_of(&value) == form)?;
        answer = answer_of(alloc, call, &mut value, &none);
    }
    say(
        rt,
        if answer == Answer::Missing {
            "missing, "
        } else {
            "NOT MISSING, "
        },
    )?;
    say_kept(rt, "tree", value.encode(alloc)?.as_str() == before.as_str())?;
    let found = answer_of(alloc, call, &mut value, &item);
    say(
        rt,
        if found == Answer::Found {
            "found, "
        } else {
            "NOT FOUND, "
        },
    )?;
    say(rt, form_of(&value))?;
    say(rt, " ")?;
    say(rt, value.encode(alloc)?.as_str())?;
    say(rt, "\n")
}
