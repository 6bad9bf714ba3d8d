//! Calls on lazy documents: on a part of a tape, and on a document that is lent.

use refusals_common::{Fault, read, say, say_call, say_kept, text_of};
use sj_document::{BorrowedValue, Replace};
use sj_lazy::{Shared, Value};
use sj_object::deserialize;
use sj_tape::{Value as TapeValue, to_tape};
use sj_text_core::{AccessError, Refused, ValueAsScalar, Writable};
use std::alloc::{AllocError, Global};
use std::borrow::CowStr;

/// A call that writes, or lends for writing.
#[derive(Clone, Copy, Debug, PartialEq, Eq)]
enum Call {
    AsMut,
    AsArrayMut,
    AsObjectMut,
    ArrayMut,
    ObjectMut,
    GetMut,
    GetIdxMut,
    ChangeMember,
    ChangeItem,
    Insert,
    TryInsert,
    Set,
    TrySet,
    Remove,
    Push,
    Pop,
    InsertIdx,
    RemoveIdx,
}

impl Call {
    fn of(word: &str) -> Result<Call, Fault> {
        match word {
            "as_mut" => Ok(Call::AsMut),
            "as_array_mut" => Ok(Call::AsArrayMut),
            "as_object_mut" => Ok(Call::AsObjectMut),
            "array_mut" => Ok(Call::ArrayMut),
            "object_mut" => Ok(Call::ObjectMut),
            "get_mut" => Ok(Call::GetMut),
            "get_idx_mut" => Ok(Call::GetIdxMut),
            "change_member" => Ok(Call::ChangeMember),
            "change_item" => Ok(Call::ChangeItem),
            "insert" => Ok(Call::Insert),
            "try_insert" => Ok(Call::TryInsert),
            "set" => Ok(Call::Set),
            "try_set" => Ok(Call::TrySet),
            "remove" => Ok(Call::Remove),
            "push" => Ok(Call::Push),
            "pop" => Ok(Call::Pop),
            "insert_idx" => Ok(Call::InsertIdx),
            "remove_idx" => Ok(Call::RemoveIdx),
            _ => Err(Fault::Usage),
        }
    }

    /// Whether it is made on the array `some` of the document.
    fn is_on_array(self) -> bool {
        matches!(
            self,
            Call::ArrayMut
                | Call::ChangeItem
                | Call::Push
                | Call::Pop
                | Call::InsertIdx
                | Call::RemoveIdx
        )
    }

    /// Whether it may be refused for the write, once the value is a document.
    fn grows(self) -> bool {
        matches!(
            self,
            Call::Insert | Call::TryInsert | Call::Push | Call::InsertIdx
        )
    }
}

/// Whether the call was refused for want of memory, and whether it handed back what it was given.
#[derive(Clone, Copy, Debug, PartialEq, Eq)]
pub enum Answer {
    Done,
    Refused,
    Returned,
    ValueLost,
    /// A refusal of another name.
    Another,
}

/// A call that was given a null is refused.
fn returned(why: AccessError, value: &BorrowedValue<'_>) -> Answer {
    if why != AccessError::OutOfMemory {
        Answer::Another
    } else if value.is_null() {
        Answer::Returned
    } else {
        Answer::ValueLost
    }
}

pub fn inserted<'i>(
    answer: Result<Option<BorrowedValue<'i>>, Refused<AccessError, BorrowedValue<'i>>>,
) -> Answer {
    match answer {
        Ok(_) => Answer::Done,
        Err(refused) => returned(refused.why, &refused.value),
    }
}

fn tried<'i>(
    answer: Result<Option<BorrowedValue<'i>>, Refused<AllocError, BorrowedValue<'i>>>,
) -> Answer {
    match answer {
        Ok(_) => Answer::Done,
        Err(refused) => returned(AccessError::OutOfMemory, &refused.value),
    }
}

pub fn added<'i>(answer: Result<(), Refused<AccessError, BorrowedValue<'i>>>) -> Answer {
    match answer {
        Ok(()) => Answer::Done,
        Err(refused) => returned(refused.why, &refused.value),
    }
}

pub fn to_null<'i>() -> Replace<BorrowedValue<'i>> {
    Replace {
        value: BorrowedValue::null(),
    }
}

pub fn changed<'i>(
    answer: Result<
        Result<BorrowedValue<'i>, Replace<BorrowedValue<'i>>>,
        Refused<AllocError, Replace<BorrowedValue<'i>>>,
    >,
) -> Answer {
    match answer {
        Ok(Ok(_)) => Answer::Done,
        Ok(Err(_)) => Answer::Another,
        Err(refused) => returned(AccessError::OutOfMemory, &refused.value.value),
    }
}

/// A call that hands nothing back.
pub fn refused(why: AccessError) -> Answer {
    if why == AccessError::OutOfMemory {
        Answer::Refused
    } else {
        Answer::Another
    }
}

/// A call whose one refusal is want of memory.
pub fn done(is_done: bool) -> Answer {
    if is_done {
        Answer::Done
    } else {
        Answer::Refused
    }
}

fn answer_of(alloc: Global, call: Call, value: &mut Value<'_, '_, '_>) -> Answer {
    let key = CowStr::Borrowed("n");
    let there = CowStr::Borrowed("some");
    match call {
        Call::AsMut => done(value.as_mut(alloc).is_ok()),
        Call::AsArrayMut => done(value.as_array_mut(alloc).is_ok()),
        Call::AsObjectMut => done(value.as_object_mut(alloc).is_ok()),
        Call::ArrayMut => match value.array_mut(alloc) {
            Ok(_) => Answer::Done,
            Err(why) => refused(why),
        },
        Call::ObjectMut => match value.object_mut(alloc) {
            Ok(_) => Answer::Done,
            Err(why) => refused(why),
        },
        Call::GetMut => done(value.get_mut(alloc, "some").is_ok()),
        Call::GetIdxMut => done(value.get_idx_mut(alloc, 0).is_ok()),
        Call::ChangeMember => changed(value.change_member(alloc, "some", to_null())),
        Call::ChangeItem => changed(value.change_item(alloc, 0, to_null())),
        Call::Insert => inserted(value.insert(alloc, key, BorrowedValue::null())),
        Call::TryInsert => tried(value.try_insert(alloc, key, BorrowedValue::null())),
        Call::Set => inserted(value.insert(alloc, there, BorrowedValue::null())),
        Call::TrySet => tried(value.try_insert(alloc, there, BorrowedValue::null())),
        Call::Remove => match value.remove(alloc, "some") {
            Ok(_) => Answer::Done,
            Err(why) => refused(why),
        },
        Call::Push => added(value.push(alloc, BorrowedValue::null())),
        Call::Pop => match value.pop(alloc) {
            Ok(_) => Answer::Done,
            Err(why) => refused(why),
        },
        Call::InsertIdx => added(value.insert_idx(alloc, 0, BorrowedValue::null())),
        Call::RemoveIdx => match value.remove_idx(alloc, 0) {
            Ok(_) => Answer::Done,
            Err(why) => refused(why),
        },
    }
}

/// The texts of the forms.
pub fn form_of(value: &Value<'_, '_, '_>) -> &'static str {
    match value {
        Value::Tape(_) => "tape",
        Value::Value(Shared::Borrowed(_)) => "lent",
        Value::Value(Shared::Owned(_)) => "owned",
    }
}

/// The buckets of an object that it owns.
fn owned_buckets(value: &Value<'_, '_, '_>) -> Option<usize> {
    match value {
        Value::Value(Shared::Owned(document)) => document.as_object()?.buckets(),
        _ => None,
    }
}

/// Makes the call on the value between the first two writes, and again where it was refused.
fn write(
    rt: &(impl Print + AllocGlobal),
    call: Call,
    mut value: Value<'_, '_, '_>,
) -> Result<(), Fault> {
    let alloc = rt.alloc();
    let (form, buckets) = (form_of(&value), owned_buckets(&value));
    let before = value.encode(alloc)?;
    say_call(rt)?;
    let answer = answer_of(alloc, call, &mut value);
    if answer != Answer::Done {
        say(rt, "refused, ")?;
        say(
            rt,
            match answer {
                Answer::ValueLost => "VALUE LOST, ",
                Answer::Another => "FOR ANOTHER REASON, ",
                _ => "",
            },
        )?;
        let is_same = value.encode(alloc)?.as_str() == before.as_str();
        let is_kept = form != "owned" || owned_buckets(&value) == buckets;
        say_kept(rt, "tree", is_same && is_kept)?;
        say_kept(rt, "form", call.grows() || form_of(&value) == form)?;
        answer_of(alloc, call, &mut value);
    }
    say(rt, "done, ")?;
    say(rt, form_of(&value))?;
    say(rt, " ")?;
    say(rt, value.encode(alloc)?.as_str())?;
    say(rt, "\n")
}

/// Makes the call on the document of the text, or on its array, as that form.
pub fn run_call(
    rt: &(impl Print + AllocGlobal),
    form: &str,
    call: &str,
    text: &str,
) -> Result<(), Fault> {
    let mut bytes = text_of(rt.alloc(), text)?;
    match form {
        "tape" => on_tape(rt, Call::of(call)?, bytes.as_mut_slice()),
        "lent" => on_lent(rt, Call::of(call)?, bytes.as_mut_slice()),
        "owned" => on_owned(rt, Call::of(call)?, bytes.as_mut_slice()),
        _ => Err(Fault::Usage),
    }
}

fn on_tape(rt: &(impl Print + AllocGlobal), call: Call, bytes: &mut [u8]) -> Result<(), Fault> {
    let tape = read(to_tape(rt.alloc(), bytes))?;
    let whole = tape.as_value();
    match whole.get("some") {
        Some(items) if call.is_on_array() => write(rt, call, of_tape(items)),
        _ => write(rt, call, of_tape(whole)),
    }
}

/// The part of a tape, with a name for each lifetime.
pub fn of_tape<'t, 'i>(part: TapeValue<'t, 'i>) -> Value<'t, 't, 'i> {
    Value::from_tape(part)
}

fn on_lent(rt: &(impl Print + AllocGlobal), call: Call, bytes: &mut [u8]) -> Result<(), Fault> {
    let document = read(deserialize::<BorrowedValue<'_>, CowStr<'_>>(rt.alloc(), bytes))?;
    match document.get("some") {
        Some(items) if call.is_on_array() => {
            write(rt, call, Value::Value(Shared::Borrowed(items)))
        }
        _ => write(rt, call, Value::Value(Shared::Borrowed(&document))),
    }
}

fn on_owned(rt: &(impl Print + AllocGlobal), call: Call, bytes: &mut [u8]) -> Result<(), Fault> {
    let mut document = read(deserialize::<BorrowedValue<'_>, CowStr<'_>>(rt.alloc(), bytes))?;
    if call.is_on_array() {
        match document.remove("some") {
            Ok(Some(items)) => document = items,
            _ => return Err(Fault::Usage),
        }
    }
    write(rt, call, of_document(document))
}

/// The document, with a name for each lifetime.
pub fn of_document<'i>(document: BorrowedValue<'i>) -> Value<'i, 'i, 'i> {
    Value::from(document)
}

/// The lent document, with a name for each lifetime.
pub fn of_lent<'b, 'i>(document: &'b BorrowedValue<'i>) -> Value<'b, 'i, 'i> {
    Value::Value(Shared::Borrowed(document))
}
