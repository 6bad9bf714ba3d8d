//! Calls on documents, which own their texts or borrow them.

use refusals_common::{Fault, read, say, say_bytes, say_call, say_kept, text_of};
use sj_document::{BorrowedValue, CopyText, Document, OwnedValue};
use sj_object::{KeyText, deserialize};
use sj_text_core::{
    AccessError, Refused, SameAs, TypedValue, ValueAsScalar, ValueObjectAccessAsScalar, ValueType,
    Writable, WriteError,
};
use std::alloc::{AllocError, Global};
use std::borrow::CowStr;

/// A call on a document, or one that makes a document.
#[derive(Clone, Copy, Debug)]
enum Call {
    Array,
    ArrayWithCapacity,
    Object,
    ObjectWithCapacity,
    Clone,
    Insert,
    TryInsert,
    /// An insert at a key that is there.
    Set,
    TrySet,
    Push,
    InsertIdx,
    Encode,
    EncodePretty,
    Write,
    WritePretty,
}

impl Call {
    fn of(word: &str) -> Result<Call, Fault> {
        match word {
            "array" => Ok(Call::Array),
            "array_with_capacity" => Ok(Call::ArrayWithCapacity),
            "object" => Ok(Call::Object),
            "object_with_capacity" => Ok(Call::ObjectWithCapacity),
            "clone" => Ok(Call::Clone),
            "insert" => Ok(Call::Insert),
            "try_insert" => Ok(Call::TryInsert),
            "set" => Ok(Call::Set),
            "try_set" => Ok(Call::TrySet),
            "push" => Ok(Call::Push),
            "insert_idx" => Ok(Call::InsertIdx),
            "encode" => Ok(Call::Encode),
            "encode_pp" => Ok(Call::EncodePretty),
            "write" => Ok(Call::Write),
            "write_pp" => Ok(Call::WritePretty),
            _ => Err(Fault::Usage),
        }
    }

    /// The key that it inserts.
    fn key(self) -> &'static str {
        match self {
            Call::Set | Call::TrySet => "some",
            _ => "n",
        }
    }
}

/// What a call answered.
#[derive(Drop)]
enum Answer<T: KeyText + Drop> {
    /// The document was changed, or its print appended.
    Done,
    Made(Document<T>),
    Printed(String),
    /// Refused for want of memory, with what came back.
    Refused(Option<Document<T>>),
    Another,
}

impl<T: KeyText + Drop> From<Result<Document<T>, AllocError>> for Answer<T> {
    fn from(made: Result<Document<T>, AllocError>) -> Answer<T> {
        match made {
            Ok(document) => Answer::Made(document),
            Err(AllocError) => Answer::Refused(None),
        }
    }
}

impl<T: KeyText + Drop> From<Result<String, WriteError>> for Answer<T> {
    fn from(printed: Result<String, WriteError>) -> Answer<T> {
        match printed {
            Ok(text) => Answer::Printed(text),
            Err(WriteError::OutOfMemory) => Answer::Refused(None),
            Err(WriteError::TooLong) => Answer::Another,
        }
    }
}

fn written<T: KeyText + Drop>(written: Result<(), WriteError>) -> Answer<T> {
    match written {
        Ok(()) => Answer::Done,
        Err(WriteError::OutOfMemory) => Answer::Refused(None),
        Err(WriteError::TooLong) => Answer::Another,
    }
}

fn inserted<T: KeyText + Drop>(
    inserted: Result<Option<Document<T>>, Refused<AccessError, Document<T>>>,
) -> Answer<T> {
    match inserted {
        Ok(None) => Answer::Done,
        Ok(Some(_)) => Answer::Another,
        Err(refused) => refused_by(refused.why, refused.value),
    }
}

fn refused_by<T: KeyText + Drop>(why: AccessError, value: Document<T>) -> Answer<T> {
    if why == AccessError::OutOfMemory {
        Answer::Refused(Some(value))
    } else {
        Answer::Another
    }
}

fn tried<T: KeyText + Drop>(
    inserted: Result<Option<Document<T>>, Refused<AllocError, Document<T>>>,
) -> Answer<T> {
    match inserted {
        Ok(None) => Answer::Done,
        Ok(Some(_)) => Answer::Another,
        Err(refused) => Answer::Refused(Some(refused.value)),
    }
}

/// What was put in the place of a value, by a call that is not refused.
fn replaced<T: KeyText + Drop, E: Drop>(
    inserted: Result<Option<Document<T>>, Refused<E, Document<T>>>,
) -> Answer<T> {
    match inserted {
        Ok(Some(_)) => Answer::Done,
        _ => Answer::Another,
    }
}

fn added<T: KeyText + Drop>(added: Result<(), Refused<AccessError, Document<T>>>) -> Answer<T> {
    match added {
        Ok(()) => Answer::Done,
        Err(refused) => refused_by(refused.why, refused.value),
    }
}

/// Appends to the array `some` of the document.
fn pushed<T: KeyText + Drop>(document: &mut Document<T>, value: Document<T>) -> Answer<T> {
    match document.get_mut("some") {
        Some(items) => added(items.push(value)),
        None => Answer::Another,
    }
}

/// Puts it in front of the items of the array `some`.
fn put_first<T: KeyText + Drop>(document: &mut Document<T>, value: Document<T>) -> Answer<T> {
    match document.get_mut("some") {
        Some(items) => added(items.insert_idx(0, value)),
        None => Answer::Another,
    }
}

fn answer_of<T: CopyText + Drop>(
    alloc: Global,
    call: Call,
    document: &mut Document<T>,
    given: (T, Document<T>),
    out: &mut Vec<u8>,
) -> Answer<T> {
    let (key, value) = given;
    match call {
        Call::Array => Answer::from(Document::array(alloc)),
        Call::ArrayWithCapacity => Answer::from(Document::array_with_capacity(alloc, 40)),
        Call::Object => Answer::from(Document::object(alloc)),
        Call::ObjectWithCapacity => Answer::from(Document::object_with_capacity(alloc, 40)),
        Call::Clone => {
            let copy: Result<Document<T>, AllocError> = document.clone();
            Answer::from(copy)
        }
        Call::Insert => inserted(document.insert(key, value)),
        Call::TryInsert => tried(document.try_insert(key, value)),
        Call::Set => replaced(document.insert(key, value)),
        Call::TrySet => replaced(document.try_insert(key, value)),
        Call::Push => pushed(document, value),
        Call::InsertIdx => put_first(document, value),
        Call::Encode => Answer::from(document.encode(alloc)),
        Call::EncodePretty => Answer::from(document.encode_pp(alloc)),
        Call::Write => written(document.write(out)),
        Call::WritePretty => written(document.write_pp(out)),
    }
}

/// Makes the call on the document of the text, and tells what it answered and what stands.
pub fn run_call(
    rt: &(impl Print + AllocGlobal),
    form: &str,
    call: &str,
    text: &str,
) -> Result<(), Fault> {
    if call == "reads" {
        return reads(rt, form);
    }
    let mut bytes = text_of(rt.alloc(), text)?;
    match form {
        "owned" => on_owned(rt, Call::of(call)?, bytes.as_mut_slice()),
        _ => Err(Fault::Usage),
    }
}

fn on_owned(rt: &(impl Print + AllocGlobal), call: Call, bytes: &mut [u8]) -> Result<(), Fault> {
    let alloc = rt.alloc();
    let first = (String::from_str(alloc, call.key())?, OwnedValue::null());
    let second = (String::from_str(alloc, call.key())?, OwnedValue::null());
    let document = read(deserialize::<OwnedValue, String>(alloc, bytes))?;
    make(rt, call, document, first, second)
}

/// The buckets of an object.
fn buckets_of<T: KeyText + Drop>(document: &Document<T>) -> Option<usize> {
    document.as_object()?.buckets()
}

/// Makes the call between the first two writes, and again where it was refused.
fn make<T: CopyText + Drop>(
    rt: &(impl Print + AllocGlobal),
    call: Call,
    mut document: Document<T>,
    first: (T, Document<T>),
    second: (T, Document<T>),
) -> Result<(), Fault> {
    let alloc = rt.alloc();
    let (before, buckets) = (document.encode(alloc)?, buckets_of(&document));
    let mut out = b"> ".to_vec(alloc)?;
    say_call(rt)?;
    match answer_of(alloc, call, &mut document, first, &mut out) {
        Answer::Refused(back) => {
            say(rt, "refused, ")?;
            if let Some(value) = back {
                say_kept(rt, "value", value.is_null())?;
            }
            let is_same = document.encode(alloc)?.as_str() == before.as_str();
            let is_kept = is_same && buckets_of(&document) == buckets;
            say_kept(rt, "document", is_kept)?;
            say_kept(rt, "out", out.as_slice() == b"> ".as_slice())?;
            let again = answer_of(alloc, call, &mut document, second, &mut out);
            tell(rt, &document, &again, out.as_slice())
        }
        answer => tell(rt, &document, &answer, out.as_slice()),
    }
}

/// Tells what was made or printed, and else the document.
fn tell<T: KeyText + Drop>(
    rt: &(impl Print + AllocGlobal),
    document: &Document<T>,
    answer: &Answer<T>,
    out: &[u8],
) -> Result<(), Fault> {
    let alloc = rt.alloc();
    say(rt, "done ")?;
    match answer {
        Answer::Done => say(rt, document.encode(alloc)?.as_str())?,
        Answer::Made(made) => say(rt, made.encode(alloc)?.as_str())?,
        Answer::Printed(text) => say(rt, text.as_str())?,
        Answer::Refused(_) => say(rt, "NOT")?,
        Answer::Another => say(rt, "ANOTHER ANSWER")?,
    }
    say(rt, " ")?;
    say_bytes(rt, out)?;
    say(rt, "\n")
}

/// Makes each call of a document that takes no memory.
fn reads(rt: &(impl Print + AllocGlobal), form: &str) -> Result<(), Fault> {
    let alloc = rt.alloc();
    let mut bytes = text_of(alloc, "example")?;
    let mut copy = text_of(alloc, "example")?;
    let owned = read(deserialize::<OwnedValue, String>(alloc, bytes.as_mut_slice()))?;
    let borrowed = read(deserialize::<BorrowedValue<'_>, CowStr<'_>>(alloc, copy.as_mut_slice()))?;
    say_call(rt)?;
    let is_same = owned.same_as(&borrowed) && borrowed.same_as(&owned);
    let is_found = match form {
        "owned" => is_example(owned),
        "borrowed" => is_example(borrowed),
        _ => return Err(Fault::Usage),
    };
    say(
        rt,
        if is_same && is_found {
            "found\n"
        } else {
            "NOT FOUND\n"
        },
    )
}

/// Whether it reads as the document of the first example, and can be taken apart.
fn is_example<T: KeyText + Drop>(mut value: Document<T>) -> bool {
    let Some(items) = value.get("some") else {
        return false;
    };
    let is_read = items.get_idx(0).and_then(|item| item.as_str()) == Some("key")
        && items.get_idx(2).and_then(|item| item.as_u8()) == Some(2)
        && items.get_idx(3).is_none()
        && items.try_as_array().is_ok_and(|items| items.len() == 3)
        && items.array_len() == Some(3)
        && value.contains_key("some")
        && !value.contains_key("none")
        && value.value_type() == ValueType::Object
        && value.try_get_u8("some").is_err()
        && value == value;
    let Some(items) = value.get_mut("some") else {
        return false;
    };
    is_read
        && items.pop().is_ok_and(|last| last.is_some())
        && items.get_idx_mut(1).is_some()
        && items.remove_idx(0).is_ok_and(|first| first.is_some())
        && value.remove("some").is_ok_and(|some| some.is_some())
        && value.into_object().is_some_and(|object| object.is_empty())
}
