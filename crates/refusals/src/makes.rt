//! Calls that make a document of something else.

use refusals_common::{Fault, Given, prepare, read, say, say_again, say_call, text_of};
use sj_document::{BorrowedValue, Document, OwnedValue};
use sj_object::{KeyText, deserialize};
use sj_text_core::{TryMake, Writable};
use std::alloc::{AllocError, Global};
use std::borrow::CowStr;

/// What a document is made of.
#[derive(Clone, Copy, Debug)]
enum Source {
    Text,
    String,
    Cow,
    Items,
    Object,
    Map,
    FromItems,
    FromPairs,
}

impl Source {
    fn of(word: &str) -> Result<Source, Fault> {
        match word {
            "text" => Ok(Source::Text),
            "string" => Ok(Source::String),
            "cow" => Ok(Source::Cow),
            "items" => Ok(Source::Items),
            "object" => Ok(Source::Object),
            "map" => Ok(Source::Map),
            "from_items" => Ok(Source::FromItems),
            "from_pairs" => Ok(Source::FromPairs),
            _ => Err(Fault::Usage),
        }
    }
}

fn made(alloc: Global, source: Source, given: Given<String>) -> Result<OwnedValue, AllocError> {
    match source {
        Source::Text => OwnedValue::try_make(alloc, "a text"),
        Source::String => OwnedValue::try_make(alloc, &given.string),
        Source::Cow => OwnedValue::try_make(alloc, CowStr::Borrowed("a text")),
        Source::Items => OwnedValue::try_make(alloc, given.items),
        Source::Object => OwnedValue::try_make(alloc, given.members),
        Source::Map => OwnedValue::try_make(alloc, given.map),
        Source::FromItems => OwnedValue::try_from_items(alloc, given.values.into_iter()),
        Source::FromPairs => OwnedValue::try_from_pairs(alloc, given.pairs.into_iter()),
    }
}

/// Makes a document of its source twice, the first time between the first two writes.
pub fn make(rt: &(impl Print + AllocGlobal), source: &str) -> Result<(), Fault> {
    let alloc = rt.alloc();
    let source = Source::of(source)?;
    let (first, second) = (prepare::<String>(alloc)?, prepare::<String>(alloc)?);
    say_call(rt)?;
    let is_made = made(alloc, source, first).is_ok();
    say_again(rt, is_made)?;
    say_document(rt, &made(alloc, source, second)?)
}

/// Makes a document of another one twice, the first time between the first two writes.
pub fn convert(rt: &(impl Print + AllocGlobal), call: &str) -> Result<(), Fault> {
    let alloc = rt.alloc();
    let mut bytes = text_of(alloc, "escapes")?;
    let mut copy = text_of(alloc, "escapes")?;
    let first = read(deserialize::<BorrowedValue<'_>, CowStr<'_>>(alloc, bytes.as_mut_slice()))?;
    let second = read(deserialize::<BorrowedValue<'_>, CowStr<'_>>(alloc, copy.as_mut_slice()))?;
    match call {
        "clone_static" => {
            say_call(rt)?;
            let is_made = first.clone_static(alloc).is_ok();
            say_again(rt, is_made)?;
            say_document(rt, &first.clone_static(alloc)?)
        }
        "into_static" => {
            say_call(rt)?;
            let is_made = first.into_static(alloc).is_ok();
            say_again(rt, is_made)?;
            say_document(rt, &second.into_static(alloc)?)
        }
        "owned_from_borrowed" => {
            say_call(rt)?;
            let is_made = OwnedValue::try_make(alloc, first).is_ok();
            say_again(rt, is_made)?;
            say_document(rt, &OwnedValue::try_make(alloc, second)?)
        }
        "borrowed_from_owned" => {
            let first = OwnedValue::try_make(alloc, first)?;
            let second = OwnedValue::try_make(alloc, second)?;
            say_call(rt)?;
            let is_made = BorrowedValue::try_make(alloc, first).is_ok();
            say_again(rt, is_made)?;
            say_document(rt, &BorrowedValue::try_make(alloc, second)?)
        }
        _ => Err(Fault::Usage),
    }
}

pub fn say_document<T: KeyText + Drop>(
    rt: &(impl Print + AllocGlobal),
    document: &Document<T>,
) -> Result<(), Fault> {
    say(rt, document.encode(rt.alloc())?.as_str())?;
    say(rt, "\n")
}
