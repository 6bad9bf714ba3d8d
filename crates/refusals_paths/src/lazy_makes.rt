//! Calls that make a lazy document of something else.

use crate::lazy::form_of;
use refusals_common::{Fault, Given, prepare, say, say_again, say_call};
use sj_lazy::{Lazy, Value};
use sj_text_core::{TryMake, Writable};
use std::alloc::{AllocError, Global};
use std::borrow::CowStr;

/// What a lazy document is made of.
#[derive(Clone, Copy, Debug)]
enum Source {
    Array,
    ArrayWithCapacity,
    Object,
    ObjectWithCapacity,
    Items,
    Members,
    FromItems,
    FromPairs,
}

impl Source {
    fn of(word: &str) -> Result<Source, Fault> {
        match word {
            "array" => Ok(Source::Array),
            "array_with_capacity" => Ok(Source::ArrayWithCapacity),
            "object" => Ok(Source::Object),
            "object_with_capacity" => Ok(Source::ObjectWithCapacity),
            "items" => Ok(Source::Items),
            "members" => Ok(Source::Members),
            "from_items" => Ok(Source::FromItems),
            "from_pairs" => Ok(Source::FromPairs),
            _ => Err(Fault::Usage),
        }
    }
}

fn made(
    alloc: Global,
    source: Source,
    given: Given<CowStr<'static>>,
) -> Result<Value<'static, 'static, 'static>, AllocError> {
    match source {
        Source::Array => Lazy::array(alloc),
        Source::ArrayWithCapacity => Lazy::array_with_capacity(alloc, 40),
        Source::Object => Lazy::object(alloc),
        Source::ObjectWithCapacity => Lazy::object_with_capacity(alloc, 40),
        Source::Items => Lazy::try_make(alloc, given.items),
        Source::Members => Lazy::try_make(alloc, given.members),
        Source::FromItems => Lazy::try_from_items(alloc, given.values.into_iter()),
        Source::FromPairs => Lazy::try_from_pairs(alloc, given.pairs.into_iter()),
    }
}

/// Makes a lazy document of its source twice, the first time between the first two writes.
pub fn make(rt: &(impl Print + AllocGlobal), source: &str) -> Result<(), Fault> {
    let alloc = rt.alloc();
    let source = Source::of(source)?;
    let (first, second) = (prepare(alloc)?, prepare(alloc)?);
    say_call(rt)?;
    let is_made = made(alloc, source, first).is_ok();
    say_again(rt, is_made)?;
    let again = made(alloc, source, second)?;
    say(rt, form_of(&again))?;
    say(rt, " ")?;
    say(rt, again.encode(alloc)?.as_str())?;
    say(rt, "\n")
}
