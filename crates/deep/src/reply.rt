//! Replies as lines.

use crate::fault::Fault;
use sj_document::OwnedValue;
use sj_run::{Reply, ValueType};
use sj_text_core::Writable;
use std::alloc::Global;

fn kind_text(kind: ValueType) -> &'static str {
    match kind {
        ValueType::Null => "Null",
        ValueType::Bool => "Bool",
        ValueType::String => "String",
        ValueType::Array => "Array",
        ValueType::Object => "Object",
        _ => "I64",
    }
}

/// The keys as an array of texts.
fn keys_of(alloc: Global, keys: Vec<String>) -> Result<OwnedValue, Fault> {
    let mut array = OwnedValue::array(alloc)?;
    for key in keys {
        if array.push(OwnedValue::String(key)).is_err() {
            return Err(Fault::OutOfMemory);
        }
    }
    Ok(array)
}

/// What a reply is in words, where it has no value.
fn words_of(reply: &Reply) -> &'static str {
    match reply {
        Reply::Nothing => "none",
        Reply::Done => "ok",
        Reply::Missing => "missing",
        Reply::NotAnObject => "not an object",
        Reply::NotAnArray => "not an array",
        Reply::NotAString => "not a string",
        Reply::NoLength => "no length",
        Reply::Truth(true) => "true",
        Reply::Truth(false) => "false",
        Reply::Kind(kind) => kind_text(*kind),
        _ => "bad command",
    }
}

/// Appends the reply and a line feed.
pub fn write_reply(alloc: Global, reply: Reply, out: &mut Vec<u8>) -> Result<(), Fault> {
    match reply {
        Reply::Old(value) => value.write(out)?,
        Reply::Text(text) => OwnedValue::String(text).write(out)?,
        Reply::Count(count) => OwnedValue::from(count).write(out)?,
        Reply::Keys(keys) => keys_of(alloc, keys)?.write(out)?,
        Reply::Printed(text) => out.extend_from_slice(text.as_bytes())?,
        reply => out.extend_from_slice(words_of(&reply).as_bytes())?,
    }
    out.push(b'\n')?;
    Ok(())
}
