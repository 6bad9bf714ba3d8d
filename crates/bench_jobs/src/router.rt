//! A stream of messages, a line each: all are read and looked at, one in three is edited.

use crate::digest::Digest;
use crate::random::Random;
use crate::texts::{put, put_event, put_number, put_words};
use sj_borrowed::BorrowedValue;
use sj_merge::merge;
use sj_owned::prelude::*;
use sj_owned::{JsonError, Value, owned_from_tape};
use sj_stream::{Lines, Repeats, Stream};
use sj_text_core::StaticNode;
use std::alloc::{AllocError, Global};
use std::borrow::CowStr;

/// What goes over the messages of two topics.
const PATCH: &str = r#"{"seen":true,"text":null,"route":{"to":"archive","at":1719830000}}"#;

/// A line of a log, of some 80 bytes.
fn put_log(out: &mut Vec<u8>, random: &mut Random) -> Result<(), AllocError> {
    put(out, "{\"at\":17198")?;
    put_number(out, 10_000 + random.below(80_000))?;
    put(out, ",\"topic\":\"")?;
    put(out, random.pick(&["news", "sport", "music"]))?;
    put(out, "\",\"host\":\"web-")?;
    put_number(out, random.below(40))?;
    put(out, "\",\"text\":\"")?;
    put_words(out, random, 3)?;
    put(out, "\"}")
}

/// Lines of about that many bytes: four lines of a log to an event, and one in 500 that is not read.
fn lines_of(alloc: Global, random: &mut Random, size: usize) -> Result<Vec<u8>, AllocError> {
    let mut out = Vec::with_capacity(alloc, size)?;
    for _ in 0..size {
        if out.len() >= size {
            break;
        }
        match random.below(500) {
            0 => put(&mut out, "{\"at\":}")?,
            n if n % 5 == 0 => put_event(&mut out, random)?,
            _ => put_log(&mut out, random)?,
        }
        put(&mut out, "\n")?;
    }
    Ok(out)
}

/// Puts the message as the patch makes it.
fn put_merged(
    alloc: Global,
    message: sj_tape::Value<'_, '_>,
    patch: &Value,
    out: &mut Vec<u8>,
) -> Result<(), JsonError> {
    let mut document = owned_from_tape(alloc, message)?;
    merge(alloc, &mut document, patch.clone()?)?;
    document.write(out)?;
    Ok(())
}

/// Puts the message with one member more.
fn put_marked(
    alloc: Global,
    message: sj_tape::Value<'_, '_>,
    out: &mut Vec<u8>,
) -> Result<(), JsonError> {
    let mut value = sj_lazy::Value::from_tape(message);
    let truth: BorrowedValue<'_> = BorrowedValue::Static(StaticNode::Bool(true));
    value.insert(alloc, CowStr::Borrowed("seen"), truth)?;
    value.write(out)?;
    Ok(())
}

/// Puts a message as its topic asks for.
fn put_message(
    alloc: Global,
    text: &[u8],
    message: sj_tape::Value<'_, '_>,
    patch: &Value,
    out: &mut Vec<u8>,
) -> Result<(), JsonError> {
    let is_even = message.get_u64("at").unwrap_or(0) % 2 == 0;
    match message.get_str("topic") {
        Some("news") if is_even => put_merged(alloc, message, patch, out)?,
        Some("news") => put_marked(alloc, message, out)?,
        _ => {
            out.extend_from_slice(text)?;
        }
    }
    out.push(b'\n')?;
    Ok(())
}

/// Routes the lines of an input, which is given twice, since reading changes the bytes.
fn route(
    alloc: Global,
    patch: &Value,
    input: &mut [u8],
    copy: &mut [u8],
    out: &mut Vec<u8>,
) -> Result<u64, JsonError> {
    let mut lines = Lines::new(input);
    let mut stream = Stream::new(alloc, copy);
    let mut unread = 0u64;
    while let Some(line) = lines.next() {
        match stream.advance() {
            Some(Ok(_)) => {
                if let Some(message) = stream.value(Repeats::First) {
                    put_message(alloc, line.text, message, patch, out)?;
                }
            }
            _ => unread = unread.wrapping_add(1),
        }
    }
    Ok(unread)
}

pub fn run(
    alloc: Global,
    rounds: u64,
    size: usize,
    random: &mut Random,
    digest: &mut Digest,
) -> Result<(), JsonError> {
    let mut patch = PATCH.as_bytes().to_vec(alloc)?;
    let patch = sj_owned::to_value(alloc, &mut patch)?;
    let mut out = Vec::new(alloc);
    for _ in 0..rounds {
        let mut input = lines_of(alloc, random, size)?;
        let mut copy = input.clone()?;
        out.clear();
        let unread = route(alloc, &patch, &mut input, &mut copy, &mut out)?;
        digest.add(unread);
        digest.add_bytes(&out);
    }
    Ok(())
}
