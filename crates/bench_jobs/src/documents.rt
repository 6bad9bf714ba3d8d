//! Documents that are read, looked at, changed, printed and let go, in each form.

use crate::digest::Digest;
use crate::random::Random;
use crate::texts::{KINDS, put_event, text_of};
use sj_document::Document;
use sj_object::KeyText;
use sj_owned::prelude::*;
use sj_tape::to_tape;
use sj_text_core::{JsonError, StaticNode};
use std::alloc::Global;
use std::borrow::CowStr;

/// Looks at each item.
fn look<T: KeyText>(value: &Document<T>, digest: &mut Digest) {
    let Some(items) = value.as_array() else {
        return;
    };
    for item in items {
        let id = item.get("id").and_then(|id| id.as_u64());
        digest.add(id.unwrap_or(1));
        if let Some(user) = item.get("user") {
            digest.add_bytes(
                user.get("name")
                    .and_then(|n| n.as_str())
                    .unwrap_or("")
                    .as_bytes(),
            );
        }
    }
}

/// Changes one of eight items.
fn change_owned(alloc: Global, value: &mut sj_owned::Value) -> Result<(), JsonError> {
    let Some(items) = value.as_array_mut() else {
        return Ok(());
    };
    for (i, item) in items.iter_mut().enumerate() {
        if i % 8 == 0 && item.as_object().is_some() {
            item.insert(
                String::from_str(alloc, "seen")?,
                sj_owned::Value::from(true),
            )?;
            item.remove("id")?;
        }
    }
    Ok(())
}

/// The same of a document that borrows.
fn change_borrowed(value: &mut sj_borrowed::Value<'_>) -> Result<(), JsonError> {
    let Some(items) = value.as_array_mut() else {
        return Ok(());
    };
    for (i, item) in items.iter_mut().enumerate() {
        if i % 8 == 0 && item.as_object().is_some() {
            item.insert(
                CowStr::Borrowed("seen"),
                Document::Static(StaticNode::Bool(true)),
            )?;
            item.remove("id")?;
        }
    }
    Ok(())
}

/// Reads, looks, changes, prints on many lines and lets go.
fn owned(alloc: Global, text: &Vec<u8>, digest: &mut Digest) -> Result<(), JsonError> {
    let mut text = text.clone()?;
    let mut value = sj_owned::to_value(alloc, &mut text)?;
    look(&value, digest);
    change_owned(alloc, &mut value)?;
    digest.add_bytes(value.encode_pp(alloc)?.as_bytes());
    Ok(())
}

/// Reads, looks, changes, prints and lets go.
fn borrowed(alloc: Global, text: &Vec<u8>, digest: &mut Digest) -> Result<(), JsonError> {
    let mut text = text.clone()?;
    let mut value = sj_borrowed::to_value(alloc, &mut text)?;
    look(&value, digest);
    change_borrowed(&mut value)?;
    digest.add_bytes(value.encode(alloc)?.as_bytes());
    Ok(())
}

/// Reads, looks and prints a tape, and what a first write makes of it.
fn lazy(alloc: Global, text: &Vec<u8>, digest: &mut Digest) -> Result<(), JsonError> {
    let mut text = text.clone()?;
    let tape = to_tape(alloc, &mut text)?;
    let part = tape.as_value();
    if let Some(items) = part.as_array() {
        for item in items.iter() {
            digest.add(item.get_u64("id").unwrap_or(1));
        }
    }
    digest.add_bytes(part.encode(alloc)?.as_bytes());
    let mut value = sj_lazy::Value::from_tape(part);
    value.push(alloc, Document::Static(StaticNode::Bool(true)))?;
    digest.add_bytes(value.encode(alloc)?.as_bytes());
    Ok(())
}

/// Documents of one event each.
fn small(
    alloc: Global,
    count: u64,
    random: &mut Random,
    digest: &mut Digest,
) -> Result<(), JsonError> {
    let mut text = Vec::new(alloc);
    for _ in 0..count {
        text.clear();
        put_event(&mut text, random)?;
        borrowed(alloc, &text, digest)?;
        owned(alloc, &text, digest)?;
    }
    Ok(())
}

/// A document of each kind and about that many bytes, in each form, and small ones.
fn round(
    alloc: Global,
    size: usize,
    random: &mut Random,
    digest: &mut Digest,
) -> Result<(), JsonError> {
    for kind in KINDS {
        let text = text_of(alloc, random, kind, size)?;
        owned(alloc, &text, digest)?;
        borrowed(alloc, &text, digest)?;
        lazy(alloc, &text, digest)?;
    }
    small(alloc, size as u64 / 2000, random, digest)
}

pub fn run(
    alloc: Global,
    rounds: u64,
    size: usize,
    random: &mut Random,
    digest: &mut Digest,
) -> Result<(), JsonError> {
    for _ in 0..rounds {
        round(alloc, size, random, digest)?;
    }
    Ok(())
}
