//! Copies of deep documents.

use crate::build::document;
use crate::fault::Fault;
use sj_document::{BorrowedValue, OwnedValue};
use sj_lazy::{Shared, Value};
use sj_text_core::{TryMake, Writable};
use std::alloc::Global;
use std::borrow::CowStr;
use std::io::{self, Write};

/// Prints a copy of a document of that form and depth, then what it is turned into, and whether it is
/// within its depth and within one level less.
pub fn print(rt: &(impl Print + AllocGlobal), form: &str, levels: usize) -> Result<(), Fault> {
    let alloc = rt.alloc();
    let mut out = Vec::new(alloc);
    match form {
        "owned" => print_owned(alloc, levels, &mut out)?,
        "borrowed" => print_borrowed(alloc, levels, &mut out)?,
        "lazy" => print_lazy(alloc, levels, &mut out)?,
        _ => return Err(Fault::Usage),
    }
    io::writer(rt).write_all(out.as_slice())?;
    Ok(())
}

/// Appends a line that says whether a document of one level more is within its depth, and not within
/// one level less.
fn tell_within(is_within: bool, is_below: bool, out: &mut Vec<u8>) -> Result<(), Fault> {
    let told = match (is_within, is_below) {
        (true, false) => "within",
        _ => "OTHERWISE",
    };
    out.extend_from_slice(told.as_bytes())?;
    out.push(b'\n')?;
    Ok(())
}

fn print_owned(alloc: Global, levels: usize, out: &mut Vec<u8>) -> Result<(), Fault> {
    let value = document::<String>(alloc, levels)?;
    let copy = value.clone()?;
    copy.write(out)?;
    out.push(b'\n')?;
    BorrowedValue::try_make(alloc, copy)?.write(out)?;
    out.push(b'\n')?;
    let is_within = value.is_within_depth(levels.saturating_add(1), alloc)?;
    tell_within(is_within, value.is_within_depth(levels, alloc)?, out)
}

fn print_borrowed(alloc: Global, levels: usize, out: &mut Vec<u8>) -> Result<(), Fault> {
    let value = document::<CowStr<'static>>(alloc, levels)?;
    let copy = value.clone()?;
    copy.write(out)?;
    out.push(b'\n')?;
    OwnedValue::try_make(alloc, copy)?.write(out)?;
    out.push(b'\n')?;
    let is_within = value.is_within_depth(levels.saturating_add(1), alloc)?;
    tell_within(is_within, value.is_within_depth(levels, alloc)?, out)
}

fn print_lazy(alloc: Global, levels: usize, out: &mut Vec<u8>) -> Result<(), Fault> {
    let lent = document::<CowStr<'static>>(alloc, levels)?;
    let value = Value::Value(Shared::Borrowed(&lent));
    let copy = value.into_owned(alloc)?;
    copy.write(out)?;
    out.push(b'\n')?;
    copy.clone()?.write(out)?;
    out.push(b'\n')?;
    let is_within = copy.is_within_depth(levels.saturating_add(1), alloc)?;
    tell_within(is_within, copy.is_within_depth(levels, alloc)?, out)
}
