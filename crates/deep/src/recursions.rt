//! Calls that go down a deep document by a call for each level, so that `tools/stack.py` can measure
//! how much of the stack a level takes.

use crate::build::{document, objects};
use crate::fault::Fault;
use sj_document::OwnedValue;
use sj_merge::into_merged;
use std::io::{self, Write};

/// Compares two documents of that depth.
pub fn compare(rt: &(impl Print + AllocGlobal), levels: usize) -> Result<(), Fault> {
    let alloc = rt.alloc();
    let one = document::<String>(alloc, levels)?;
    let other = document::<String>(alloc, levels)?;
    let told = if one == other {
        "same\n"
    } else {
        "OTHERWISE\n"
    };
    io::writer(rt).write_all(told.as_bytes())?;
    Ok(())
}

/// Writes a document of that depth with `{:?}`.
pub fn debug(rt: &(impl Print + AllocGlobal), levels: usize) -> Result<(), Fault> {
    let alloc = rt.alloc();
    let value = document::<String>(alloc, levels)?;
    let text = format!(in alloc; "{value:?}")?;
    io::writer(rt).write_all(text.as_bytes())?;
    Ok(())
}

/// Merges a patch of that depth into a document of no members.
pub fn merge(rt: &(impl Print + AllocGlobal), levels: usize) -> Result<(), Fault> {
    let alloc = rt.alloc();
    let patch = objects(alloc, levels)?;
    let merged = into_merged(alloc, OwnedValue::object(alloc)?, patch)?;
    let told = if merged.is_within_depth(levels, alloc)? {
        "OTHERWISE\n"
    } else {
        "merged\n"
    };
    io::writer(rt).write_all(told.as_bytes())?;
    Ok(())
}
