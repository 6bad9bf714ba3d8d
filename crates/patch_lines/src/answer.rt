//! What a line is answered.

use anyhow::anyhow;
use sj_document::Document;
use sj_object::KeyText;
use sj_patch::{OwnedText, diff, document_of, merge, merge_diff, operations_of, patch};
use sj_text_core::{Refused, ValueAsScalar, Writable};
use std::alloc::Global;
use std::io::Write;

/// The word of a line, and its two documents.
fn parts<T: KeyText + Drop>(line: Document<T>) -> Option<(Document<T>, Document<T>, Document<T>)> {
    let mut items = line.into_array()?;
    let second = items.pop()?;
    let first = items.pop()?;
    let word = items.pop()?;
    Some((word, first, second))
}

/// Tells the two documents, and ends the line.
fn tell<T: KeyText>(
    first: &Document<T>,
    second: &Document<T>,
    out: &mut Vec<u8>,
) -> anyhow::Result<()> {
    first.write(out)?;
    out.push(b'\t')?;
    second.write(out)?;
    out.push(b'\n')?;
    Ok(())
}

fn apply<T: OwnedText + Drop>(
    alloc: Global,
    mut document: Document<T>,
    listed: Document<T>,
    out: &mut Vec<u8>,
) -> anyhow::Result<()> {
    let operations = match operations_of(alloc, listed) {
        Ok(operations) => operations,
        Err(Refused { why, value }) => {
            write!(out, "!{why}\t")?;
            return tell(&document, &value, out);
        }
    };
    match patch(alloc, &mut document, operations.as_slice()) {
        Ok(()) => {
            document.write(out)?;
            out.push(b'\n')?;
            Ok(())
        }
        Err(why) => {
            write!(out, "!{why}\t")?;
            tell(&document, &document_of(alloc, operations.as_slice())?, out)
        }
    }
}

fn merge_in<T: OwnedText + Drop>(
    alloc: Global,
    mut document: Document<T>,
    given: Document<T>,
    out: &mut Vec<u8>,
) -> anyhow::Result<()> {
    merge(alloc, &mut document, given)?;
    document.write(out)?;
    out.push(b'\n')?;
    Ok(())
}

fn tell_difference<T: OwnedText + Drop>(
    alloc: Global,
    mut first: Document<T>,
    second: &Document<T>,
    out: &mut Vec<u8>,
) -> anyhow::Result<()> {
    let operations = diff(alloc, &first, second)?;
    patch(alloc, &mut first, operations.as_slice())?;
    tell(&document_of(alloc, operations.as_slice())?, &first, out)
}

fn tell_merge_difference<T: OwnedText + Drop>(
    alloc: Global,
    first: Document<T>,
    second: &Document<T>,
    out: &mut Vec<u8>,
) -> anyhow::Result<()> {
    let Some(found) = merge_diff(alloc, &first, second)? else {
        out.extend_from_slice(b"!no merge patch leads there\n")?;
        return Ok(());
    };
    found.write(out)?;
    out.push(b'\t')?;
    merge_in(alloc, first, found, out)
}

/// Answers a line, behind what was answered before.
pub fn answer<T: OwnedText + Drop>(
    alloc: Global,
    line: Document<T>,
    out: &mut Vec<u8>,
) -> anyhow::Result<()> {
    let Some((word, first, second)) = parts(line) else {
        return Err(anyhow!("no word and two documents"));
    };
    match word.as_str() {
        Some("patch") => apply(alloc, first, second, out),
        Some("merge") => merge_in(alloc, first, second, out),
        Some("diff") => tell_difference(alloc, first, &second, out),
        Some("merge_diff") => tell_merge_difference(alloc, first, &second, out),
        _ => Err(anyhow!("no patch, merge, diff or merge_diff")),
    }
}
