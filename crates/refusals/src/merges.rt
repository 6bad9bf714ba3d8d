//! Merges of a patch into a document.

use refusals_common::{Fault, read, say, say_call, say_kept, text_of};
use sj_document::{CopyText, Document, OwnedValue};
use sj_merge::{into_merged, merge, merge_diff};
use sj_object::{KeyText, deserialize};
use sj_text_core::Writable;
use std::alloc::{AllocError, Global};

/// Takes a member out, merges into one that is a number, and puts two new ones.
const PATCH: &[u8] = b"{\"k00\":null,\"k01\":{\"a\":1,\"b\":null},\"n\":[{}],\"o\":\"p\"}";

/// What is merged: a document and its patch.
type Given<T> = (Document<T>, Document<T>);

/// Merges into the document of the text, by that call.
pub fn run_call(
    rt: &(impl Print + AllocGlobal),
    form: &str,
    call: &str,
    text: &str,
) -> Result<(), Fault> {
    let alloc = rt.alloc();
    let mut bytes = twice(alloc, text)?;
    match form {
        "owned" => {
            let list = deserialize::<OwnedValue, String>(alloc, bytes.as_mut_slice());
            make(rt, call, read(list)?)
        }
        _ => Err(Fault::Usage),
    }
}

/// An array of the text and the patch, and of both again.
fn twice(alloc: Global, text: &str) -> Result<Vec<u8>, Fault> {
    let target = text_of(alloc, text)?;
    let mut list = Vec::new(alloc);
    for before in [b'[', b','] {
        list.push(before)?;
        list.extend_from_slice(target.as_slice())?;
        list.push(b',')?;
        list.extend_from_slice(PATCH)?;
    }
    list.push(b']')?;
    Ok(list)
}

/// The last two items.
fn last_two<T: KeyText + Drop>(items: &mut Vec<Document<T>>) -> Result<Given<T>, Fault> {
    let patch = items.pop();
    let target = items.pop();
    match (target, patch) {
        (Some(target), Some(patch)) => Ok((target, patch)),
        _ => Err(Fault::Usage),
    }
}

fn make<T: CopyText + Drop>(
    rt: &(impl Print + AllocGlobal),
    call: &str,
    list: Document<T>,
) -> Result<(), Fault> {
    let Some(mut items) = list.into_array() else {
        return Err(Fault::Usage);
    };
    let again = last_two(&mut items)?;
    let first = last_two(&mut items)?;
    match call {
        "merge" => by_merge(rt, first, again.1),
        "into_merged" => by_into_merged(rt, first, again),
        "merge_diff" => by_merge_diff(rt, first, again),
        _ => Err(Fault::Usage),
    }
}

/// Merges between the first two writes, and where that was refused another such patch.
fn by_merge<T: CopyText + Drop>(
    rt: &(impl Print + AllocGlobal),
    given: Given<T>,
    again: Document<T>,
) -> Result<(), Fault> {
    let alloc = rt.alloc();
    let (mut target, patch) = given;
    let before = target.encode(alloc)?;
    say_call(rt)?;
    if let Err(AllocError) = merge(alloc, &mut target, patch) {
        say(rt, "refused, ")?;
        let is_same = target.encode(alloc)?.as_str() == before.as_str();
        say_kept(rt, "target", is_same)?;
        merge(alloc, &mut target, again)?;
    }
    say_merged(rt, &target)
}

/// What the call makes that takes its target.
fn made<T: CopyText + Drop>(alloc: Global, given: Given<T>) -> Result<Document<T>, AllocError> {
    let (target, patch) = given;
    into_merged(alloc, target, patch)
}

/// The same by the call that takes its target, of which nothing is left where it was refused.
fn by_into_merged<T: CopyText + Drop>(
    rt: &(impl Print + AllocGlobal),
    given: Given<T>,
    again: Given<T>,
) -> Result<(), Fault> {
    let alloc = rt.alloc();
    say_call(rt)?;
    let merged = match made(alloc, given) {
        Ok(merged) => merged,
        Err(AllocError) => {
            say(rt, "refused, ")?;
            made(alloc, again)?
        }
    };
    say_merged(rt, &merged)
}

/// Merges the patch that leads to the merged document, which is looked for between the first two writes.
fn by_merge_diff<T: CopyText + Drop>(
    rt: &(impl Print + AllocGlobal),
    given: Given<T>,
    again: Given<T>,
) -> Result<(), Fault> {
    let alloc = rt.alloc();
    let (mut target, _patch) = given;
    let wanted = made(alloc, again)?;
    let before = target.encode(alloc)?;
    let wanted_before = wanted.encode(alloc)?;
    say_call(rt)?;
    let found = match merge_diff(alloc, &target, &wanted) {
        Ok(found) => found,
        Err(AllocError) => {
            say(rt, "refused, ")?;
            let is_same = target.encode(alloc)?.as_str() == before.as_str();
            let is_wanted = wanted.encode(alloc)?.as_str() == wanted_before.as_str();
            say_kept(rt, "both", is_same && is_wanted)?;
            merge_diff(alloc, &target, &wanted)?
        }
    };
    say(rt, "merged ")?;
    if let Some(patch) = found {
        merge(alloc, &mut target, patch)?;
    }
    say(rt, target.encode(alloc)?.as_str())?;
    say(rt, "\n")
}

fn say_merged<T: KeyText + Drop>(
    rt: &(impl Print + AllocGlobal),
    merged: &Document<T>,
) -> Result<(), Fault> {
    say(rt, "merged ")?;
    say(rt, merged.encode(rt.alloc())?.as_str())?;
    say(rt, "\n")
}
