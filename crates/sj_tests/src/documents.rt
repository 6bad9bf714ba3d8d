//! Documents, through the type that both forms have.

mod comparisons;
mod depths;
mod repeats;

use sj_document::{BorrowedValue, Document, OwnedValue};
use sj_object::{HashMap, ObjectHasher, deserialize};
use sj_text_core::ErrorKind;
use std::alloc::Global;
use std::borrow::CowStr;
use std::test::Fail;

/// The owned document of a text.
fn owned(alloc: Global, text: &str) -> Result<OwnedValue, ErrorKind> {
    let mut bytes = text.as_bytes().to_vec(alloc)?;
    deserialize::<OwnedValue, String>(alloc, bytes.as_mut_slice())
}

/// An object with one member.
fn object(alloc: Global, key: &str, value: OwnedValue) -> Result<OwnedValue, Fail> {
    let mut members = HashMap::with_capacity_and_hasher(alloc, 0, ObjectHasher::default())?;
    members.insert(String::from_str(alloc, key)?, value)?;
    Ok(Document::Object(Box::new(alloc, members)?))
}

#[test]
fn lends_its_texts(rt: HostRuntime) -> Result<(), Fail> {
    let alloc = rt.alloc();
    let map = HashMap::with_capacity_and_hasher(alloc, 1, ObjectHasher::default())?;
    let mut value: BorrowedValue<'_> = Document::Object(Box::new(alloc, map)?);
    let text = Document::String(CowStr::Borrowed("x"));
    let before = value.insert(CowStr::Borrowed("a"), text)?;
    let found = value.get("a");
    let lent = matches!(found, Some(Document::String(CowStr::Borrowed("x"))));
    assert_eq!(rt; [before.is_none(), lent], [true; 2]);
    Ok(())
}
