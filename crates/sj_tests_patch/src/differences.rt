//! Operations that lead from one document to another.

use super::{borrowed, owned};
use sj_document::Document;
use sj_patch::{OwnedText, diff, patch};
use std::alloc::Global;
use std::test::Fail;

/// Two documents, and how many operations lead from the first to the second.
const PAIRS: [(&str, &str, usize); 12] = [
    (r#"{"a":1,"b":[2]}"#, r#"{"b":[2],"a":1}"#, 0),
    (r#"{"a":{"b":{"c":1}}}"#, r#"{"a":{"b":{"c":2}}}"#, 1),
    (r#"{"a":1,"b":2}"#, r#"{"b":2}"#, 1),
    (r#"{"b":2}"#, r#"{"b":2,"a":1,"c/~":3}"#, 2),
    ("[1,2,3]", "[1,3]", 1),
    ("[1,3]", "[1,2,3]", 1),
    ("[1,2,3,4]", "[1,5,6,4]", 2),
    ("[1,2]", "[3,4,5,6]", 4),
    ("[1,2,3,4]", "[5]", 4),
    (r#"[{"a":1},{"b":2}]"#, r#"[{"a":1},{"b":3}]"#, 1),
    ("[]", "{}", 1),
    ("1", r#"{"a":[]}"#, 1),
];

/// Whether so many operations lead to the document.
fn leads<T: OwnedText + Drop>(
    alloc: Global,
    mut from: Document<T>,
    to: &Document<T>,
    count: usize,
) -> Result<bool, Fail> {
    let operations = diff(alloc, &from, to)?;
    patch(alloc, &mut from, operations.as_slice())?;
    Ok(from == *to && operations.len() == count)
}

#[test]
fn differences_lead_to_the_other(rt: HostRuntime) -> Result<(), Fail> {
    let alloc = rt.alloc();
    for &(from, to, count) in &PAIRS {
        let wanted = owned(alloc, to)?;
        assert!(rt; leads(alloc, owned(alloc, from)?, &wanted, count)?);
        let wanted = borrowed(alloc, to)?;
        assert!(rt; leads(alloc, borrowed(alloc, from)?, &wanted, count)?);
    }
    Ok(())
}
