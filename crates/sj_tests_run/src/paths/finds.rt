//! What pointers find in each form.

use super::DOCUMENT;
use sj_document::Document;
use sj_object::KeyMade;
use sj_path::{owned, pointer};
use sj_text_core::Writable;
use std::alloc::Global;
use std::test::Fail;

/// Pointers, and the compact prints of what they find.
const ROWS: [(&str, Option<&str>); 22] = [
    ("", Some(DOCUMENT)),
    ("/foo", Some(r#"["bar","baz"]"#)),
    ("/foo/0", Some(r#""bar""#)),
    ("/foo/1", Some(r#""baz""#)),
    ("/", Some("0")),
    ("/a~1b", Some("1")),
    ("/c%d", Some("2")),
    ("/e^f", Some("3")),
    ("/g|h", Some("4")),
    (r"/i\j", Some("5")),
    ("/k\"l", Some("6")),
    ("/ ", Some("7")),
    ("/m~0n", Some("8")),
    ("/foo/2", None),
    ("/foo/00", None),
    ("/foo/-", None),
    ("/foo/18446744073709551616", None),
    ("/foo/0/x", None),
    ("/foo/", None),
    ("/m~01n", None),
    ("/bar", None),
    ("//", None),
];

/// Whether that is found.
fn is_found<K: KeyMade>(
    alloc: Global,
    found: Option<&Document<K>>,
    want: Option<&str>,
) -> Result<bool, Fail> {
    match (found, want) {
        (Some(found), Some(want)) => Ok(found.encode(alloc)?.as_str() == want),
        (None, None) => Ok(true),
        _ => Ok(false),
    }
}

/// Whether that is found to be written.
fn is_lent<K: KeyMade>(
    alloc: Global,
    found: Option<&mut Document<K>>,
    want: Option<&str>,
) -> Result<bool, Fail> {
    match found {
        Some(found) => is_found(alloc, Some(found), want),
        None => Ok(want.is_none()),
    }
}

#[test]
fn owned_documents(rt: HostRuntime) -> Result<(), Fail> {
    let alloc = rt.alloc();
    let mut bytes = DOCUMENT.as_bytes().to_vec(alloc)?;
    let mut value = sj_owned::to_value(alloc, bytes.as_mut_slice())?;
    for &(text, want) in &ROWS {
        let pointer = pointer(alloc, text)?;
        let is_read = is_found(alloc, owned::find(&value, &pointer), want)?;
        let is_written = is_lent(alloc, owned::find_mut(&mut value, &pointer), want)?;
        assert!(rt; is_read && is_written, "{text}");
    }
    Ok(())
}
