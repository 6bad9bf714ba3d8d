//! Texts that stay as they are, read as documents of copies.

use sj_text_core::{ErrorKind, Writable};
use std::alloc::Global;
use std::test::Fail;

/// Texts, and what is printed of their documents, or why they are refused.
const TEXTS: [(&str, Result<&str, ErrorKind>); 6] = [
    (
        r#" {"q\"k":"a\/b\u0041","n":-5} "#,
        Ok(r#"{"q\"k":"a/bA","n":-5}"#),
    ),
    (r#"{"a":1,"a":2}"#, Ok(r#"{"a":1}"#)),
    ("[]", Ok("[]")),
    ("[1", Err(ErrorKind::Syntax)),
    ("", Err(ErrorKind::Syntax)),
    (r#""\ud800""#, Err(ErrorKind::LoneSurrogate)),
];

/// Whether the answer is printed so, or is that refusal.
fn is<V: Writable>(
    alloc: Global,
    answer: &Result<V, ErrorKind>,
    want: Result<&str, ErrorKind>,
) -> Result<bool, Fail> {
    match answer {
        Ok(value) => {
            let print = value.encode(alloc)?;
            Ok(want.is_ok_and(|want| print.as_str() == want))
        }
        Err(kind) => Ok(want.is_err_and(|want| *kind == want)),
    }
}

/// Whether the text is read so by both calls, owned and borrowed. What the room had before is never
/// read.
fn is_read(
    alloc: Global,
    text: &str,
    room: &mut Vec<u8>,
    want: Result<&str, ErrorKind>,
) -> Result<[bool; 4], Fail> {
    let of_bytes = is(
        alloc,
        &sj_borrowed::from_slice(alloc, text.as_bytes(), room),
        want,
    )?;
    let of_text = is(alloc, &sj_borrowed::from_str(alloc, text, room), want)?;
    Ok([
        of_bytes,
        of_text,
        is(alloc, &sj_owned::from_slice(alloc, text.as_bytes()), want)?,
        is(alloc, &sj_owned::from_str(alloc, text), want)?,
    ])
}

#[test]
fn texts_are_read(rt: HostRuntime) -> Result<(), Fail> {
    let alloc = rt.alloc();
    let mut room = b"{\"a\":[true]}".to_vec(alloc)?;
    for &(text, want) in &TEXTS {
        let told = is_read(alloc, text, &mut room, want)?;
        assert_eq!(rt; told, [true; 4], "{text}");
    }
    Ok(())
}

#[test]
fn bytes_that_are_no_text_are_refused(rt: HostRuntime) {
    let alloc = rt.alloc();
    let mut room = Vec::new(alloc);
    let bytes = b"\"\xff\"";
    let told = [
        sj_owned::from_slice(alloc, bytes).err(),
        sj_borrowed::from_slice(alloc, bytes, &mut room).err(),
    ];
    assert_eq!(rt; told, [Some(ErrorKind::InvalidUtf8); 2]);
}
