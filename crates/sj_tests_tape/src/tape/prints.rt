//! Prints of tapes.

use super::nested_arrays;
use sj_tape::{ErrorKind, Writable, to_tape};
use std::alloc::Global;
use std::test::Fail;

/// What the document of a text displays.
fn shown(alloc: Global, text: &str) -> Result<String, Fail> {
    let mut bytes = text.as_bytes().to_vec(alloc)?;
    let tape = to_tape(alloc, bytes.as_mut_slice())?;
    Ok(tape.as_value().to_string(alloc)?)
}

#[test]
fn displays(rt: HostRuntime) -> Result<(), Fail> {
    for &(text, wanted) in &[
        ("null", "null"),
        ("-7", "-7"),
        ("\"a\\\"b\"", "a\"b"),
        (
            "[1, {\"k\\n\": \"v\\u0001\"}]",
            "[1,{\"k\\n\":\"v\\u0001\"}]",
        ),
    ] {
        assert!(rt; shown(rt.alloc(), text)?.as_str() == wanted, "{text}");
    }
    Ok(())
}

/// Why the text is not read.
fn refusal(alloc: Global, text: &str) -> Result<Option<ErrorKind>, Fail> {
    let mut bytes = text.as_bytes().to_vec(alloc)?;
    Ok(to_tape(alloc, bytes.as_mut_slice()).err())
}

#[test]
fn prints_deeper_than_the_limit(rt: HostRuntime) -> Result<(), Fail> {
    let tape = nested_arrays(rt.alloc())?;
    let print = tape.as_value().encode(rt.alloc())?;
    let refusal = refusal(rt.alloc(), print.as_str())?;
    assert_eq!(rt; (print.len(), refusal), (2050, Some(ErrorKind::TooDeep)));
    Ok(())
}
