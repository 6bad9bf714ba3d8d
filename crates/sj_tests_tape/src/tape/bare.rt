//! Tapes that are read bare, with no places and tags for look-ups, beside those of `to_tape`.

use sj_tape::{Buffers, Tape, to_bare_tape, to_bare_tape_with_buffers, to_tape};
use sj_text_core::ErrorKind;
use std::alloc::{AllocError, Global};

/// What the answer of a reading prints: the value, or the kind of the refusal.
fn printed(alloc: Global, answer: Result<Tape<'_>, ErrorKind>) -> Result<String, AllocError> {
    match answer {
        Ok(tape) => tape.as_value().to_string(alloc),
        Err(kind) => format!(in alloc; "{kind:?}"),
    }
}

/// Whether `to_tape`, and each call for bare tapes, answers that of the text.
fn are_answered(
    alloc: Global,
    text: &str,
    wanted: &str,
    buffers: &mut Buffers,
) -> Result<[bool; 3], AllocError> {
    let mut bytes = Vec::from_slice(alloc, text.as_bytes())?;
    let kept = printed(alloc, to_tape(alloc, bytes.as_mut_slice()))?;
    let mut bytes = Vec::from_slice(alloc, text.as_bytes())?;
    let bare = printed(alloc, to_bare_tape(alloc, bytes.as_mut_slice()))?;
    let mut bytes = Vec::from_slice(alloc, text.as_bytes())?;
    let answer = to_bare_tape_with_buffers(alloc, bytes.as_mut_slice(), buffers);
    let buffered = printed(alloc, answer)?;
    Ok([
        kept.as_str() == wanted,
        bare.as_str() == wanted,
        buffered.as_str() == wanted,
    ])
}

/// Texts, and what their readings answer.
const ANSWERS: [(&str, &str); 5] = [
    ("[1,{\"k\":\"\\u0041\\n\"}]", "[1,{\"k\":\"A\\n\"}]"),
    ("[1,{\"k\":2}", "Syntax"),
    ("[\"\\ud83d\"]", "LoneSurrogate"),
    ("{\"a\":1.5}", "Float"),
    (" null ", "null"),
];

#[test]
fn bare_tapes_are_answered_alike(rt: HostRuntime) -> Result<(), AllocError> {
    let mut buffers = Buffers::new(rt.alloc(), 4)?;
    for &(text, wanted) in &ANSWERS {
        let are = are_answered(rt.alloc(), text, wanted, &mut buffers)?;
        assert!(rt; are == [true; 3], "{text}: {are:?}");
    }
    Ok(())
}
