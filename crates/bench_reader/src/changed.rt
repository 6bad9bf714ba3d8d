//! Merges into a document, and sessions of short commands at one.

use sj_merge::{into_merged, merge};
use sj_owned::Value;
use sj_run::{Form, Way, session};
use sj_text_core::{JsonError, Writable};
use std::alloc::Global;

const MESSAGE: &str =
    r#"{"at":1719812345,"topic":"news","host":"web-17","text":"seven bridges at the harbour","user":{"id":90210,"name":"lamp","roles":["admin","guest"]},"counts":[3,1,4,1,5]}"#;

const PATCH: &str =
    r#"{"seen":true,"text":null,"route":{"to":"archive","at":1719830000},"user":{"name":"paper"}}"#;

/// Short commands at the message, which leave it as it was.
const COMMANDS: [&str; 8] = [
    r#"["len",["counts"]]"#,
    r#"["has",["user"],"name"]"#,
    r#"["str",["user","name"]]"#,
    r#"["push",["counts"],9]"#,
    r#"["pop",["counts"]]"#,
    r#"["insert",["user"],"note",[1,2]]"#,
    r#"["remove",["user"],"note"]"#,
    r#"["encode",["user"]]"#,
];

/// What becomes of a target.
#[derive(Clone, Copy, Debug)]
pub enum Merge {
    /// It is kept until the merge is done.
    Kept,
    /// It is given to the merge.
    Taken,
}

fn document_of(alloc: Global, text: &str) -> Result<Value, JsonError> {
    let mut bytes = Vec::with_capacity(alloc, text.len())?;
    bytes.extend_from_slice(text.as_bytes())?;
    Ok(sj_owned::to_value(alloc, bytes.as_mut_slice())?)
}

/// Merges a copy of the patch so often, each time into what the merge before made; the bytes of the
/// print.
pub fn merged(alloc: Global, target: Merge, count: usize) -> Result<usize, JsonError> {
    let patch = document_of(alloc, PATCH)?;
    let mut document = document_of(alloc, MESSAGE)?;
    for _ in 0..count {
        match target {
            Merge::Kept => merge(alloc, &mut document, patch.clone()?)?,
            Merge::Taken => document = into_merged(alloc, document, patch.clone()?)?,
        }
    }
    Ok(document.encode(alloc)?.len())
}

/// Gives the message so many commands in one session; the bytes of the replies.
pub fn commanded(alloc: Global, form: Form, count: usize) -> Result<usize, JsonError> {
    let mut input = Vec::new(alloc);
    input.extend_from_slice(MESSAGE.as_bytes())?;
    input.extend_from_slice(b"\n---\n")?;
    for i in 0..count {
        input.extend_from_slice(COMMANDS[i % 8].as_bytes())?;
        input.extend_from_slice(b"\n")?;
    }
    let mut replies = Vec::new(alloc);
    session(alloc, form, Way::ByText, input.as_mut_slice(), &mut replies)?;
    Ok(replies.len())
}
