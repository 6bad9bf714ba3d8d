//! One text for all documents that are the same.

use sj_canonical::Canonical;
use sj_owned::{JsonError, Value};
use std::alloc::Global;

pub fn text_to_sign(alloc: Global, document: &Value) -> Result<String, JsonError> {
    Ok(document.canonical(alloc)?)
}

pub fn bytes_to_sign(alloc: Global, sender: &str, document: &Value) -> Result<Vec<u8>, JsonError> {
    let mut out = sender.as_bytes().to_vec(alloc)?;
    out.push(b'\n')?;
    document.write_canonical(&mut out)?;
    Ok(out)
}
