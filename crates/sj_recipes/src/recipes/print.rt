//! Compact prints.

use sj_owned::prelude::*;
use sj_owned::{JsonError, Value};
use std::alloc::Global;

pub fn to_line(alloc: Global, value: &Value) -> Result<String, JsonError> {
    Ok(value.encode(alloc)?)
}

pub fn log(alloc: Global, value: &Value) -> Result<Vec<u8>, JsonError> {
    let mut out = b"settings: ".to_vec(alloc)?;
    value.write(&mut out)?;
    out.push(b'\n')?;
    Ok(out)
}
