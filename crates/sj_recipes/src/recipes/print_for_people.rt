//! A print of many lines.

use sj_owned::prelude::*;
use sj_owned::{JsonError, Value};
use std::alloc::Global;

pub fn to_pretty(alloc: Global, value: &Value) -> Result<String, JsonError> {
    Ok(value.encode_pp(alloc)?)
}
