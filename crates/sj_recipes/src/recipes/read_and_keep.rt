//! A text that is read, and a document that is kept.

use sj_owned::{JsonError, Value, from_str};
use std::alloc::Global;

pub fn read_settings(alloc: Global, text: &str) -> Result<Value, JsonError> {
    Ok(from_str(alloc, text)?)
}
