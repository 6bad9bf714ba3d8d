//! One document over another, and what leads from one to the other (RFC 7396).

use sj_merge::{merge, merge_diff};
use sj_owned::{JsonError, Value, from_str};
use std::alloc::Global;

pub fn put_over(alloc: Global, defaults: &mut Value, site: &str) -> Result<(), JsonError> {
    merge(alloc, defaults, from_str(alloc, site)?)?;
    Ok(())
}

pub fn difference(alloc: Global, from: &Value, to: &Value) -> Result<Option<Value>, JsonError> {
    Ok(merge_diff(alloc, from, to)?)
}
