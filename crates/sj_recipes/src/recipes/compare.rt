//! Whether two values mean the same.

use sj_owned::prelude::*;
use sj_owned::{JsonError, Value};
use sj_tape::to_tape;
use std::alloc::Global;

pub fn is_same_text(alloc: Global, left: &str, right: &str) -> Result<bool, JsonError> {
    let mut left = left.as_bytes().to_vec(alloc)?;
    let mut right = right.as_bytes().to_vec(alloc)?;
    let left = to_tape(alloc, &mut left)?;
    let right = to_tape(alloc, &mut right)?;
    Ok(left.as_value().same_as(&right.as_value()))
}

pub fn has_topic(settings: &Value, name: &str) -> bool {
    match settings.get("topic") {
        Some(topic) => topic.same_as(&name),
        None => false,
    }
}
