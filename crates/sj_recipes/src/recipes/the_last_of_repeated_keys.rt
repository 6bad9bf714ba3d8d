//! Of each key the last member.

use sj_owned::{JsonError, Repeats, Value, to_value_repeats};
use std::alloc::Global;

pub fn read_last(alloc: Global, text: &str) -> Result<Value, JsonError> {
    let mut bytes = text.as_bytes().to_vec(alloc)?;
    Ok(to_value_repeats(alloc, &mut bytes, Repeats::Last)?)
}
