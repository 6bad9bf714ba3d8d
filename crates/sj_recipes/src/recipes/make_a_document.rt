//! Documents of values.

use sj_owned::prelude::*;
use sj_owned::{JsonError, Value};
use std::alloc::Global;

pub fn ports(alloc: Global, ports: &[u16]) -> Result<Value, JsonError> {
    Ok(Value::try_make(alloc, ports.to_vec(alloc)?)?)
}

pub fn counts(alloc: Global, counts: Vec<(String, u64)>) -> Result<Value, JsonError> {
    let pairs = counts
        .into_iter()
        .map(|(word, count)| (word, Value::from(count)));
    Ok(Value::try_from_pairs(alloc, pairs)?)
}
