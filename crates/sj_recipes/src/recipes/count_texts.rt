//! Texts that are counted.

use sj_object::{HashMap, ObjectHasher};
use sj_owned::prelude::*;
use sj_owned::{JsonError, Value};
use std::alloc::Global;

pub fn topics(
    alloc: Global,
    messages: &[Value],
) -> Result<HashMap<String, u64, ObjectHasher>, JsonError> {
    let mut counts = HashMap::new(alloc);
    for message in messages {
        let topic = String::from_str(alloc, message.get_str("topic").unwrap_or("none"))?;
        let count: &mut u64 = counts.get_or_insert_with(topic, || 0)?;
        *count = count.saturating_add(1);
    }
    Ok(counts)
}
