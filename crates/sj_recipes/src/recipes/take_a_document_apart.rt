//! The texts of an array, or a text alone.

use sj_owned::{JsonError, Taken, Value};
use std::alloc::Global;

pub fn words(alloc: Global, value: Value) -> Result<Vec<String>, JsonError> {
    let mut words = Vec::new(alloc);
    match value.take_apart() {
        Taken::String(text) => words.push(text)?,
        Taken::Array(items) => {
            for item in Box::into_inner(items) {
                if let Some(text) = item.into_string() {
                    words.push(text)?;
                }
            }
        }
        Taken::Static(_node) => {}
        Taken::Object(_members) => {}
    }
    Ok(words)
}
