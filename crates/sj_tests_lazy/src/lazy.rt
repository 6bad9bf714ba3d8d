mod comparisons;
mod forms;
mod makes;
mod reads;
mod scalars;
mod writes;

use sj_lazy::{Value, Writable};
use std::alloc::Global;
use std::test::Fail;

/// The keys of an object, each with a space behind it.
fn keys_of(alloc: Global, value: &Value) -> Result<String, Fail> {
    let mut keys = String::new(alloc);
    for key in value.as_object().ok_or("an object")?.keys() {
        keys.push_str(key)?;
        keys.push(' ')?;
    }
    Ok(keys)
}

/// Whether it is printed so.
fn prints(alloc: Global, value: &Value, print: &str) -> Result<bool, Fail> {
    Ok(value.encode(alloc)?.as_str() == print)
}

/// How many members an object has.
fn members(value: &Value) -> Option<usize> {
    Some(value.as_object()?.len())
}
