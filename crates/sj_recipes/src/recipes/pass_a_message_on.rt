//! A message that goes out as it came, or with a member more.

use sj_lazy::prelude::*;
use sj_lazy::{BorrowedValue, JsonError, Value, to_tape};
use std::alloc::Global;
use std::borrow::CowStr;

pub fn pass_on(alloc: Global, line: &str) -> Result<String, JsonError> {
    let mut bytes = line.as_bytes().to_vec(alloc)?;
    let tape = to_tape(alloc, &mut bytes)?;
    let mut message = Value::from_tape(tape.as_value());
    if message.get_str("topic") == Some("news") {
        message.insert(alloc, CowStr::Borrowed("seen"), BorrowedValue::from(true))?;
    }
    Ok(message.encode(alloc)?)
}
