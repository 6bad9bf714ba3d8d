//! A copy that is changed, beside a document that stays.

use sj_owned::{JsonError, Value};
use std::alloc::Global;

pub fn with_debug(alloc: Global, settings: &Value) -> Result<Value, JsonError> {
    let mut copy = settings.clone()?;
    copy.insert(String::from_str(alloc, "debug")?, Value::from(true))?;
    Ok(copy)
}
