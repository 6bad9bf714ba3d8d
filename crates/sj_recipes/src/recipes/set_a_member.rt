//! A member that is set.

use sj_owned::{JsonError, Value};
use std::alloc::Global;

pub fn set_debug(alloc: Global, settings: &mut Value) -> Result<(), JsonError> {
    let key = String::from_str(alloc, "debug")?;
    settings.insert(key, Value::from(true))?;
    Ok(())
}
