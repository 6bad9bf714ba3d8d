//! Another value at a pointer.

use sj_owned::{JsonError, Value};
use sj_path::{owned, pointer};
use std::alloc::Global;

pub fn set_port(alloc: Global, settings: &mut Value, port: u16) -> Result<bool, JsonError> {
    let path = pointer(alloc, "/server/port")?;
    Ok(owned::replace(settings, &path, Value::from(port)).is_ok())
}
