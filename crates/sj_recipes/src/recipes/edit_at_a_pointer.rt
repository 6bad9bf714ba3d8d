//! A member of what a pointer finds.

use sj_owned::{JsonError, Value};
use sj_path::{owned, pointer};
use std::alloc::Global;

pub fn set_in_server(
    alloc: Global,
    settings: &mut Value,
    key: &str,
    text: &str,
) -> Result<(), JsonError> {
    let key = String::from_str(alloc, key)?;
    let value = Value::text(alloc, text)?;
    owned::insert(settings, &pointer(alloc, "/server")?, key, value)?;
    Ok(())
}
