//! A value at a path, each of whose keys is there afterwards.

use sj_owned::{JsonError, Value};
use sj_path::{owned, pointer};
use std::alloc::Global;

pub fn set_at(
    alloc: Global,
    settings: &mut Value,
    path: &str,
    value: Value,
) -> Result<(), JsonError> {
    owned::set(settings, alloc, &pointer(alloc, path)?, value)?;
    Ok(())
}
