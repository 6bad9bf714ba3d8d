//! A member of a member, by keys and by a pointer.

use sj_owned::prelude::*;
use sj_owned::{JsonError, Value};
use sj_path::{owned, pointer};
use std::alloc::Global;

pub fn server_port(settings: &Value) -> Option<u16> {
    settings.get("server")?.get_u16("port")
}

pub fn port_at(alloc: Global, settings: &Value, path: &str) -> Result<Option<u16>, JsonError> {
    let path = pointer(alloc, path)?;
    Ok(owned::find(settings, &path).and_then(|found| found.as_u16()))
}
