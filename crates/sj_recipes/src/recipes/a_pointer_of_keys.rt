//! Pointers that are put together.

use sj_owned::prelude::*;
use sj_owned::{JsonError, Value};
use sj_path::{Pointer, owned};
use std::alloc::Global;

/// The port of a server by its name, whatever characters the name has.
pub fn port_of(alloc: Global, settings: &Value, server: &str) -> Result<Option<u16>, JsonError> {
    let mut place = Pointer::from_tokens(Vec::new(alloc));
    for token in ["servers", server, "port"] {
        place.push(String::from_str(alloc, token)?)?;
    }
    Ok(owned::find(settings, &place).and_then(|found| found.as_u16()))
}
