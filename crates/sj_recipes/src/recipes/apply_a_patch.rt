//! A patch, all of it or nothing.

use sj_owned::{Value, from_str};
use sj_patch::{operations_of, patch};
use std::alloc::Global;

pub fn apply_patch(alloc: Global, settings: &mut Value, text: &str) -> anyhow::Result<()> {
    let operations = operations_of(alloc, from_str(alloc, text)?)?;
    patch(alloc, settings, &operations)?;
    Ok(())
}
