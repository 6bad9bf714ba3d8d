//! A text that is read, or the place where it is refused.

use anyhow::anyhow;
use sj_fault::{ErrorKind, Fault, checked_fault_at, fault_at};
use sj_owned::{Value, to_value};
use std::alloc::Global;

pub fn read_or_tell(alloc: Global, text: &str) -> anyhow::Result<Value> {
    let mut bytes = text.as_bytes().to_vec(alloc)?;
    let why = match to_value(alloc, &mut bytes) {
        Ok(document) => return Ok(document),
        Err(why) => why,
    };
    match fault_at(text.as_bytes()) {
        Some(fault) if why != ErrorKind::OutOfMemory => Err(anyhow!(fault)),
        _ => Err(anyhow!(why)),
    }
}

pub fn confirmed_place(alloc: Global, text: &str) -> anyhow::Result<Option<Fault>> {
    Ok(checked_fault_at(alloc, text.as_bytes())?)
}
