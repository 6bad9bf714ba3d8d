//! An item behind the others.

use crate::fault::Fault;
use sj_owned::Value;
use std::alloc::Global;

pub fn add_host(alloc: Global, settings: &mut Value, host: &str) -> Result<(), Fault> {
    let host = Value::text(alloc, host)?;
    match settings.get_mut("hosts") {
        Some(hosts) => hosts.push(host)?,
        None => return Err(Fault::NoHosts),
    }
    Ok(())
}
