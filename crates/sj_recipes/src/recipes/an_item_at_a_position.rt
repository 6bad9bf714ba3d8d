//! Items between others.

use crate::fault::Fault;
use sj_owned::Value;
use std::alloc::Global;

pub fn insert_host(
    alloc: Global,
    settings: &mut Value,
    at: usize,
    host: &str,
) -> Result<(), Fault> {
    let host = Value::text(alloc, host)?;
    let Some(hosts) = settings.get_mut("hosts") else {
        return Err(Fault::NoHosts);
    };
    match hosts.array_len() {
        Some(len) if at <= len => hosts.insert_idx(at, host)?,
        Some(_) => return Err(Fault::NoPosition(at)),
        None => return Err(Fault::NoHosts),
    }
    Ok(())
}

pub fn remove_host(settings: &mut Value, at: usize) -> Result<Value, Fault> {
    let Some(hosts) = settings.get_mut("hosts") else {
        return Err(Fault::NoHosts);
    };
    match hosts.remove_idx(at) {
        Ok(host) => host.ok_or(Fault::NoPosition(at)),
        Err(_) => Err(Fault::NoHosts),
    }
}
