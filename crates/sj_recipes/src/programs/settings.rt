//! A configuration: read, set, and printed for people.

use anyhow::anyhow;
use sj_fault::fault_at;
use sj_owned::prelude::*;
use sj_owned::{ErrorKind, JsonError, Value, to_value};
use std::alloc::Global;

/// The text with debugging on and with the server's port, printed for people. A text that is refused
/// is told by its name, line and column.
pub fn set(alloc: Global, name: &str, text: &str, port: u16) -> anyhow::Result<String> {
    let mut settings = read(alloc, name, text)?;
    settings.insert(String::from_str(alloc, "debug")?, Value::from(true))?;
    set_port(alloc, &mut settings, port)?;
    Ok(settings.encode_pp(alloc)?)
}

fn read(alloc: Global, name: &str, text: &str) -> anyhow::Result<Value> {
    let mut bytes = text.as_bytes().to_vec(alloc)?;
    let why = match to_value(alloc, &mut bytes) {
        Ok(settings) => return Ok(settings),
        Err(why) => why,
    };
    match fault_at(text.as_bytes()) {
        Some(fault) if why != ErrorKind::OutOfMemory => Err(anyhow!(
            "{name}:{}:{}: {}",
            fault.line,
            fault.column,
            fault.why
        )),
        _ => Err(anyhow!("{name}: {why}")),
    }
}

/// Sets the server's port; the server is made, where there is none.
fn set_port(alloc: Global, settings: &mut Value, port: u16) -> Result<(), JsonError> {
    if !settings.contains_key("server") {
        settings.insert(String::from_str(alloc, "server")?, Value::object(alloc)?)?;
    }
    if let Some(server) = settings.get_mut("server") {
        server.insert(String::from_str(alloc, "port")?, Value::from(port))?;
    }
    Ok(())
}
