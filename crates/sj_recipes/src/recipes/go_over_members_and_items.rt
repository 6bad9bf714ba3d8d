//! Members of an object and items of an array, in order.

use sj_owned::Value;

pub fn tell_parts(rt: &impl Print, settings: &Value) -> anyhow::Result<()> {
    if let Some(members) = settings.as_object() {
        for (key, value) in members.iter() {
            println!(rt; "{key}: {value}")?;
        }
    }
    if let Some(items) = settings.as_array() {
        for item in items.iter() {
            println!(rt; "{item}")?;
        }
    }
    Ok(())
}
