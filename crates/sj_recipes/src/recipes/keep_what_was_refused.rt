//! A value that a refusal hands back.

use sj_owned::Value;

pub fn set_or_keep(settings: &mut Value, value: Value) -> Result<(), Value> {
    match settings.push(value) {
        Ok(()) => Ok(()),
        Err(refused) => Err(refused.value),
    }
}
