//! Documents of what stands in the source.

use sj_owned::{JsonError, Value};
use std::alloc::Global;

pub fn settings(alloc: Global) -> Result<Value, JsonError> {
    let hosts = Value::array_of(alloc, [Value::text(alloc, "a")?, Value::text(alloc, "b")?])?;
    let settings = vec![in alloc;
        ("name", Value::text(alloc, "kiosk")?),
        ("port", Value::from(8080_u16)),
        ("topic", Value::null()),
        ("hosts", hosts),
    ]?;
    Ok(Value::object_of(alloc, settings)?)
}
