use sj_owned::to_value;
use std::alloc::Global;
use std::test::Fail;

mod documents;

pub use sj_owned::Value;

/// The text, owned.
pub fn owned(alloc: Global, text: &str) -> Result<String, Fail> {
    Ok(String::from_str(alloc, text)?)
}

/// The document of a text.
pub fn parsed(alloc: Global, text: &str) -> Result<Value, Fail> {
    let mut bytes = text.as_bytes().to_vec(alloc)?;
    Ok(to_value(alloc, bytes.as_mut_slice())?)
}
