use sj_borrowed::to_value;
use std::test::Fail;

mod documents;
mod known_keys;

pub use sj_borrowed::Value;

/// The document of a text.
pub fn parsed<'v>(bytes: &'v mut Vec<u8>) -> Result<Value<'v>, Fail> {
    Ok(to_value(*bytes.allocator(), bytes.as_mut_slice())?)
}
