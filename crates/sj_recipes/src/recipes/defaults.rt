//! A text, or what stands for it.

use sj_owned::Value;

pub fn host_of(settings: &Value) -> &str {
    settings.get_str("host").unwrap_or("localhost")
}
