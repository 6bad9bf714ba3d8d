//! A member that is taken out.

use sj_owned::{AccessError, Value};

pub fn remove_topic(settings: &mut Value) -> Result<Option<Value>, AccessError> {
    settings.remove("topic")
}
