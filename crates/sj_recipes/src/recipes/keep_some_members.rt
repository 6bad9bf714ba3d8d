//! Members that a test keeps.

use sj_owned::Value;
use sj_owned::prelude::*;

pub fn drop_nulls(settings: &mut Value) {
    if let Some(members) = settings.as_object_mut() {
        members.retain(|_, value| !value.is_null());
    }
}
