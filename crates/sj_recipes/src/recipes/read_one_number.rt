//! A number of a known width.

use sj_owned::prelude::*;
use sj_owned::{TryTypeError, Value};

pub fn port_of(settings: &Value) -> Result<Option<u16>, TryTypeError> {
    settings.try_get_u16("port")
}
