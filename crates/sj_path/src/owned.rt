//! Pointers into documents that own their texts.

pub use crate::edits::{insert, pop, push, remove, take};
pub use crate::made::set;
pub use crate::walk::{find, find_mut};
pub use crate::write::{replace, update, update_in};
pub use sj_owned::Value;
