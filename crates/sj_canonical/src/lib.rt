//! The canonical form of JSON values (RFC 8785), as text: one for all values that are the same.
//!
//! ```
//! let mut text = br#"{"b":[2,{"d":4,"c":3}],"a":1}"#.to_vec(alloc)?;
//! let value = to_value(alloc, &mut text)?;
//! value.canonical(alloc)?; // {"a":1,"b":[2,{"c":3,"d":4}]}
//! ```
//!
//! Members stand in the order of their keys' UTF-16 units (section 3.2.3), and nothing else is
//! written between tokens. Escapes are those of the compact print, which are the RFC's (section
//! 3.2.2.2). A number is printed as its digits, also past 2^53, where the RFC prints the nearest double.
//!
//! No value is copied. While an object is printed there is a list of its members in memory, and past
//! that one entry for each container that is open, so the stack has one size at whatever depth.
#![tactic(auto)]

mod canonical;
pub mod laws;
mod order;
mod walk;
mod writing;

pub use canonical::Canonical;
pub use sj_document::Document;
pub use sj_lazy::Value;
pub use sj_tape::Value as TapeValue;
pub use sj_text_core::{Repeats, WriteError};
pub use writing::{encode, write};
