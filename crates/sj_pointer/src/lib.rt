//! JSON pointers (RFC 6901) as texts, whatever they lead into. Users take `sj_path`, which offers all of
//! this again.
//!
//! A pointer is a text: empty, or tokens each begun by a slash. On an object a token is a key, on an
//! array the position of an item.
//!
//! ```
//! let key = pointer(alloc, "/a~1b")?;
//! key.tokens(); // ["a/b"]
//! pointer(alloc, "/a~2").err(); // Some(PointerError::BadTilde)
//! println!(rt; "{key}")?; // /a~1b
//! position("90"); // Some(90)
//! position("01"); // None
//! ```
#![tactic(auto)]

mod ends;
pub mod laws;
mod parse;
mod positions;
mod show;
mod tokens;

pub use parse::pointer;
pub use positions::position;
pub use sj_text_core::PointerError;
pub use tokens::Pointer;
