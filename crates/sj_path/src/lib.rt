//! JSON pointers (RFC 6901) into documents of each form.
//!
//! A pointer is a text: empty, or tokens each begun by a slash. On an object a token is a key, on an
//! array the position of an item. A pointer finds what its tokens find in the document's tree, one
//! after another, and nothing where one of them finds nothing.
//!
//! `owned`, `borrowed` and `lazy` have the calls of each form: `find`, `find_mut`, `replace`,
//! `update`, `insert`, `remove`, `push`, `pop`, `take`, and `set`, which makes the objects that are
//! missing.
//!
//! ```
//! let mut bytes = b"{\"foo\":[\"bar\",\"baz\"],\"m~n\":8}".to_vec(alloc)?;
//! let mut value = sj_owned::to_value(alloc, bytes.as_mut_slice())?;
//! let item = pointer(alloc, "/foo/1")?;
//! owned::find(&value, &item).is_some_and(|found| found.is_str()); // true
//! let key = pointer(alloc, "/m~0n")?;
//! owned::replace(&mut value, &key, owned::Value::from(9_u8)).is_ok(); // true
//! println!(rt; "{value}")?; // {"foo":["bar","baz"],"m~n":9}
//! pointer(alloc, "/a~2").err(); // Some(PointerError::BadTilde)
//! ```
#![tactic(auto)]

pub mod borrowed;
mod edits;
pub mod lazy;
mod lend;
mod made;
pub mod owned;
mod walk;
mod write;

pub use lend::LendPointed;
pub use made::OwnedText;
pub use sj_pointer::{Pointer, PointerError, laws, pointer, position};
pub use sj_text_core::JsonError;
