//! Commands at documents, and sessions of them over bytes. Whatever holds a document, the replies
//! are those that the same commands get on one plain tree.
//!
//! ```
//! // the bytes: {"a":1}, a line ---, and the lines ["insert",[],"b",[true]] and ["encode",[]];
//! // the form Form::Owned, the way Way::ByText
//! let mut out = b"> ".to_vec(alloc)?;
//! session(alloc, form, way, bytes.as_mut_slice(), &mut out); // Ok
//! // behind what it had, `out` has none, and on the next line {"a":1,"b":[true]}
//! ```
#![tactic(auto)]

mod change;
mod document;
mod find;
mod json_error;
pub mod laws;
mod lookup;
mod reply;
mod root;
mod runs;
mod sessions;

pub use document::{BorrowedDoc, Document, LazyDoc, OwnedDoc, Way};
pub use reply::Reply;
pub use runs::{RunFault, Why, run};
pub use sessions::{Form, SessionFault, answer_owned, session, session_repeats};
pub use sj_commands::{Command, Step, Width};
pub use sj_document::{BorrowedValue, OwnedValue};
pub use sj_text_core::{ErrorKind, JsonError, ValueType};
