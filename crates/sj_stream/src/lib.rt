//! Streams of documents: an input of many lines, each of which is one text (newline-delimited JSON).
//!
//! An empty line is passed over. A line that is not read is answered by its number and why, and the
//! next one is read all the same; a line of spaces alone is not read. The memory of one document
//! serves the next.
//!
//! ```
//! let mut input = b"{\"id\":1}\n{\"id\":}\n{\"id\":3}\n".to_vec(alloc)?;
//! let mut stream = Stream::new(alloc, &mut input);
//! while let Some(step) = stream.advance() {
//!     match step {
//!         Ok(line) => {
//!             let id = stream.value(Repeats::First).and_then(|document| document.get_u64("id"));
//!             println!(rt; "{line}: {id:?}")?; // 1: Some(1), and 3: Some(3)
//!         }
//!         Err(unread) => println!(rt; "{unread}")?, // line 2: syntax error
//!     }
//! }
//! ```
#![tactic(auto)]

mod line_reader;
mod stream;
mod unread;

pub use line_reader::LineReader;
pub use sj_lines::{Line, Lines};
pub use sj_tape::{ErrorKind, Repeats, Value, ValueObjectAccessAsScalar};
pub use stream::{Stream, unread_lines};
pub use unread::{Place, Unread};
