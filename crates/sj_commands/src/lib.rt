//! Commands at documents, as values and as lines of an input. What they answer is said by `sj_run`,
//! which users take.
//!
//! An input is a document and, behind its first line `---`, command lines. A line is an array of a
//! name, a path and what the name takes; a path is an array of keys and places, or a pointer as a
//! text.
//!
//! ```
//! let mut line = b"[\"fits\",\"/a/0\",\"u8\"]".to_vec(alloc)?;
//! command_of(alloc, line.as_mut_slice())?; // Command::Fits, with the tokens a and 0 and Width::U8
//! ```
#![tactic(auto)]

mod command;
pub mod laws;
mod lines;
mod request;

pub use command::{Command, Step, Width, command_of, request_of};
pub use lines::{Cut, cut_at_mark};
pub use request::{Read, Request, Write};
pub use sj_lines::{line_len, text_len};
