//! The lines of an input, and their texts.
//!
//! A line ends with a line feed, or where the input ends. Its text is the line without that, and
//! without one carriage return in front of it.
//!
//! ```
//! let mut input = b"[1]\r\n\n[2]".to_vec(alloc)?;
//! for line in Lines::new(&mut input) {
//!     println!(rt; "line {}: {} bytes", line.number, line.text.len())?; // line 1: 3 bytes, and line 3: 3 bytes
//! }
//! ```
//!
//! A line without a text is passed over, and counted.
#![tactic(auto)]

mod count;
pub mod laws;
mod length;
mod lines;

pub use count::line_count;
pub use length::{line_len, text_len};
pub use lines::{Line, Lines};
