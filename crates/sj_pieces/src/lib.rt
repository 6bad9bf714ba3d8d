//! An input in pieces of full lines, over any reader.
//!
//! A piece ends with a line feed, or where the input ends, so the lines of the pieces are the lines of
//! the input. Its memory is used again for the next; the longest line bounds it.
//!
//! ```
//! let mut pieces = Pieces::new(BufReader::new(alloc, rt.reader())?);
//! let mut piece = Vec::new(alloc);
//! for _ in 0..u64::MAX {
//!     if !pieces.next_piece(&mut piece)? {
//!         break;
//!     }
//!     for line in pieces.lines(&mut piece) {
//!         println!(rt; "line {}: {} bytes", line.number, line.text.len())?;
//!     }
//! }
//! ```
#![tactic(auto)]

mod counted;
mod pieces;

pub use counted::Pieces;
pub use pieces::next_piece;
pub use sj_lines::{Line, Lines, line_count};
