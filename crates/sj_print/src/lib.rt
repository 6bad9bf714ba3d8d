//! Prints of JSON texts.
//!
//! Generators are written through call by call, compact or pretty, into bytes of their own or at
//! the end of a list of bytes. A call appends exactly the bytes that it names; where memory is
//! refused it leaves what was written.
//!
//! ```
//! let mut dump = DumpGenerator::new(alloc);
//! dump.write("[")?;
//! dump.write_string("a\n")?;
//! dump.write_min(", ", ",")?;
//! dump.write_static(StaticNode::I64(-1))?;
//! dump.write("]")?;
//! dump.consume() // ["a\n",-1]
//! ```
//!
//! `write` and `encode` print any value that can be taken apart level by level (`Parts`), by one
//! walk: once for the exact length, which is asked for at once, and once for the bytes. Where the
//! length is known another way, `write_counted` and `encode_counted` go over the value once.
//!
//! The walk calls itself for 128 levels and goes on with a pile in memory, so that its stack has one
//! size at whatever depth; where memory for the pile is refused, it calls itself for as many again.
//!
//! Both put a text between quotes by one loop, which copies runs of plain bytes; a text that is known
//! to need no escape (`PlainText`) is copied at once.
#![tactic(auto)]

mod formatter;
mod generator;
pub mod laws;
mod layout;
mod output;
mod parts;
mod plain_text;
mod print;
mod writing;

pub use formatter::display;
pub use generator::{
    BaseGenerator, DumpGenerator, PrettyGenerator, PrettyWriterGenerator, WriterGenerator,
};
pub use layout::Layout;
pub use output::{Count, Output};
pub use parts::{Level, Parts};
pub use plain_text::PlainText;
pub use writing::{count, encode, encode_counted, write, write_counted};
