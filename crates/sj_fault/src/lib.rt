//! Where a text is refused.
//!
//! A text that was not read has a first byte with which no readable text goes on. `fault_at` finds
//! it, with its line and column, and asks for no memory; `checked_fault_at` answers the same and has
//! its answer confirmed by the reader. In `{"a": tru}` it is the brace, at line 1, column 10: `tru`
//! begins a readable text, and `tru}` begins none.
//!
//! The reader names what it meets first, and `fault_at` what stops first. In a text of two faults
//! these may be two kinds: bytes that are no UTF-8 the reader names wherever they stand.
#![tactic(auto)]

mod checked;
mod fault;
mod number;
mod place;
mod quoted;
mod scanner;
mod state;

pub use checked::checked_fault_at;
pub use fault::{Fault, fault_at};
pub use place::{column, line};
pub use sj_text_core::ErrorKind;
