//! Three small programs, made of the calls that docs/COOKBOOK.md shows.

pub mod edits;
pub mod filter;
pub mod settings;
