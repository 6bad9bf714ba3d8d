//! Tests of streams and documents, by their public calls.
//!
//! Tests stand in crates of their own because a crate with tests is proved twice.
#![tactic(auto)]

#[cfg(test)]
mod documents;
pub mod plain;
#[cfg(test)]
mod streams;
