//! Tests of maps, by their public calls.
//!
//! Tests stand in crates of their own because a crate with tests is proved twice.
#![tactic(auto)]

#[cfg(test)]
mod map;
