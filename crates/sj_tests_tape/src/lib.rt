//! Tests of scalars and faults, generators and tapes, by their public calls.
//!
//! Tests stand in crates of their own because a crate with tests is proved twice.
#![tactic(auto)]

#[cfg(test)]
mod generators;
#[cfg(test)]
mod tape;
#[cfg(test)]
mod text_core;
