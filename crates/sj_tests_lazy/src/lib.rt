//! Tests of lazy values, by their public calls.
#![tactic(auto)]

#[cfg(test)]
mod lazy;
