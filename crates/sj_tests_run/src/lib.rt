//! Tests of pointers, of lines, of runs and of sessions, by their public calls.
#![tactic(auto)]

#[cfg(test)]
mod lines;
#[cfg(test)]
mod paths;
#[cfg(test)]
mod sessions;
