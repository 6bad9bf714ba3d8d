//! Tests of owned and of borrowed documents, and of known keys, by their public calls.
#![tactic(auto)]

#[cfg(test)]
mod borrowed;
#[cfg(test)]
mod forms;
#[cfg(test)]
mod owned;
