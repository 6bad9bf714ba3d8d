//! Documents for C, Rust and Python: a static library of calls at handles of documents and prints.
#![tactic(auto)]

mod crosses;
mod doc;
mod documents;
mod edit;
mod edits;
mod faults;
mod finds;
mod found;
mod held;
mod kept;
mod kept_text;
mod lent;
mod lines;
mod makes;
mod members;
mod merges;
mod parts;
mod patches;
mod peek;
mod prints;
mod same;
mod session;
mod status;
mod text;
mod unboxed;
mod words;
