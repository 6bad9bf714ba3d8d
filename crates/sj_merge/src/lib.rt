//! JSON Merge Patch (RFC 7396) on documents of both forms: members of the patch go over those of the
//! target, a null takes one out, and what is no object replaces the target. `into_merged` takes the
//! target, and gives both up where memory is refused. `merge_diff` finds the patch that leads from one
//! document to another.
#![tactic(auto)]

mod difference;
mod in_place;
pub mod laws;
mod merging;

pub use difference::merge_diff;
pub use in_place::merge;
pub use merging::into_merged;
