//! JSON Patch (RFC 6902) and JSON Merge Patch (RFC 7396) on documents of both forms.
//!
//! `operations_of` reads a patch document and `patch` does its operations; `diff` finds them and
//! `document_of` lists them.
#![tactic(auto)]

mod apply;
mod change;
mod differences;
mod diffing;
mod ends;
mod error;
mod gaps;
pub mod laws;
mod listing;
mod near;
mod operation;
mod patching;
mod reading;
mod removals;
mod reversal;
mod steps;
mod token;

pub use diffing::diff;
pub use listing::document_of;
pub use operation::Operation;
pub use patching::patch;
pub use reading::operations_of;
pub use sj_merge::{merge, merge_diff};
pub use sj_path::OwnedText;
pub use sj_text_core::{ItemFault, OperationFault, PatchFault, PatchReadFault};
