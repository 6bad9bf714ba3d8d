//! Handles may go to other threads: this module asks for the proofs.

use crate::doc::Doc;
use crate::text::Text;

fn crosses<T: std::marker::Send>(_value: &T) {}

/// Both kinds of handles may go to another thread.
pub fn handles_cross(doc: &Doc, text: &Text) {
    crosses(doc);
    crosses(text);
}
