//! The operations of a patch.

use sj_document::Document;
use sj_object::KeyText;
use sj_pointer::Pointer;

/// An operation (RFC 6902, section 4).
#[derive(Debug, Drop)]
pub enum Operation<T: KeyText> {
    /// Puts the value there: a new member, another value of one, or an item in front of the one there.
    Add { path: Pointer, value: Document<T> },
    /// Takes what stands there out.
    Remove { path: Pointer },
    /// Puts the value in the place of what stands there.
    Replace { path: Pointer, value: Document<T> },
    /// Takes what stands at `from` out, and puts it to `path`.
    Move { from: Pointer, path: Pointer },
    /// Puts a copy of what stands at `from` to `path`.
    Copy { from: Pointer, path: Pointer },
    /// Asks that what stands there is the same as the value.
    Test { path: Pointer, value: Document<T> },
}
