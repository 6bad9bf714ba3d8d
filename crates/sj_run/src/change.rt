//! Writes at a path, and what they answer.

mod edit;
mod lazy;
mod reply;
mod steps;
mod texts;
mod value;

pub(crate) use edit::edit_at;
pub(crate) use lazy::change_lazy;
use sj_document::Document;
use sj_object::KeyText;
pub(crate) use texts::Texts;

/// What a write answers.
#[derive(Drop)]
pub(crate) enum Changed<T: KeyText> {
    /// The value that was there.
    Old(Document<T>),
    /// None was there.
    Nothing,
    /// It is done.
    Done,
    /// Nothing stands at the path.
    Missing,
    /// The value is no object, and stays as it was.
    NotAnObject,
    /// The value is no array, and stays as it was.
    NotAnArray,
}
