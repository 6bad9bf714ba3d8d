//! Replies: what a command answers.

use sj_document::OwnedValue;
use sj_text_core::ValueType;

/// What a command answers.
#[derive(Debug, Drop, PartialEq, Eq)]
pub enum Reply {
    /// A kind.
    Kind(ValueType),
    /// A truth value.
    Truth(bool),
    /// A text.
    Text(String),
    /// How many there are.
    Count(usize),
    /// Keys in order.
    Keys(Vec<String>),
    /// A print.
    Printed(String),
    /// The value that was there.
    Old(OwnedValue),
    /// None was there.
    Nothing,
    /// It is done.
    Done,
    /// Nothing stands at the path.
    Missing,
    /// The value is no object.
    NotAnObject,
    /// The value is no array.
    NotAnArray,
    /// The value is no text.
    NotAString,
    /// The value is no array and no object.
    NoLength,
    /// It is no command.
    BadCommand,
}
