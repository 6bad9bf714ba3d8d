//! What is wrong with a shape.

use thiserror::Error;

/// What the shape, a demand or a member of one has to be.
#[derive(Clone, Copy, Debug, PartialEq, Eq, Error)]
pub enum Flaw {
    #[error("an object")]
    NoObject,
    #[error("a 0 or a 1 behind each tilde of a pointer")]
    BadTilde,
    #[error("no member but kind, required, min, max, min_length, max_length, one_of and other_keys")]
    Unknown,
    #[error("\"null\", \"boolean\", \"integer\", \"string\", \"array\" or \"object\"")]
    NoKind,
    #[error("true or false")]
    NoTruth,
    #[error("a whole number from -2^127 to 2^127-1")]
    NoNumber,
    #[error("a whole number from 0 to 2^64-1")]
    NoLength,
    #[error("an array of values")]
    NoChoices,
    #[error("no less than \"min\"")]
    BelowMin,
    #[error("no less than \"min_length\"")]
    BelowMinLength,
}
