//! Commands: what a document is asked.

mod line;

pub use line::{command_of, request_of};
use sj_document::OwnedValue;

/// A step on the way to a value. One that finds nothing makes the reply `Missing`: a key that is
/// not there, or on a non-object; a place past the last item, or on a non-array; a token that is no
/// key of an object, names no item of an array, or is on neither.
#[derive(Debug, Drop, PartialEq, Eq)]
pub enum Step {
    /// To the value of a key.
    Key(String),
    /// To the item at a place, counted from 0.
    Idx(usize),
    /// As a pointer's token goes (RFC 6901, section 4): on an object to the value of a key, on an
    /// array to the item at the position that it names.
    Token(String),
}

/// An integer type, as whose value a number may fit.
#[derive(Clone, Copy, Debug, PartialEq, Eq)]
pub enum Width {
    I8,
    I16,
    I32,
    I64,
    I128,
    U8,
    U16,
    U32,
    U64,
    U128,
    Usize,
}

/// What a document is asked at a path. The last five are writes, also where they are refused or
/// their path finds nothing; the others leave the document.
#[derive(Debug, Drop)]
pub enum Command {
    /// The kind of the value; of a number, its carrier.
    Kind(Vec<Step>),
    /// Whether the value is a whole number in the type's range, whatever carries it.
    Fits(Vec<Step>, Width),
    /// The text.
    Str(Vec<Step>),
    /// How many items or members there are.
    Len(Vec<Step>),
    /// The keys of an object in order.
    Keys(Vec<Step>),
    /// Whether a member has the key; false on a non-object.
    Has(Vec<Step>, String),
    /// The compact print.
    Encode(Vec<Step>),
    /// The pretty print.
    EncodePp(Vec<Step>),
    /// What is no command.
    Bad,
    /// The value goes to the key of an object.
    Insert(Vec<Step>, String, OwnedValue),
    /// The key's member goes.
    Remove(Vec<Step>, String),
    /// The value goes behind the items of an array.
    Push(Vec<Step>, OwnedValue),
    /// The last item of an array goes.
    Pop(Vec<Step>),
    /// The value takes the place of the one that is there.
    Put(Vec<Step>, OwnedValue),
}
