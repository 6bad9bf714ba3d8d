//! What is wrong with a file of rules.

use sj_pointer::Pointer;
use thiserror::Error;

/// What a route, or a member of one, has to be.
#[derive(Debug, Drop, PartialEq, Eq, Error)]
pub enum Flaw {
    #[error("an object")]
    NoObject,
    #[error("\"output\", the name of a file or \"-\"")]
    NoOutput,
    #[error("no such member")]
    Unknown,
    #[error("a string")]
    NoString,
    #[error("a pointer, which is empty or begins with a slash")]
    NoSlash,
    #[error("a 0 or a 1 behind each tilde")]
    BadTilde,
    #[error("\"null\", \"bool\", \"number\", \"string\", \"array\" or \"object\"")]
    NoKind,
    #[error("\"unmet\" or \"unread\"")]
    NoTakes,
    /// Two members that can't stand together: the other one.
    #[error("no \"{0}\" beside it")]
    Beside(&'static str),
    #[error("none for lines that are not read")]
    MergeUnread,
    #[error("another output than the file of rules")]
    IsRules,
    #[error("another output than the file of standard input")]
    IsInput,
    #[error("another output than that of a route before it")]
    IsOutput,
}

/// Why a file of rules has no routes.
#[derive(Debug, Drop, PartialEq, Eq, Error)]
pub enum RuleFault {
    #[error("expected an array of routes")]
    NoRoutes,
    /// The route at that place is none.
    #[error("at /{0}: expected {1}")]
    Route(usize, Flaw),
    /// Its member at that pointer is not what it has to be.
    #[error("at /{0}{1}: expected {2}")]
    Member(usize, Pointer, Flaw),
    #[error("out of memory")]
    OutOfMemory,
}
