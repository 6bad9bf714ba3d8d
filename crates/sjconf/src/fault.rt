//! Why nothing was printed.

use crate::setting::SettingFault;
use sj_fault::Fault as Place;
use sj_owned::prelude::*;
use sj_owned::{ErrorKind, Value, WriteError};
use std::alloc::{AllocError, AllocFailed, Global};
use std::io;
use thiserror::Error;

/// Why nothing was printed, as it is told on standard error.
#[derive(Debug, Drop, Error)]
pub enum Fault {
    #[error("a word is not UTF-8")]
    NoText,
    #[error("standard input is one file alone")]
    InputTwice,
    /// What `--set` was given is no setting, or leads nowhere.
    #[error("--set {0}: {1}")]
    Setting(String, SettingFault),
    #[error("--get {0}: a pointer has a 0 or a 1 behind each tilde")]
    NoPlace(String),
    #[error("--get {0}: nothing stands there")]
    Nothing(String),
    /// The file of that path is no JSON text, by line and column, both counted from 1.
    #[error("{0}: line {1}, column {2}: {3}")]
    NoJson(String, usize, usize, ErrorKind),
    /// Where a file is no shape, and what was expected there.
    #[error("{0}")]
    NoShape(String),
    /// What of the shape is not met, a line each.
    #[error("{0}")]
    Unmet(String),
    /// The file of that path was not read.
    #[error("{0}: cannot be read: {1}")]
    Unread(String, io::Error),
    #[error("standard output: cannot be written: {0}")]
    Unwritten(io::Error),
    #[error("the result is too long")]
    TooLong,
    #[error("out of memory")]
    OutOfMemory,
}

/// A word or a pointer as it is told, on one line: as a JSON string where it has a control character.
pub fn one_line(alloc: Global, word: &str) -> Result<String, WriteError> {
    let word = String::from_str(alloc, word)?;
    if word.bytes().any(|byte| byte < b' ') {
        return Value::from(word).encode(alloc);
    }
    Ok(word)
}

/// The name of a file as it is told.
pub fn file_name(alloc: Global, path: &str) -> Result<String, WriteError> {
    one_line(alloc, if path == "-" { "standard input" } else { path })
}

impl Fault {
    /// The exit status.
    pub fn status(&self) -> u8 {
        match self {
            Fault::Nothing(_) => 1,
            Fault::Setting(_, SettingFault::LeadsNowhere) => 6,
            Fault::NoText | Fault::InputTwice | Fault::Setting(..) | Fault::NoPlace(_) => 2,
            Fault::NoJson(..) | Fault::NoShape(_) => 3,
            Fault::OutOfMemory | Fault::TooLong => 4,
            Fault::Unread(..) | Fault::Unwritten(_) => 5,
            Fault::Unmet(_) => 7,
        }
    }

    /// The fault of a file that is no JSON text: at the place and for its reason, where one was found.
    pub fn no_json(
        alloc: Global,
        path: &str,
        place: Option<Place>,
        why: ErrorKind,
    ) -> Result<Fault, WriteError> {
        let (line, column, why) = place.map_or(
            (1, 1, why),
            |place| (place.line, place.column, place.why),
        );
        Ok(Fault::NoJson(file_name(alloc, path)?, line, column, why))
    }

    /// The fault of a word that `--set` was given.
    pub fn setting(alloc: Global, word: &str, why: SettingFault) -> Result<Fault, WriteError> {
        match why {
            SettingFault::OutOfMemory => Ok(Fault::OutOfMemory),
            _ => Ok(Fault::Setting(one_line(alloc, word)?, why)),
        }
    }

    /// The fault of a file that was not read.
    pub fn unread(alloc: Global, path: &str, why: io::Error) -> Result<Fault, WriteError> {
        match why.kind() {
            io::ErrorKind::OutOfMemory => Ok(Fault::OutOfMemory),
            _ => Ok(Fault::Unread(file_name(alloc, path)?, why)),
        }
    }

    /// The fault of a result that was not written.
    pub fn unwritten(why: io::Error) -> Fault {
        match why.kind() {
            io::ErrorKind::OutOfMemory => Fault::OutOfMemory,
            _ => Fault::Unwritten(why),
        }
    }
}

impl From<AllocError> for Fault {
    fn from(_error: AllocError) -> Fault {
        Fault::OutOfMemory
    }
}

impl<T: Drop> From<AllocFailed<T>> for Fault {
    fn from(_error: AllocFailed<T>) -> Fault {
        Fault::OutOfMemory
    }
}

impl From<WriteError> for Fault {
    fn from(error: WriteError) -> Fault {
        match error {
            WriteError::TooLong => Fault::TooLong,
            WriteError::OutOfMemory => Fault::OutOfMemory,
        }
    }
}
