//! The first byte with which no readable text goes on.

ghost use Rattle.std.specs.Prelude.{◌≡◌, ◌≤◌, length, take, IfSome};
ghost use Rattle.sj_fault.specs.Place.{line_of, column_of};

use crate::place::{column, line};
use crate::scanner::Scanner;
use sj_text_core::ErrorKind;
use thiserror::Error;

/// Where a text is refused, and why.
#[derive(Clone, Copy, Debug, PartialEq, Eq, Error)]
#[error("line {line}, column {column}: {why}")]
pub struct Fault {
    /// How many bytes stand in front of the place.
    pub at: usize,
    /// Its line, from 1 on: each line feed ends one.
    pub line: usize,
    /// Its column in bytes, from 1 on.
    pub column: usize,
    /// Why no readable text goes on so.
    pub why: ErrorKind,
}

/// Where the bytes stop being the beginning of a readable text; at their end, where they only end
/// too soon. None where they are a readable text. It takes no memory, and a step a byte.
pub fn fault_at(bytes: &[u8]) -> Option<Fault>
    ensures within { IfSome result (λ f. f.at ≤ length bytes.now) }
    ensures line { IfSome result (λ f. f.line ≡ line_of (take f.at bytes.now)) }
    ensures column { IfSome result (λ f. f.column ≡ column_of (take f.at bytes.now)) }
{
    let (at, why) = stop(bytes)?;
    let begin = &bytes[..at];
    Some(Fault {
        at,
        line: line(begin),
        column: column(begin),
        why,
    })
}

/// How many bytes are gone over before the scanner stops, and why it stops there.
fn stop(bytes: &[u8]) -> Option<(usize, ErrorKind)>
    ensures { IfSome result (λ s. s.0 ≤ length bytes.now) }
{
    let mut scanner = Scanner::new();
    for (at, byte) in bytes.iter().enumerate() {
        if let Err(why) = scanner.step(*byte) {
            return Some((at, why));
        }
    }
    if scanner.is_end() {
        None
    } else {
        Some((bytes.len(), ErrorKind::Syntax))
    }
}
