//! The same, confirmed by the reader.

ghost use Rattle.std.specs.Prelude.{◌≡◌, ◌≤◌, length, take, true, IfOk, IfNone, IfSome};
ghost use Rattle.sj_text_core.specs.Grammar.{IsReadable};
ghost use Rattle.sj_fault.specs.Begin.{IsBegin};
ghost use Rattle.sj_fault.specs.Place.{line_of, column_of};

use crate::fault::{Fault, fault_at};
use crate::place::{column, line};
use crate::scanner::Scanner;
use sj_tape::to_bare_tape;
use sj_text_core::ErrorKind;
use std::alloc::{AllocError, Global};

/// Where the bytes stop being the beginning of a readable text, as `fault_at` answers; None exactly
/// where they are a readable text. The reader confirms that a readable text begins with the bytes in
/// front of the place: it takes memory for copies of them, and is refused where there is none.
pub fn checked_fault_at(alloc: Global, bytes: &[u8]) -> Result<Option<Fault>, AllocError>
    ensures none { IfOk result (λ o. IfNone o (IsReadable bytes.now)) }
    ensures refused { IfOk result (λ o. IfSome o (λ f. ¬ (IsReadable bytes.now))) }
    ensures begin { IfOk result (λ o. IfSome o (λ f. IsBegin (take f.at bytes.now))) }
    ensures within { IfOk result (λ o. IfSome o (λ f. f.at ≤ length bytes.now)) }
    ensures line { IfOk result (λ o. IfSome o (λ f. f.line ≡ line_of (take f.at bytes.now))) }
    ensures column { IfOk result (λ o. IfSome o (λ f. f.column ≡ column_of (take f.at bytes.now))) }
{
    let why = match refusal(alloc, bytes.to_vec(alloc)?)? {
        None => return Ok(None),
        Some(why) => why,
    };
    if let Some(fault) = fault_at(bytes) {
        if is_begin(alloc, &bytes[..fault.at])? {
            return Ok(Some(fault));
        }
    }
    Ok(Some(Fault {
        at: 0,
        line: line(&bytes[..0]),
        column: column(&bytes[..0]),
        why,
    }))
}

/// Why the text is refused, but for want of memory.
fn refusal(alloc: Global, mut text: Vec<u8>) -> Result<Option<ErrorKind>, AllocError>
    ensures none { IfOk result (λ o. IfNone o (IsReadable text.items)) }
    ensures some { IfOk result (λ o. IfSome o (λ e. ¬ (IsReadable text.items))) }
{
    match to_bare_tape(alloc, &mut text) {
        Ok(_) => Ok(None),
        Err(ErrorKind::OutOfMemory) => Err(AllocError),
        Err(ErrorKind::InvalidUtf8) => Ok(Some(ErrorKind::InvalidUtf8)),
        Err(why) => Ok(Some(why)),
    }
}

/// Whether the reader reads the bytes with an ending behind them.
fn is_begin(alloc: Global, begin: &[u8]) -> Result<bool, AllocError>
    ensures { IfOk result (λ b. b ≡ true → IsBegin begin.now) }
{
    let mut scanner = Scanner::new();
    for byte in begin {
        if scanner.step(*byte).is_err() {
            return Ok(false);
        }
    }
    let mut ending = Vec::new(alloc);
    scanner.push_ending(&mut ending)?;
    let mut text = begin.to_vec(alloc)?;
    text.extend_from_slice(&ending)?;
    Ok(refusal(alloc, text)?.is_none())
}
