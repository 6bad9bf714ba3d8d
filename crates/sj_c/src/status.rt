//! What calls answer, and the choice of a key's member.

ghost use Rattle.std.specs.Prelude.{◌≡◌, ◌≢◌, ◌⊎◌, ◌↔◌, ◌≤◌};
ghost use Rattle.sj_c.specs.Refusals.{access_status};
ghost use Rattle.sj_c.specs.Statuses.{form_of, kind_status, session_status};
ghost use Rattle.sj_c.specs.Meant.{choice};

use sj_run::{Form, SessionFault, Why};
use sj_text_core::{AccessError, ErrorKind, Repeats, WriteError};

/// Done.
pub const OK: u32 = 0;
/// A request for memory was refused.
pub const OUT_OF_MEMORY: u32 = 1;
/// The print would pass 2^64-1 bytes.
pub const TOO_LONG: u32 = 2;
/// The handle has no document, or no print.
pub const EMPTY: u32 = 3;
/// Nothing stands at the pointer.
pub const MISSING: u32 = 4;
/// The value is no object.
pub const NOT_AN_OBJECT: u32 = 5;
/// The value is no array.
pub const NOT_AN_ARRAY: u32 = 6;
/// The text is no pointer.
pub const BAD_POINTER: u32 = 7;
/// A key, a pointer or a text is not UTF-8.
pub const BAD_ARGUMENT: u32 = 8;
/// There is no such form.
pub const USAGE: u32 = 9;
/// No merge patch leads from one document to the other.
pub const NO_MERGE_PATCH: u32 = 10;
/// The bytes are not UTF-8.
pub const INVALID_UTF8: u32 = 16;
/// A byte can't continue the text.
pub const SYNTAX: u32 = 17;
/// An escape is half of a surrogate pair.
pub const LONE_SURROGATE: u32 = 18;
/// A number has a fraction or an exponent.
pub const FLOAT: u32 = 19;
/// A number is not from -2^127 to 2^128-1.
pub const NUMBER_TOO_LARGE: u32 = 20;
/// More arrays and objects stand inside one another than the call takes.
pub const TOO_DEEP: u32 = 21;

/// The status of a refused reading.
pub fn code_of_kind(kind: ErrorKind) -> u32
    ensures status { result ≡ kind_status kind }
    ensures fault { result ≢ OK }
    ensures found { result ≢ MISSING }
    ensures utf8 { (result ≡ INVALID_UTF8) ↔ (kind ≡ ErrorKind.InvalidUtf8) }
    ensures memory { (result ≡ OUT_OF_MEMORY) ↔ (kind ≡ ErrorKind.OutOfMemory) }
    ensures range { (result ≡ OUT_OF_MEMORY) ⊎ (16 ≤ result) }
{
    match kind {
        ErrorKind::InvalidUtf8 => INVALID_UTF8,
        ErrorKind::Syntax => SYNTAX,
        ErrorKind::LoneSurrogate => LONE_SURROGATE,
        ErrorKind::Float => FLOAT,
        ErrorKind::NumberTooLarge => NUMBER_TOO_LARGE,
        ErrorKind::TooDeep => TOO_DEEP,
        ErrorKind::OutOfMemory => OUT_OF_MEMORY,
    }
}

/// The status of a refused print.
pub fn code_of_write(error: WriteError) -> u32
    ensures fault { result ≢ OK }
    ensures found { result ≢ MISSING }
    ensures held { result ≢ EMPTY }
    ensures too_long { (result ≡ TOO_LONG) ↔ (error ≡ WriteError.TooLong) }
    ensures either { (result ≡ TOO_LONG) ⊎ (result ≡ OUT_OF_MEMORY) }
{
    match error {
        WriteError::TooLong => TOO_LONG,
        WriteError::OutOfMemory => OUT_OF_MEMORY,
    }
}

/// The status of a refused command.
pub fn code_of_why(why: Why) -> u32
    ensures fault { result ≢ OK }
    ensures held { result ≢ EMPTY }
    ensures too_long { (result ≡ TOO_LONG) ↔ (why ≡ Why.TooLong) }
    ensures either { (result ≡ TOO_LONG) ⊎ (result ≡ OUT_OF_MEMORY) }
{
    match why {
        Why::TooLong => TOO_LONG,
        Why::OutOfMemory => OUT_OF_MEMORY,
    }
}

/// The status of a refused session.
pub fn code_of_session(fault: SessionFault) -> u32
    ensures status { result ≡ session_status fault }
    ensures fault { result ≢ OK }
    ensures usage { (result ≡ USAGE) ↔ (fault ≡ SessionFault.Usage) }
    ensures too_long { (result ≡ TOO_LONG) ↔ (fault ≡ SessionFault.TooLong) }
    ensures utf8 { (result ≡ INVALID_UTF8) ↔ (fault ≡ SessionFault.Refused ErrorKind.InvalidUtf8) }
    ensures unread { result ≢ USAGE → result ≢ TOO_LONG → result ≢ OUT_OF_MEMORY → (k : ErrorKind) × (fault ≡ SessionFault.Refused k) }
{
    match fault {
        SessionFault::Usage => USAGE,
        SessionFault::Refused(kind) => code_of_kind(kind),
        SessionFault::OutOfMemory => OUT_OF_MEMORY,
        SessionFault::TooLong => TOO_LONG,
    }
}

/// The status of a refused edit.
pub fn code_of_access(error: AccessError) -> u32
    ensures status { result ≡ access_status error }
    ensures fault { (result ≢ OK) × (result ≢ EMPTY) × (result ≢ BAD_POINTER) × (result ≢ BAD_ARGUMENT) }
{
    match error {
        AccessError::NotAnObject => NOT_AN_OBJECT,
        AccessError::NotAnArray => NOT_AN_ARRAY,
        AccessError::OutOfMemory => OUT_OF_MEMORY,
    }
}

/// Which member of several with one key counts.
pub fn choice_of(last: bool) -> Repeats
    ensures { result ≡ choice last }
{
    if last { Repeats::Last } else { Repeats::First }
}

/// The form of a session with the number: 0 owned, 1 borrowed, 2 lazy.
pub fn form_by(number: u32) -> Option<Form>
    ensures { result ≡ form_of number }
{
    match number {
        0 => Some(Form::Owned),
        1 => Some(Form::Borrowed),
        2 => Some(Form::Lazy),
        _ => None,
    }
}
