//! The document of a session and its command lines, by each form of document.

ghost use Rattle.std.specs.Prelude.{◌≡◌, ◌≢◌, ◌↔◌, IfOk, OnOk, OnErr, IsErrOf, IsUtf8, Err, length};
ghost use Rattle.sj_text_core.specs.Grammar.{IsReadable, Spells};
ghost use Rattle.sj_text_core.specs.Readings.{IsReadAs};
ghost use Rattle.sj_text_core.specs.Repeats.{keep_by};
ghost use Rattle.sj_text_core.specs.Tree.{IsWithin};
ghost use Rattle.sj_run.specs.inner.Answered.{AnswersText, PassesText};
ghost use Rattle.sj_run.specs.declared.sessions.Form.TheVariants as variant;

use crate::document::Way;
use crate::sessions::answer::answer_all;
use crate::sessions::{Form, SessionFault};
use sj_document::{BorrowedValue, OwnedValue};
use sj_lazy::Value;
use sj_object::{Builder, KeyOf, deserialize_repeats};
use sj_tape::{Tape, to_tape};
use sj_text_core::{ErrorKind, Repeats};
use std::alloc::Global;
use std::borrow::CowStr;

/// The fault of a document that was not read.
fn session_fault(kind: ErrorKind) -> SessionFault
    ensures memory { kind ≡ ErrorKind.OutOfMemory → result ≡ SessionFault.OutOfMemory }
    ensures named { kind ≢ ErrorKind.OutOfMemory → result ≡ SessionFault.Refused kind }
{
    if kind == ErrorKind::OutOfMemory {
        SessionFault::OutOfMemory
    } else {
        SessionFault::Refused(kind)
    }
}

/// Reads a session's document.
fn read_document<'v, V: Builder<'v, Key>, Key: KeyOf<'v>>(
    alloc: Global,
    text: &'v mut [u8],
    repeats: Repeats,
) -> Result<V, SessionFault>
    ensures read { IfOk result (λ v. IsReadAs (keep_by repeats) text.old (V.tree v)) }
    ensures refused { (k : ErrorKind) → result ≡ Err (SessionFault.Refused k) → (k ≢ ErrorKind.OutOfMemory) × (¬ (IsReadable text.old)) }
    ensures utf8 { IsErrOf result (SessionFault.Refused ErrorKind.InvalidUtf8) ↔ ¬ (IsUtf8 text.old) }
    ensures usage { result ≢ Err SessionFault.Usage }
    ensures too_long { result ≢ Err SessionFault.TooLong }
{
    match deserialize_repeats::<V, Key>(alloc, text, repeats) {
        Ok(value) => Ok(value),
        Err(kind) => Err(session_fault(kind)),
    }
}

/// Reads a session's document to a tape.
fn read_tape<'i>(alloc: Global, text: &'i mut [u8]) -> Result<Tape<'i>, SessionFault>
    ensures spelled { IfOk result (λ t. Spells text.old t) }
    ensures within { IfOk result (λ t. IsWithin t) }
    ensures refused { (k : ErrorKind) → result ≡ Err (SessionFault.Refused k) → (k ≢ ErrorKind.OutOfMemory) × (¬ (IsReadable text.old)) }
    ensures utf8 { IsErrOf result (SessionFault.Refused ErrorKind.InvalidUtf8) ↔ ¬ (IsUtf8 text.old) }
    ensures usage { result ≢ Err SessionFault.Usage }
    ensures too_long { result ≢ Err SessionFault.TooLong }
{
    match to_tape(alloc, text) {
        Ok(tape) => Ok(tape),
        Err(why) => Err(session_fault(why)),
    }
}

/// Reads an owned document, and answers the commands of the lines on it.
fn session_owned(
    alloc: Global,
    way: Way,
    repeats: Repeats,
    text: &mut [u8],
    lines: &mut [u8],
    out: &mut Vec<u8>,
) -> Result<(), SessionFault>
    ensures ok { OnOk result (AnswersText repeats variant.Owned text.old lines.old out.old.items out.new.items) }
    ensures err { OnErr result (out.new.items ≡ out.old.items) }
    ensures usage { result ≢ Err SessionFault.Usage }
    ensures refused { (k : ErrorKind) → result ≡ Err (SessionFault.Refused k) → (k ≢ ErrorKind.OutOfMemory) × (¬ (IsReadable text.old)) }
    ensures utf8 { IsErrOf result (SessionFault.Refused ErrorKind.InvalidUtf8) ↔ ¬ (IsUtf8 text.old) }
    ensures too_long { IsErrOf result SessionFault.TooLong → PassesText repeats variant.Owned text.old lines.old (length out.old.items) }
{
    let mut value = read_document::<OwnedValue, String>(alloc, text, repeats)?;
    answer_all::<OwnedValue, String>(alloc, &mut value, way, lines, out)?;
    Ok(())
}

/// Reads a borrowed document, and answers the commands of the lines on it.
fn session_borrowed<'i>(
    alloc: Global,
    way: Way,
    repeats: Repeats,
    text: &'i mut [u8],
    lines: &mut [u8],
    out: &mut Vec<u8>,
) -> Result<(), SessionFault>
    ensures ok { OnOk result (AnswersText repeats variant.Borrowed text.old lines.old out.old.items out.new.items) }
    ensures err { OnErr result (out.new.items ≡ out.old.items) }
    ensures usage { result ≢ Err SessionFault.Usage }
    ensures refused { (k : ErrorKind) → result ≡ Err (SessionFault.Refused k) → (k ≢ ErrorKind.OutOfMemory) × (¬ (IsReadable text.old)) }
    ensures utf8 { IsErrOf result (SessionFault.Refused ErrorKind.InvalidUtf8) ↔ ¬ (IsUtf8 text.old) }
    ensures too_long { IsErrOf result SessionFault.TooLong → PassesText repeats variant.Borrowed text.old lines.old (length out.old.items) }
{
    let mut value = read_document::<BorrowedValue<'i>, CowStr<'i>>(alloc, text, repeats)?;
    answer_all::<BorrowedValue<'i>, CowStr<'i>>(alloc, &mut value, way, lines, out)?;
    Ok(())
}

/// Reads a tape, and answers the commands of the lines on a lazy document of it.
fn session_lazy<'i>(
    alloc: Global,
    repeats: Repeats,
    text: &'i mut [u8],
    lines: &mut [u8],
    out: &mut Vec<u8>,
) -> Result<(), SessionFault>
    ensures ok { OnOk result (AnswersText repeats variant.Lazy text.old lines.old out.old.items out.new.items) }
    ensures err { OnErr result (out.new.items ≡ out.old.items) }
    ensures usage { result ≢ Err SessionFault.Usage }
    ensures refused { (k : ErrorKind) → result ≡ Err (SessionFault.Refused k) → (k ≢ ErrorKind.OutOfMemory) × (¬ (IsReadable text.old)) }
    ensures utf8 { IsErrOf result (SessionFault.Refused ErrorKind.InvalidUtf8) ↔ ¬ (IsUtf8 text.old) }
    ensures too_long { IsErrOf result SessionFault.TooLong → PassesText repeats variant.Lazy text.old lines.old (length out.old.items) }
{
    let tape = read_tape(alloc, text)?;
    let mut value = Value::from_tape(tape.as_value_repeats(repeats));
    answer_all::<Value<'_, '_, 'i>, CowStr<'i>>(alloc, &mut value, Way::ByText, lines, out)?;
    Ok(())
}

/// Reads a document of the form, and answers the commands of the lines on it. A lazy one is looked
/// up in by text.
pub(super) fn session_of_form(
    alloc: Global,
    form: Form,
    way: Way,
    repeats: Repeats,
    text: &mut [u8],
    lines: &mut [u8],
    out: &mut Vec<u8>,
) -> Result<(), SessionFault>
    ensures ok { OnOk result (AnswersText repeats form text.old lines.old out.old.items out.new.items) }
    ensures err { OnErr result (out.new.items ≡ out.old.items) }
    ensures usage { result ≢ Err SessionFault.Usage }
    ensures refused { (k : ErrorKind) → result ≡ Err (SessionFault.Refused k) → (k ≢ ErrorKind.OutOfMemory) × (¬ (IsReadable text.old)) }
    ensures utf8 { IsErrOf result (SessionFault.Refused ErrorKind.InvalidUtf8) ↔ ¬ (IsUtf8 text.old) }
    ensures too_long { IsErrOf result SessionFault.TooLong → PassesText repeats form text.old lines.old (length out.old.items) }
{
    match form {
        Form::Owned => session_owned(alloc, way, repeats, text, lines, out),
        Form::Borrowed => session_borrowed(alloc, way, repeats, text, lines, out),
        Form::Lazy => session_lazy(alloc, repeats, text, lines, out),
    }
}
