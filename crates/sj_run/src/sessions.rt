//! Sessions over bytes.

ghost use Rattle.std.specs.Prelude.{◌≡◌, ◌≢◌, ◌↔◌, List, ℕ, ◌++◌, OnOk, OnErr, IsErrOf, IsUtf8, Err, length, string_bytes};
ghost use Rattle.sj_text_core.specs.Grammar.{IsReadable};
ghost use Rattle.sj_text_core.specs.declared.repeats.Repeats.TheVariants.{First};
ghost use Rattle.sj_document.specs.Document.{document_tree};
ghost use Rattle.sj_commands.specs.Lines.{document as document_of, full_lines, line_texts};
ghost use Rattle.sj_run.specs.Answered.{AnswersLines, PassesLines};
ghost use Rattle.sj_run.specs.Session.{IsServed, IsAnswered, IsAnsweredBy, PassesAll, PassesAllBy};

mod answer;
mod forms;

use crate::document::{OwnedDoc, Way};
use crate::runs::Why;
use crate::sessions::answer::answer_all;
use crate::sessions::forms::session_of_form;
use sj_commands::cut_at_mark;
use sj_document::OwnedValue;
use sj_text_core::{ErrorKind, Repeats};
use std::alloc::{AllocError, Global};
use thiserror::Error;

/// Which type holds a session's document.
#[derive(Clone, Copy, Debug, PartialEq, Eq)]
pub enum Form {
    /// Its texts are its own.
    Owned,
    /// Its texts lie in the input where they can.
    Borrowed,
    /// A tape until the first write.
    Lazy,
}

impl Form {
    ghost use Rattle.std.specs.Prelude.{◌↔◌, IsTrue};
    ghost use Rattle.sj_run.specs.Session.{IsServed};

    /// Whether a session serves the form in this way: each by text, and all but lazy ones by known
    /// key.
    pub fn is_served(self, way: Way) -> bool
        ensures { IsTrue result ↔ IsServed self way }
    {
        match (self, way) {
            (Form::Lazy, Way::ByKnownKey) => false,
            (Form::Owned | Form::Borrowed, _) | (Form::Lazy, Way::ByText) => true,
        }
    }
}

/// Why a session gave no replies.
#[derive(Clone, Copy, Debug, PartialEq, Eq, Error)]
pub enum SessionFault {
    /// The form is not served in this way.
    #[error("this form is not served in this way")]
    Usage,
    /// The document was not read.
    #[error("text refused: {0:?}")]
    Refused(ErrorKind),
    /// A request for memory was refused.
    #[error("out of memory")]
    OutOfMemory,
    /// The replies would pass `usize::MAX` bytes.
    #[error("too long")]
    TooLong,
}

impl From<AllocError> for SessionFault {
    ghost use Rattle.std.specs.Prelude.{◌≡◌};
    ghost use Rattle.sj_run.specs.declared.sessions.SessionFault.TheVariants.{OutOfMemory};

    ghost from_gives = { λ _ e. e ≡ OutOfMemory };

    fn from(_error: AllocError) -> SessionFault {
        SessionFault::OutOfMemory
    }
}

impl From<Why> for SessionFault {
    ghost use Rattle.std.specs.Prelude.{◌≡◌};
    ghost use Rattle.sj_run.specs.Session.{fault_of};

    ghost from_gives = { λ why fault. fault ≡ fault_of why };

    fn from(why: Why) -> SessionFault {
        match why {
            Why::OutOfMemory => SessionFault::OutOfMemory,
            Why::TooLong => SessionFault::TooLong,
        }
    }
}

/// Reads the document of the input, answers the command lines behind its first line `---` in turn,
/// and appends each printed reply with a line feed to `out`.
///
/// A lazy document is built at the first write; that a session which only reads builds none is seen
/// by its requests for memory, and said by no clause. Refused as `Usage` for lazy documents by
/// known key, as `Refused` where the document can't be read, as `OutOfMemory` where memory was
/// refused, and as `TooLong` only where `out` with all replies would pass `usize::MAX` bytes. On a
/// fault `out` is as it was, and of the input's bytes nothing is said.
pub fn session(
    alloc: Global,
    form: Form,
    way: Way,
    input: &mut [u8],
    out: &mut Vec<u8>,
) -> Result<(), SessionFault>
    ensures ok { OnOk result ((written : List ℕ) × (out.new.items ≡ out.old.items ++ written) × IsAnswered form input.old written) }
    ensures err { OnErr result (out.new.items ≡ out.old.items) }
    ensures usage { IsErrOf result SessionFault.Usage ↔ ¬ (IsServed form way) }
    ensures refused { (k : ErrorKind) → result ≡ Err (SessionFault.Refused k) → (k ≢ ErrorKind.OutOfMemory) × (¬ (IsReadable (document_of input.old))) }
    ensures utf8 { IsServed form way → (IsErrOf result (SessionFault.Refused ErrorKind.InvalidUtf8) ↔ ¬ (IsUtf8 (document_of input.old))) }
    ensures too_long { IsErrOf result SessionFault.TooLong → PassesAll form input.old (length out.old.items) }
{
    session_repeats(alloc, form, way, Repeats::First, input, out)
}

/// A session as `session` has it, where the document is read by the choice: with `Last` it keeps
/// the last value of each key, in the place of the first. The command lines keep the first.
pub fn session_repeats(
    alloc: Global,
    form: Form,
    way: Way,
    repeats: Repeats,
    input: &mut [u8],
    out: &mut Vec<u8>,
) -> Result<(), SessionFault>
    ensures ok { OnOk result ((written : List ℕ) × (out.new.items ≡ out.old.items ++ written) × IsAnsweredBy repeats form input.old written) }
    ensures err { OnErr result (out.new.items ≡ out.old.items) }
    ensures usage { IsErrOf result SessionFault.Usage ↔ ¬ (IsServed form way) }
    ensures refused { (k : ErrorKind) → result ≡ Err (SessionFault.Refused k) → (k ≢ ErrorKind.OutOfMemory) × (¬ (IsReadable (document_of input.old))) }
    ensures utf8 { IsServed form way → (IsErrOf result (SessionFault.Refused ErrorKind.InvalidUtf8) ↔ ¬ (IsUtf8 (document_of input.old))) }
    ensures too_long { IsErrOf result SessionFault.TooLong → PassesAllBy repeats form input.old (length out.old.items) }
{
    if !form.is_served(way) {
        return Err(SessionFault::Usage);
    }
    let cut = cut_at_mark(input);
    let (text, behind) = input.split_at_mut(cut.document);
    let lines = &mut behind[cut.commands - cut.document..];
    session_of_form(alloc, form, way, repeats, text, lines, out)
}

/// Answers command lines in turn on a document that is kept, and appends each printed reply with a
/// line feed to `out`. The lines are written over.
///
/// Refused as `OutOfMemory` where memory was refused, and as `TooLong` only where `out` with all
/// replies would pass `usize::MAX` bytes. On a fault `out` is as it was; of which commands were
/// done nothing is said.
pub fn answer_owned(
    alloc: Global,
    document: &mut OwnedDoc,
    lines: &mut [u8],
    out: &mut Vec<u8>,
) -> Result<(), Why>
    ensures ok { OnOk result (AnswersLines (First, document_tree string_bytes document.old.value) (line_texts (full_lines lines.old)) (First, document_tree string_bytes document.new.value) out.old.items out.new.items) }
    ensures err { OnErr result (out.new.items ≡ out.old.items) }
    ensures too_long { IsErrOf result Why.TooLong → PassesLines (First, document_tree string_bytes document.old.value) (line_texts (full_lines lines.old)) (length out.old.items) }
{
    answer_all::<OwnedValue, String>(alloc, &mut document.value, document.way, lines, out)
}
