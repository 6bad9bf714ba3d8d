//! Canonical prints of documents, of parts of tapes and of lazy documents.

ghost use Rattle.std.specs.Prelude.{◌≡◌, ◌↔◌, ◌+◌, ◌^◌, ◌≤◌, ◌++◌, length, IfOk, OnOk, OnErr, IsErrOf, string_bytes};
ghost use Rattle.sj_text_core.specs.Print.{compact};
ghost use Rattle.sj_canonical.specs.Canonical.{canonical};

use crate::writing::{encode, write};
use sj_document::{Document, KeyText};
use sj_lazy::{Lazy, Value};
use sj_tape::Value as TapeValue;
use sj_text_core::{Meaning, Repeats, WriteError};
use std::alloc::Global;

/// Values that have a canonical print (RFC 8785): no whitespace, and the members of every object in
/// the order of their keys' UTF-16 units. Of several members with one key, the one that counts is
/// printed. A number is its digits, also past 2^53, where the RFC prints a double.
pub trait Canonical: Meaning {
    ghost use Rattle.sj_text_core.specs.Tree.{Tree};

    /// The tree with the member of each key that counts.
    ghost kept: { Self → Tree };

    /// The canonical print. `TooLong` where there would be more than `usize::MAX` bytes with every
    /// member.
    fn canonical(&self, alloc: Global) -> Result<String, WriteError>
        ensures ok { IfOk result (λ s. string_bytes s ≡ compact (canonical (kept self.now))) }
        ensures too_long { IsErrOf result WriteError.TooLong ↔ (2 ^ 64 ≤ length (compact (Self.tree self.now))) };

    /// Appends the canonical print. `TooLong` where there would be more than `usize::MAX` bytes with
    /// every member. Refused, it leaves the bytes as they were.
    fn write_canonical(&self, out: &mut Vec<u8>) -> Result<(), WriteError>
        ensures ok { OnOk result (out.new.items ≡ out.old.items ++ compact (canonical (kept self.now))) }
        ensures err { OnErr result (out.new.items ≡ out.old.items) }
        ensures too_long { IsErrOf result WriteError.TooLong ↔ (2 ^ 64 ≤ length out.old.items + length (compact (Self.tree self.now))) };
}

impl<T: KeyText> Canonical for Document<T> {
    ghost use Rattle.sj_document.specs.Document.{document_tree};

    ghost kept = { document_tree T.text_of };

    fn canonical(&self, alloc: Global) -> Result<String, WriteError> {
        encode(&self, Repeats::First, alloc)
    }

    fn write_canonical(&self, out: &mut Vec<u8>) -> Result<(), WriteError> {
        write(&self, Repeats::First, out)
    }
}

impl<'t, 'i> Canonical for TapeValue<'t, 'i> {
    ghost use Rattle.sj_lazy.specs.Value.{part_kept};

    ghost kept = { part_kept };

    fn canonical(&self, alloc: Global) -> Result<String, WriteError> {
        encode(self, self.repeats(), alloc)
    }

    fn write_canonical(&self, out: &mut Vec<u8>) -> Result<(), WriteError> {
        write(self, self.repeats(), out)
    }
}

impl<'b, 't, 'i> Canonical for Value<'b, 't, 'i> {
    ghost use Rattle.sj_lazy.specs.Value.{value_kept};

    ghost kept = { value_kept };

    fn canonical(&self, alloc: Global) -> Result<String, WriteError> {
        match self {
            Lazy::Tape(part) => part.canonical(alloc),
            Lazy::Value(value) => value.document().canonical(alloc),
        }
    }

    fn write_canonical(&self, out: &mut Vec<u8>) -> Result<(), WriteError> {
        match self {
            Lazy::Tape(part) => part.write_canonical(out),
            Lazy::Value(value) => value.document().write_canonical(out),
        }
    }
}
