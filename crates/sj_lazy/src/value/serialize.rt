//! The prints of a lazy value: those of its tape's tree, or of its document's.

use super::{Lazy, Value};
use sj_text_core::{Writable, WriteError};
use std::alloc::Global;
use std::fmt;

impl<'b, 't, 'i> Writable for Value<'b, 't, 'i> {
    fn encode(&self, alloc: Global) -> Result<String, WriteError> {
        match self {
            Lazy::Tape(part) => part.encode(alloc),
            Lazy::Value(value) => value.document().encode(alloc),
        }
    }

    fn encode_pp(&self, alloc: Global) -> Result<String, WriteError> {
        match self {
            Lazy::Tape(part) => part.encode_pp(alloc),
            Lazy::Value(value) => value.document().encode_pp(alloc),
        }
    }

    fn write(&self, out: &mut Vec<u8>) -> Result<(), WriteError> {
        match self {
            Lazy::Tape(part) => part.write(out),
            Lazy::Value(value) => value.document().write(out),
        }
    }

    fn write_pp(&self, out: &mut Vec<u8>) -> Result<(), WriteError> {
        match self {
            Lazy::Tape(part) => part.write_pp(out),
            Lazy::Value(value) => value.document().write_pp(out),
        }
    }
}

/// A scalar as it is printed, a text as it is, an array or an object as its compact print.
impl<'b, 't, 'i> fmt::Display for Value<'b, 't, 'i> {
    ghost use Rattle.std.specs.Prelude.{Some};
    ghost use Rattle.sj_lazy.specs.Value.{value_tree};
    ghost use Rattle.sj_tape.specs.Value.{displayed};

    ghost output = { λ v. Some (displayed (value_tree v)) };

    fn fmt<W: fmt::Write>(&self, f: &mut fmt::Formatter<W>) -> fmt::Result {
        match self {
            Lazy::Tape(part) => part.fmt(f),
            Lazy::Value(value) => value.document().fmt(f),
        }
    }
}
