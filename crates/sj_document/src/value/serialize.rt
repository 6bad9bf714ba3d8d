//! A document level by level, and its prints.

ghost use Rattle.std.specs.Prelude.{Some};
ghost use Rattle.sj_tape.specs.Value.{displayed};
ghost use Rattle.sj_document.specs.Document.{document_tree};

use crate::value::Document;
use sj_object::KeyText;
use sj_print::{Level, Parts, display, encode, write};
use sj_text_core::{Writable, WriteError};
use std::alloc::Global;
use std::{fmt, slice};

impl<'a, T: KeyText> Parts for &'a Document<T> {
    type Items = slice::Iter<'a, Document<T>>;

    type Members = sj_object::Iter<'a, T, Document<T>>;

    type Key = &'a T;

    ghost use Rattle.std.specs.Prelude.{map};
    ghost use Rattle.std.specs.Slice.Iter.{iter_rest};

    ghost tree_of = { λ v. document_tree T.text_of v.now };

    ghost items_left = { λ it. map (document_tree T.text_of) (iter_rest it) };

    ghost members_left = { λ it. map (λ p. (T.text_of p.0, document_tree T.text_of p.1)) it };

    ghost key_of = { λ k. T.text_of k.now };

    fn level(
        &self,
    ) -> Level<'_, slice::Iter<'a, Document<T>>, sj_object::Iter<'a, T, Document<T>>> {
        let value: &'a Document<T> = self;
        match value {
            Document::Static(scalar) => Level::Static(*scalar),
            Document::String(text) => Level::String(text.text()),
            Document::Array(items) => Level::Array(items.iter()),
            Document::Object(members) => Level::Object(members.iter()),
        }
    }

    fn next_item(items: &mut slice::Iter<'a, Document<T>>) -> Option<&'a Document<T>> {
        items.next()
    }

    fn next_member(
        members: &mut sj_object::Iter<'a, T, Document<T>>,
    ) -> Option<(&'a T, &'a Document<T>)> {
        members.next()
    }

    fn key_text<'k>(key: &'k &'a T) -> &'k str {
        key.text()
    }
}

impl<T: KeyText> Writable for Document<T> {
    fn encode(&self, alloc: Global) -> Result<String, WriteError> {
        encode(&self, false, alloc)
    }

    fn encode_pp(&self, alloc: Global) -> Result<String, WriteError> {
        encode(&self, true, alloc)
    }

    fn write(&self, out: &mut Vec<u8>) -> Result<(), WriteError> {
        write(&self, false, out)
    }

    fn write_pp(&self, out: &mut Vec<u8>) -> Result<(), WriteError> {
        write(&self, true, out)
    }
}

/// A scalar as it is printed, a text as it is, and a container as its compact print. It is refused
/// where the formatter refuses. Memory is asked for past 128 levels alone, and a refusal of it shows
/// in no answer.
impl<T: KeyText> fmt::Display for Document<T> {
    ghost output = { λ v. Some (displayed (document_tree T.text_of v)) };

    fn fmt<W: fmt::Write>(&self, f: &mut fmt::Formatter<W>) -> fmt::Result {
        match self {
            Document::Static(scalar) => write!(f, "{scalar}"),
            Document::String(text) => f.write_str(text.text()),
            Document::Array(items) => display(&self, *Box::allocator(items), f),
            Document::Object(members) => display(&self, *Box::allocator(members), f),
        }
    }
}
