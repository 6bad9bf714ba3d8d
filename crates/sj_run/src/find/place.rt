//! Places in a document, as reads see them.

ghost use Rattle.std.specs.Prelude.{◌≡◌, IfSome, option_map};
ghost use Rattle.sj_text_core.specs.Find.{nth};
ghost use Rattle.sj_text_core.specs.Repeats.{find_by};
ghost use Rattle.sj_text_core.specs.declared.repeats.Repeats.{Repeats};
ghost use Rattle.sj_run.specs.Answers.{len_reply};
ghost use Rattle.sj_run.specs.inner.Found.{len_meant};

use crate::document::Way;
use crate::lookup::member;
use sj_document::Document;
use sj_object::KeyText;
use sj_print::Parts;
use sj_tape::Value as TapeValue;
use sj_text_core::{Repeats, ValueAsScalar, Writable};

/// A value at some place in a document: one that is lent, or a part of a tape.
pub(crate) trait Place: Parts {
    /// What tells its kind and its scalar, and prints it.
    type Value: ValueAsScalar + Writable;

    /// Which member of several with one key counts.
    ghost choice: { Self → Repeats };

    /// The value.
    fn value(&self) -> &Self::Value
        ensures { Self.Value.tree result.now ≡ Self.tree_of self.now };

    /// The value of the key, looked up that way; None where there is none, and on a non-object.
    fn member(&self, way: Way, key: &str) -> Option<Self>
        ensures value { option_map Self.tree_of result ≡ find_by (choice self.now) key.now (Self.tree_of self.now) }
        ensures choice { IfSome result (λ p. choice p ≡ choice self.now) };

    /// The item at that position, counted from 0; None past the last, and on a non-array.
    fn item(&self, index: usize) -> Option<Self>
        ensures value { option_map Self.tree_of result ≡ nth index (Self.tree_of self.now) }
        ensures choice { IfSome result (λ p. choice p ≡ choice self.now) };

    /// How many items or members it has, repeats counted; None on what has neither.
    fn len(&self) -> Option<usize>
        ensures { len_meant result ≡ len_reply (Self.tree_of self.now) };
}

impl<'v, T: KeyText> Place for &'v Document<T> {
    type Value = Document<T>;

    ghost choice = { λ _. Repeats.First };

    fn value(&self) -> &Document<T> {
        let value: &'v Document<T> = *self;
        value
    }

    fn member(&self, way: Way, key: &str) -> Option<&'v Document<T>> {
        let value: &'v Document<T> = *self;
        member(value, way, key)
    }

    fn item(&self, index: usize) -> Option<&'v Document<T>> {
        let value: &'v Document<T> = *self;
        value.get_idx(index)
    }

    fn len(&self) -> Option<usize> {
        let value: &'v Document<T> = *self;
        match value {
            Document::Array(items) => Some(items.len()),
            Document::Object(members) => Some(members.len()),
            _ => None,
        }
    }
}

/// Keys of a tape are looked up by text in both ways.
impl<'t, 'i> Place for TapeValue<'t, 'i> {
    type Value = TapeValue<'t, 'i>;

    ghost use Rattle.sj_tape.specs.Value.{tape_choice};

    ghost choice = { tape_choice };

    fn value(&self) -> &TapeValue<'t, 'i> {
        self
    }

    fn member(&self, _way: Way, key: &str) -> Option<TapeValue<'t, 'i>> {
        self.get(key)
    }

    fn item(&self, index: usize) -> Option<TapeValue<'t, 'i>> {
        self.get_idx(index)
    }

    fn len(&self) -> Option<usize> {
        if let Some(items) = self.as_array() {
            return Some(items.len());
        }
        match self.as_object() {
            Some(members) => Some(members.len()),
            None => None,
        }
    }
}
