//! The type, and what makes and ends its values.

ghost use Rattle.std.specs.Prelude.{◌≡◌, not, true, option_map, IfSome};
ghost use Rattle.sj_text_core.specs.Tree.{null};
ghost use Rattle.sj_tape.specs.Value.{tape_tree, tape_choice};
ghost use Rattle.sj_lazy.specs.Value.{value_tree, value_choice, form, of_tape as tape_form, of_lent as lent_form, value_kept, lent_tree};
ghost use Rattle.sj_text_core.specs.Repeats.{keep_by};
ghost use Rattle.sj_text_core.specs.declared.repeats.Repeats.TheVariants.{First};

mod access;
mod access_mut;
mod change;
mod cmp;
mod convert;
mod depth;
mod edit;
mod from;
mod items;
mod known;
mod make;
mod scalar;
mod serialize;
mod typed;
mod upgrade;

use sj_document::{BorrowedValue, Document};
use sj_object::KeyText;
use sj_tape::Value as TapeValue;
use sj_text_core::Repeats;
use std::borrow::CowStr;

// Why so: docs/REFUSED.md, "`lazy::Value` and `ValueCow` are names of generic enums".
/// A document, lent or owned.
#[derive(Debug, Drop)]
pub enum Shared<B, T: KeyText> {
    Borrowed(B),
    Owned(Document<T>),
}

/// A part of a tape, or a document.
#[derive(Debug, Drop)]
pub enum Lazy<P, B, T: KeyText> {
    Tape(P),
    Value(Shared<B, T>),
}

/// A borrowed document, lent or owned.
pub type ValueCow<'b, 'i> = Shared<&'b BorrowedValue<'i>, CowStr<'i>>;

/// A lazy document.
pub type Value<'b, 't, 'i> = Lazy<TapeValue<'t, 'i>, &'b BorrowedValue<'i>, CowStr<'i>>;

impl<P, B, T: KeyText> Lazy<P, B, T> {
    ghost use Rattle.sj_lazy.specs.Value.{on_tape};
    ghost use Rattle.sj_lazy.specs.declared.value.Lazy.TheVariants.{Tape};

    /// The part of the tape, as it is.
    pub fn from_tape(tape: P) -> Self
        ensures { result ≡ Tape tape }
    {
        Lazy::Tape(tape)
    }

    /// Whether it is a part of a tape.
    pub fn is_tape(&self) -> bool
        ensures { result ≡ on_tape self.now }
    {
        match self {
            Lazy::Tape(_) => true,
            Lazy::Value(_) => false,
        }
    }

    /// Whether it is a document.
    pub fn is_value(&self) -> bool
        ensures { result ≡ not (on_tape self.now) }
    {
        !self.is_tape()
    }
}

impl<'b, 't, 'i> Value<'b, 't, 'i> {
    ghost use Rattle.sj_lazy.specs.Value.{on_tape};

    /// Which member of several with one key counts: in a document there are none.
    pub fn repeats(&self) -> Repeats
        ensures choice { result ≡ value_choice self.now }
        ensures kept { value_kept self.now ≡ keep_by (value_choice self.now) (value_tree self.now) }
    {
        match self {
            Lazy::Tape(part) => part.repeats(),
            Lazy::Value(_) => Repeats::First,
        }
    }

    /// A null, as a part of a tape.
    pub fn null() -> Self
        ensures tree { value_tree result ≡ null }
        ensures choice { value_choice result ≡ First }
        ensures form { on_tape result ≡ true }
    {
        Lazy::Tape(TapeValue::null())
    }
}

impl<'b, 't, 'i> Default for Value<'b, 't, 'i> {
    ghost use Rattle.sj_lazy.specs.Value.{on_tape};

    ghost is_default = { λ v. (value_tree v ≡ null) × (value_choice v ≡ First) × (on_tape v ≡ true) };

    fn default() -> Self {
        Lazy::null()
    }
}

/// A part of a tape as a lazy value, where there is one.
pub(crate) fn of_tape<'b, 't, 'i>(found: Option<TapeValue<'t, 'i>>) -> Option<Value<'b, 't, 'i>>
    ensures value { option_map value_tree result ≡ option_map tape_tree found.entry }
    ensures choice { option_map value_choice result ≡ option_map tape_choice found.entry }
    ensures form { IfSome result (λ v. form v ≡ tape_form) }
{
    match found {
        Some(part) => Some(Lazy::Tape(part)),
        None => None,
    }
}

/// A lent document as a lazy value, where there is one.
pub(crate) fn of_lent<'b, 't, 'i>(found: Option<&'b BorrowedValue<'i>>) -> Option<Value<'b, 't, 'i>>
    ensures value { option_map value_tree result ≡ option_map lent_tree found.entry }
    ensures choice { IfSome result (λ v. value_choice v ≡ Repeats.First) }
    ensures form { IfSome result (λ v. form v ≡ lent_form) }
{
    match found {
        Some(lent) => Some(Lazy::Value(Shared::Borrowed(lent))),
        None => None,
    }
}
