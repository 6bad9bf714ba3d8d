//! What a rule selects.

ghost use Rattle.std.specs.Prelude.{◌≡◌, ◌↔◌, IsTrue};
ghost use Rattle.sj_text_core.specs.declared.repeats.Repeats.TheVariants.{First};
ghost use Rattle.sj_tape.specs.Value.{tape_tree, tape_choice};
ghost use Rattle.sjroute.specs.Selects.{Meets, Selects};

use crate::found::find;
use sj_kinds::Kind;
use sj_owned::Value as Owned;
use sj_pointer::Pointer;
use sj_tape::{SameAs, Value};

/// What a value has to be.
#[derive(Debug, Drop)]
pub enum Test {
    /// Anything that is there.
    There,
    /// The same as this value.
    Same(Owned),
    /// Of this kind.
    Kind(Kind),
}

impl Test {
    /// Whether the value is so.
    fn is_met(&self, value: Value) -> bool
        requires { tape_choice value ≡ First }
        ensures { IsTrue result ↔ Meets self.now (tape_tree value.entry) }
    {
        match self {
            Test::There => true,
            Test::Same(other) => value.same_as(other),
            Test::Kind(kind) => Kind::of(&value) == *kind,
        }
    }
}

/// A place of a message, and what has to stand there.
#[derive(Debug, Drop)]
pub struct Rule {
    pub place: Pointer,
    pub test: Test,
}

impl Rule {
    /// Whether the message has something at the place that is so. Nothing is built.
    pub fn selects(&self, message: Value) -> bool
        requires { tape_choice message ≡ First }
        ensures { IsTrue result ↔ Selects self.now (tape_tree message.entry) }
    {
        match find(message, &self.place) {
            Some(found) => self.test.is_met(found),
            None => false,
        }
    }
}
