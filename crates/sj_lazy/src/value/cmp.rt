//! Lazy values compared, with one another and with documents. Nothing is built, and no memory is
//! taken.

ghost use Rattle.std.specs.Prelude.{◌≡◌, ◌↔◌, IsTrue};
ghost use Rattle.sj_document.specs.Document.{document_tree};
ghost use Rattle.sj_lazy.specs.Value.{value_tree, value_choice, seen};
ghost use Rattle.sj_text_core.specs.Equal.{tree_eq};
ghost use Rattle.sj_text_core.specs.Repeats.{SameBy};
ghost use Rattle.sj_text_core.specs.declared.repeats.Repeats.TheVariants.{First};

mod map;

use super::{Lazy, Value};
use sj_document::{Document, same};
use sj_object::KeyText;
use sj_text_core::SameAs;

/// Whether the two mean one document, each part of a tape by its own choice.
fn same_lazy(left: &Value, right: &Value) -> bool
    ensures { IsTrue result ↔ SameBy (value_choice left.now) (value_choice right.now) (value_tree left.now) (value_tree right.now) }
{
    match left {
        Lazy::Tape(part) => match right {
            Lazy::Tape(other) => part.same_as(other),
            Lazy::Value(other) => part.same_as(other.document()),
        },
        Lazy::Value(value) => match right {
            Lazy::Tape(other) => value.document().same_as(other),
            Lazy::Value(other) => same(value.document(), other.document()),
        },
    }
}

/// Two lazy values are equal where they mean one document, whatever form they have: numbers by
/// value, arrays item by item, objects by the member of each key that counts in each.
impl<'b, 't, 'i> PartialEq for Value<'b, 't, 'i> {
    ghost use Rattle.std.specs.Ordering.{on};
    ghost use Rattle.std.specs.Cmp.{partial_equiv_from_equiv};
    ghost use Rattle.std.proofs.lemmas.Cmp.{on_equiv};
    ghost use Rattle.sj_text_core.proofs.Equal.{tree_eq-equivalence};

    ghost eq = { on seen tree_eq };

    ghost laws = { partial_equiv_from_equiv (on_equiv seen tree_eq-equivalence) };

    fn eq(&self, other: &Value<'b, 't, 'i>) -> bool
        ensures answer { result ≡ tree_eq (seen self.now) (seen other.now) }
        ensures same { IsTrue result ↔ SameBy (value_choice self.now) (value_choice other.now) (value_tree self.now) (value_tree other.now) }
    {
        same_lazy(self, other)
    }
}

impl<'b, 't, 'i> Eq for Value<'b, 't, 'i> {
    ghost use Rattle.std.proofs.lemmas.Cmp.{on_equiv};
    ghost use Rattle.sj_text_core.proofs.Equal.{tree_eq-equivalence};

    ghost laws = { on_equiv seen tree_eq-equivalence };
}

/// Same exactly where the two mean one document, each part of a tape by its own choice.
impl<'b, 't, 'i, 'c, 'u, 'j> SameAs<Value<'c, 'u, 'j>> for Value<'b, 't, 'i> {
    ghost same = { λ v w. SameBy (value_choice v) (value_choice w) (value_tree v) (value_tree w) };

    fn same_as(&self, other: &Value<'c, 'u, 'j>) -> bool {
        same_lazy(self, other)
    }
}

/// Same exactly where the two mean one document, a part of a tape by its own choice.
impl<'b, 't, 'i, T: KeyText> SameAs<Document<T>> for Value<'b, 't, 'i> {
    ghost same = { λ v w. SameBy (value_choice v) First (value_tree v) (document_tree T.text_of w) };

    fn same_as(&self, other: &Document<T>) -> bool {
        match self {
            Lazy::Tape(part) => part.same_as(other),
            Lazy::Value(value) => same(value.document(), other),
        }
    }
}
