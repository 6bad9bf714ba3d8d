//! Documents compared with documents of either form, and with parts of tapes.

ghost use Rattle.sj_text_core.specs.Repeats.{SameBy};
ghost use Rattle.sj_text_core.specs.declared.repeats.Repeats.TheVariants.{First};
ghost use Rattle.sj_text_core.specs.Same.{Same};
ghost use Rattle.sj_tape.specs.Value.{tape_tree, tape_choice};
ghost use Rattle.sj_document.specs.Document.{document_tree};

mod documents;
mod others;
mod tape;

use crate::value::Document;
pub use documents::same;
use sj_object::KeyText;
use sj_tape::Value;
use sj_text_core::SameAs;
use tape::same_as_tape;

/// Two documents are equal where they mean one document: numbers by value, arrays item by item,
/// objects key by key.
impl<T: KeyText> PartialEq for Document<T> {
    ghost use Rattle.std.specs.Prelude.{◌≡◌, ◌↔◌, IsTrue};
    ghost use Rattle.std.specs.Ordering.{on};
    ghost use Rattle.std.specs.Cmp.{partial_equiv_from_equiv};
    ghost use Rattle.std.proofs.lemmas.Cmp.{on_equiv};
    ghost use Rattle.sj_text_core.specs.Same.{Same};
    ghost use Rattle.sj_text_core.specs.Equal.{tree_eq};
    ghost use Rattle.sj_text_core.proofs.Equal.{tree_eq-equivalence};
    ghost use Rattle.sj_document.specs.Document.{document_tree};

    ghost eq = { on (document_tree T.text_of) tree_eq };

    ghost laws = { partial_equiv_from_equiv (on_equiv (document_tree T.text_of) tree_eq-equivalence) };

    fn eq(&self, other: &Document<T>) -> bool
        ensures answer { result ≡ tree_eq (document_tree T.text_of self.now) (document_tree T.text_of other.now) }
        ensures same { IsTrue result ↔ Same (document_tree T.text_of self.now) (document_tree T.text_of other.now) }
    {
        self.same_as(other)
    }
}

impl<T: KeyText> Eq for Document<T> {
    ghost use Rattle.std.proofs.lemmas.Cmp.{on_equiv};
    ghost use Rattle.sj_text_core.proofs.Equal.{tree_eq-equivalence};
    ghost use Rattle.sj_document.specs.Document.{document_tree};

    ghost laws = { on_equiv (document_tree T.text_of) tree_eq-equivalence };
}

/// Same exactly where the two mean one document, whatever holds their texts.
impl<T: KeyText, U: KeyText> SameAs<Document<U>> for Document<T> {
    ghost same = { λ v w. Same (document_tree T.text_of v) (document_tree U.text_of w) };

    fn same_as(&self, other: &Document<U>) -> bool {
        same(self, other)
    }
}

/// Same exactly where the two mean one document, the part of the tape by its own choice.
impl<'t, 'i, T: KeyText> SameAs<Value<'t, 'i>> for Document<T> {
    ghost same = { λ v w. SameBy First (tape_choice w) (document_tree T.text_of v) (tape_tree w) };

    fn same_as(&self, other: &Value<'t, 'i>) -> bool {
        same_as_tape(*other, self)
    }
}

/// Same exactly where the two mean one document, the part of the tape by its own choice.
impl<'t, 'i, T: KeyText> SameAs<Document<T>> for Value<'t, 'i> {
    ghost same = { λ v w. SameBy (tape_choice v) First (tape_tree v) (document_tree T.text_of w) };

    fn same_as(&self, other: &Document<T>) -> bool {
        same_as_tape(*self, other)
    }
}
