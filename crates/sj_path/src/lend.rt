//! What lends what a pointer finds in it to write. Code that is generic in it can say what it is
//! after a write through the reference.

ghost use Rattle.std.specs.Prelude.{◌≡◌, ℕ, List, Option, option_map, OnSome};
ghost use Rattle.std.specs.Borrow.{LendsSo, sem};
ghost use Rattle.std.specs.Option.{option_copied_mut};
ghost use Rattle.sj_pointer.specs.Pointed.{pointed, set_pointed};

use crate::walk::find_mut;
use sj_document::Document;
use sj_object::KeyText;
use sj_pointer::Pointer;

// Why so: docs/REFUSED.md, "`LendPointed` has the loan of `find_mut`".
/// What lends what a pointer finds to write: a document.
pub trait LendPointed {
    /// Of a document its own type.
    type Output;

    /// Holds of what it is, tokens, and what they find.
    ghost finds_pointed: { Self → List (List ℕ) → Option Self.Output → Type 0 };

    /// Holds of what it was, tokens, what was written where they lead, and what it is then.
    ghost writes_pointed: { Self → List (List ℕ) → Self.Output → Self → Type 0 };

    /// Holds of what it was and what it is, where nothing was found.
    ghost keeps_pointed: { Self → Self → Type 0 };

    /// What the pointer finds, to write; None where it finds nothing. What lends it is then as it
    /// was, with what the reference last held in the place of what the pointer found.
    fn pointed_mut(&mut self, pointer: &Pointer) -> Option<&mut Self::Output>
        ensures* writes_back { sem 𝓛 (LendsSo Self.row Self.Output.row self.entry result (λ n w. OnSome result (writes_pointed self.old pointer.now w n)) (λ n. keeps_pointed self.old n)) }
        ensures value { finds_pointed self.old pointer.now (option_copied_mut result) };
}

impl<T: KeyText> LendPointed for Document<T> {
    type Output = Document<T>;

    ghost use Rattle.sj_document.specs.Document.{document_tree};

    ghost finds_pointed = { λ d ks v. option_map (document_tree T.text_of) v ≡ pointed ks (document_tree T.text_of d) };

    ghost writes_pointed = { λ d ks w n. document_tree T.text_of n ≡ set_pointed ks (document_tree T.text_of w) (document_tree T.text_of d) };

    ghost keeps_pointed = { λ d n. document_tree T.text_of n ≡ document_tree T.text_of d };

    fn pointed_mut(&mut self, pointer: &Pointer) -> Option<&mut Document<T>> {
        find_mut(self, pointer)
    }
}
