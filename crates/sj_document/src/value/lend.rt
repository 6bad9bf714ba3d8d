//! What lends a part of itself to write, by a key or by a position. Code that is generic in it can
//! say what it is after a write through the reference.

ghost use Rattle.std.specs.Prelude.{◌≡◌, ℕ, List, Option, option_map, OnSome};
ghost use Rattle.std.specs.Borrow.{LendsSo, sem};
ghost use Rattle.std.specs.List.{slice_get};
ghost use Rattle.std.specs.Option.{option_copied_mut};
ghost use Rattle.std.specs.Vec.{with_item};
ghost use Rattle.sj_text_core.specs.Find.{find, nth};
ghost use Rattle.sj_text_core.specs.Paths.{by_key, by_place, set_found};
ghost use Rattle.sj_object.specs.Edits.{lookup, with_value};

use crate::value::Document;
use sj_object::{HashMap, KeyText, ObjectHasher};

// Why so: docs/REFUSED.md, "Callers learn what is left".
/// What lends the value of a key to write: a map, or a document.
pub trait LendMember {
    /// The values of a map; of a document its own type.
    type Output;

    /// Holds of what it is, a text, and what is found at the text.
    ghost finds_member: { Self → List ℕ → Option Self.Output → Type 0 };

    /// Holds of what it was, a text, what was written at the text, and what it is then.
    ghost writes_member: { Self → List ℕ → Self.Output → Self → Type 0 };

    /// Holds of what it was and what it is, where nothing was found.
    ghost keeps_members: { Self → Self → Type 0 };

    /// The value of the key, to write; None where there is none. What lends it is then as it was,
    /// with what the reference last held in the place of that value.
    fn member_mut(&mut self, key: &str) -> Option<&mut Self::Output>
        ensures* writes_back { sem 𝓛 (LendsSo Self.row Self.Output.row self.entry result (λ n w. OnSome result (writes_member self.old key.now w n)) (λ n. keeps_members self.old n)) }
        ensures value { finds_member self.old key.now (option_copied_mut result) };
}

/// What lends the item at a position to write: a vector, or a document.
pub trait LendItem {
    /// The items of a vector; of a document its own type.
    type Output;

    /// Holds of what it is, a position, and what is found there.
    ghost finds_item: { Self → ℕ → Option Self.Output → Type 0 };

    /// Holds of what it was, a position, what was written there, and what it is then.
    ghost writes_item: { Self → ℕ → Self.Output → Self → Type 0 };

    /// Holds of what it was and what it is, where nothing was found.
    ghost keeps_items: { Self → Self → Type 0 };

    /// The item at that position, counted from 0, to write; None past the last. What lends it is
    /// then as it was, with what the reference last held in the place of that item.
    fn item_mut(&mut self, index: usize) -> Option<&mut Self::Output>
        ensures* writes_back { sem 𝓛 (LendsSo Self.row Self.Output.row self.entry result (λ n w. OnSome result (writes_item self.old index w n)) (λ n. keeps_items self.old n)) }
        ensures value { finds_item self.old index (option_copied_mut result) };
}

impl<K: KeyText, V> LendMember for HashMap<K, V, ObjectHasher> {
    type Output = V;

    ghost finds_member = { λ m k v. v ≡ lookup k m.entries };

    ghost writes_member = { λ m k w n. n ≡ with_value m k w };

    ghost keeps_members = { λ m n. n ≡ m };

    fn member_mut(&mut self, key: &str) -> Option<&mut V> {
        self.get_mut(key)
    }
}

impl<V> LendItem for Vec<V> {
    type Output = V;

    ghost finds_item = { λ v i x. x ≡ slice_get v.items i };

    ghost writes_item = { λ v i w n. n ≡ with_item v i w };

    ghost keeps_items = { λ v n. n ≡ v };

    fn item_mut(&mut self, index: usize) -> Option<&mut V> {
        self.get_mut(index)
    }
}

impl<T: KeyText> LendMember for Document<T> {
    type Output = Document<T>;

    ghost use Rattle.sj_document.specs.Document.{document_tree};

    ghost finds_member = { λ d k v. option_map (document_tree T.text_of) v ≡ find k (document_tree T.text_of d) };

    ghost writes_member = { λ d k w n. document_tree T.text_of n ≡ set_found (by_key k) (document_tree T.text_of w) (document_tree T.text_of d) };

    ghost keeps_members = { λ d n. document_tree T.text_of n ≡ document_tree T.text_of d };

    fn member_mut(&mut self, key: &str) -> Option<&mut Document<T>> {
        self.get_mut(key)
    }
}

impl<T: KeyText> LendItem for Document<T> {
    type Output = Document<T>;

    ghost use Rattle.sj_document.specs.Document.{document_tree};

    ghost finds_item = { λ d i v. option_map (document_tree T.text_of) v ≡ nth i (document_tree T.text_of d) };

    ghost writes_item = { λ d i w n. document_tree T.text_of n ≡ set_found (by_place i) (document_tree T.text_of w) (document_tree T.text_of d) };

    ghost keeps_items = { λ d n. document_tree T.text_of n ≡ document_tree T.text_of d };

    fn item_mut(&mut self, index: usize) -> Option<&mut Document<T>> {
        self.get_idx_mut(index)
    }
}
