//! What a known key is looked up in.

ghost use Rattle.std.specs.Prelude.{◌≡◌, ℕ, List, Option, option_map, OnSome};
ghost use Rattle.std.specs.Borrow.{LendsSo, LendsIf, sem};
ghost use Rattle.std.specs.Option.{option_copied, option_copied_mut};
ghost use Rattle.sj_text_core.specs.Find.{find};
ghost use Rattle.sj_text_core.specs.Hash.{hash as hash_of_text};
ghost use Rattle.sj_text_core.specs.Paths.{by_key, set_found};
ghost use Rattle.sj_object.specs.Edits.{lookup, with_value};
ghost use Rattle.sj_document.specs.Rows.{document_row, object_row};

use sj_document::{Document, Object};
use sj_object::{HashMap, KeyText, ObjectHasher};

/// What a known key is looked up in: a map, or a document.
pub trait KnownKeyTarget {
    /// The values of a map; of a document its own type.
    type Output;

    /// Holds of what is found at a text.
    ghost finds: { Self → List ℕ → Option Self.Output → Type 0 };

    /// The value of the key, which hashes to `hash`.
    fn at_hash(&self, hash: u64, key: &str) -> Option<&Self::Output>
        requires { hash ≡ hash_of_text key.now }
        ensures { finds self.now key.now (option_copied result) };
}

/// The same, to write.
pub trait KnownKeyTargetMut: KnownKeyTarget {
    /// Holds of what it was, a text, what was written at the text, and what it is then.
    ghost writes: { Self → List ℕ → Self.Output → Self → Type 0 };

    /// Holds of what it was and what it is, where nothing was found.
    ghost stays: { Self → Self → Type 0 };

    /// The value of the key, which hashes to `hash`, to write.
    fn at_hash_mut(&mut self, hash: u64, key: &str) -> Option<&mut Self::Output>
        requires { hash ≡ hash_of_text key.now }
        ensures* writes_back { sem 𝓛 (LendsSo Self.row Self.Output.row self.entry result (λ n w. OnSome result (writes self.old key.now w n)) (λ n. stays self.old n)) }
        ensures value { Self.finds self.old key.now (option_copied_mut result) };
}

impl<K: KeyText, V> KnownKeyTarget for HashMap<K, V, ObjectHasher> {
    type Output = V;

    ghost finds = { λ m k v. v ≡ lookup k m.entries };

    fn at_hash(&self, hash: u64, key: &str) -> Option<&V>
        requires { hash ≡ hash_of_text key.now }
        ensures { option_copied result ≡ lookup key.now self.now.entries }
    {
        self.get_hashed(hash, key)
    }
}

impl<K: KeyText, V> KnownKeyTargetMut for HashMap<K, V, ObjectHasher> {
    ghost writes = { λ m k w n. n ≡ with_value m k w };

    ghost stays = { λ m n. n ≡ m };

    fn at_hash_mut(&mut self, hash: u64, key: &str) -> Option<&mut V> {
        self.get_hashed_mut(hash, key)
    }
}

impl<T: KeyText> KnownKeyTarget for Document<T> {
    type Output = Document<T>;

    ghost use Rattle.sj_document.specs.Document.{document_tree};

    ghost finds = { λ d k v. option_map (document_tree T.text_of) v ≡ find k (document_tree T.text_of d) };

    fn at_hash(&self, hash: u64, key: &str) -> Option<&Document<T>>
        requires { hash ≡ hash_of_text key.now }
        ensures { option_map (λ v. document_tree T.text_of v.now) result ≡ find key.now (document_tree T.text_of self.now) }
    {
        self.as_object()?.get_hashed(hash, key)
    }
}

/// The value of the key among the members of an object, which hashes to `hash`, to write.
fn value_hashed_of<'a, T: KeyText>(
    members: &'a mut Object<T>,
    hash: u64,
    key: &str,
) -> Option<&'a mut Document<T>>
    requires { hash ≡ hash_of_text key.now }
    ensures* writes_back { sem 𝓛 (LendsIf (object_row T.row T.KeyText) (document_row T.row T.KeyText) members.entry result (with_value members.old key.now) members.old) }
    ensures value { option_copied_mut result ≡ lookup key.now members.old.entries }
{
    members.get_hashed_mut(hash, key)
}

impl<T: KeyText> KnownKeyTargetMut for Document<T> {
    ghost use Rattle.sj_document.specs.Document.{document_tree};

    ghost writes = { λ d k w n. document_tree T.text_of n ≡ set_found (by_key k) (document_tree T.text_of w) (document_tree T.text_of d) };

    ghost stays = { λ d n. document_tree T.text_of n ≡ document_tree T.text_of d };

    fn at_hash_mut(&mut self, hash: u64, key: &str) -> Option<&mut Document<T>> {
        match self.as_object_mut() {
            Some(members) => value_hashed_of(members, hash, key),
            None => None,
        }
    }
}
