//! Keys that are seen as their texts.

ghost use Rattle.std.specs.Prelude.{◌≡◌, ℕ, List, Bool, true, string_bytes, IsTrue, IfOk};
ghost use Rattle.std.specs.Bool.{Decides};
ghost use Rattle.std.specs.Cow.{cow_str_bytes};
ghost use Rattle.std.proofs.lemmas.Slice.Eq.{bytes_eq-Decides};
ghost use Rattle.sj_object.specs.Keys.{is_borrowed};

use std::alloc::{AllocError, Global};
use std::borrow::CowStr;

/// A key with a text. Two keys are equal exactly if their texts are.
pub trait KeyText: Eq {
    /// The bytes of the text.
    ghost text_of: { Self → List ℕ };

    /// The text.
    fn text(&self) -> &str
        ensures { result.now ≡ text_of self.now };

    ghost equal_texts: { (a b : Self) → Decides (Self.PartialEq.eq a b) (text_of a ≡ text_of b) };
}

// Why so: docs/REFUSED.md, "`Builder` is split".
/// A key that documents are made with.
pub trait KeyMade: KeyText + Sized + Drop {
    /// What the keys that `KeyOf::of` makes pass.
    ghost is_made: { Self → Bool };
}

/// A key that can be made of a text that lives as long as `'de`.
pub trait KeyOf<'de>: KeyMade {
    /// The key with that text. It is refused only for want of memory.
    fn of(alloc: Global, text: &'de str) -> Result<Self, AllocError>
        ensures text { IfOk result (λ k. Self.text_of k ≡ text.now) }
        ensures property { IfOk result (λ k. IsTrue (Self.is_made k)) };
}

impl KeyText for String {
    ghost text_of = { string_bytes };

    ghost equal_texts = { λ a b. bytes_eq-Decides (string_bytes a) (string_bytes b) };

    fn text(&self) -> &str {
        self.as_str()
    }
}

impl KeyMade for String {
    ghost is_made = { λ _. true };
}

impl<'de> KeyOf<'de> for String {
    fn of(alloc: Global, text: &'de str) -> Result<Self, AllocError> {
        String::from_str(alloc, text)
    }
}

impl<'k> KeyText for &'k str {
    ghost text_of = { λ s. s.now };

    ghost equal_texts = { λ a b. bytes_eq-Decides a.now b.now };

    fn text(&self) -> &str {
        self
    }
}

impl<'k> KeyMade for &'k str {
    ghost is_made = { λ _. true };
}

impl<'de> KeyOf<'de> for &'de str {
    fn of(_alloc: Global, text: &'de str) -> Result<Self, AllocError> {
        Ok(text)
    }
}

impl<'k> KeyText for CowStr<'k> {
    ghost text_of = { cow_str_bytes };

    ghost equal_texts = { λ a b. bytes_eq-Decides (cow_str_bytes a) (cow_str_bytes b) };

    fn text(&self) -> &str {
        self
    }
}

/// A key that is made lends its text.
impl<'k> KeyMade for CowStr<'k> {
    ghost is_made = { is_borrowed };
}

impl<'de> KeyOf<'de> for CowStr<'de> {
    fn of(_alloc: Global, text: &'de str) -> Result<Self, AllocError> {
        Ok(CowStr::Borrowed(text))
    }
}
