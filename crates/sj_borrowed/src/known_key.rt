//! Keys that are looked up again and again, kept beside their hash.

ghost use Rattle.std.specs.Prelude.{◌≡◌, string_bytes};
ghost use Rattle.std.specs.Cow.{cow_str_bytes};
ghost use Rattle.sj_text_core.specs.Hash.{hash as hash_of_text};

mod change;
mod error;
mod insert;
mod lookup;
mod or_insert;
mod stored;
mod tape;
mod target;

pub use error::Error;
use sj_object::{KeyHasher, KeyText, ObjectHasher};
use std::alloc::AllocError;
use std::borrow::CowStr;
use std::marker::Model;
pub use stored::StoredKey;
pub use target::{KnownKeyTarget, KnownKeyTargetMut};

/// A key beside its hash, which is taken once, where the known key is made. Contracts see it as
/// its key.
///
/// ```
/// let key = KnownKey::from("topic");
/// key.insert(&mut document, Value::from("news"))?;
/// key.lookup(&document).is_some(); // true
/// ```
#[derive(Debug, Drop)]
pub struct KnownKey<'k> {
    key: CowStr<'k>,
    hash: u64,
}

impl<'k> Model for KnownKey<'k> {
    ghost use Rattle.std.specs.Prelude.{◌≡◌};
    ghost use Rattle.std.specs.Cow.{cow_str_bytes};
    ghost use Rattle.std.specs.declared.alloc.Global.{Global};
    ghost use Rattle.std.specs.declared.borrow.CowStr.{CowStr};
    ghost use Rattle.sj_text_core.specs.Hash.{hash as hash_of_text};

    ghost Value = { CowStr Global };

    ghost view = { λ k. k.key };

    ghost invariant = { λ k. k.hash ≡ hash_of_text (cow_str_bytes k.key) };
}

impl<'k> KnownKey<'k> {
    /// The key.
    ///
    /// ```
    /// let key = KnownKey::from(CowStr::Borrowed("count"));
    /// key.key(); // the text `count`, lent
    /// ```
    pub fn key(&self) -> &CowStr<'k>
        ensures { result.now ≡ self.now }
    {
        &self.key
    }

    /// The hash of the key's text.
    fn hash(&self) -> u64
        ensures { result ≡ hash_of_text (cow_str_bytes self.now) }
    {
        self.hash
    }
}

impl<'k> From<CowStr<'k>> for KnownKey<'k> {
    ghost from_gives = { λ key k. k ≡ key };

    fn from(key: CowStr<'k>) -> KnownKey<'k> {
        let hash = ObjectHasher::default().hash_text(key.text());
        KnownKey { key, hash }
    }
}

impl<'k> From<&'k str> for KnownKey<'k> {
    ghost from_gives = { λ text k. cow_str_bytes k ≡ text.now };

    fn from(text: &'k str) -> KnownKey<'k> {
        KnownKey::from(CowStr::Borrowed(text))
    }
}

impl<'k> From<&'k String> for KnownKey<'k> {
    ghost from_gives = { λ text k. cow_str_bytes k ≡ string_bytes text.now };

    fn from(text: &'k String) -> KnownKey<'k> {
        KnownKey::from(CowStr::Borrowed(text.as_str()))
    }
}

impl<'k> From<String> for KnownKey<'k> {
    ghost from_gives = { λ text k. cow_str_bytes k ≡ string_bytes text };

    fn from(text: String) -> KnownKey<'k> {
        KnownKey::from(CowStr::Owned(text))
    }
}

impl<'k> Clone for KnownKey<'k> {
    ghost use Rattle.sj_borrowed.specs.Inserts.{IsCopy};

    ghost is_clone = { IsCopy };

    fn clone(&self) -> Result<KnownKey<'k>, AllocError> {
        Ok(KnownKey {
            key: CowStr::copy_of(self)?,
            hash: self.hash,
        })
    }
}

impl<'k> PartialEq for KnownKey<'k> {
    ghost use Rattle.std.specs.Prelude.{bytes_eq};
    ghost use Rattle.std.specs.Ordering.{on};
    ghost use Rattle.std.specs.Cmp.{partial_equiv_from_equiv};
    ghost use Rattle.std.proofs.lemmas.Cmp.{on_equiv};
    ghost use Rattle.std.specs.Cmp.Lexicographic.{nat_list_eq_equiv};

    ghost eq = { on cow_str_bytes bytes_eq };

    ghost laws = { partial_equiv_from_equiv (on_equiv cow_str_bytes nat_list_eq_equiv) };

    fn eq(&self, other: &KnownKey<'k>) -> bool
        ensures { result ≡ bytes_eq (cow_str_bytes self.now) (cow_str_bytes other.now) }
    {
        self.hash == other.hash && self.key == other.key
    }
}

impl<'k> Eq for KnownKey<'k> {
    ghost use Rattle.std.proofs.lemmas.Cmp.{on_equiv};
    ghost use Rattle.std.specs.Cmp.Lexicographic.{nat_list_eq_equiv};

    ghost laws = { on_equiv cow_str_bytes nat_list_eq_equiv };
}
