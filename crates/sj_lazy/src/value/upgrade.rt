//! The upgrade: what makes a lazy value an owned document, and lends it for writing.

ghost use Rattle.std.specs.Prelude.{◌≡◌, Some, IfOk, OnOk, OnErr, OnSome, IsSome, IsOk, option_map};
ghost use Rattle.sj_document.specs.Document.{document_tree};
ghost use Rattle.sj_document.specs.Rows.{document_row};

use super::{Lazy, Shared};
use crate::upgrade::{Lent, Upgrade};
use sj_document::Document;
use sj_object::KeyText;
use std::alloc::{AllocError, Global};

impl<B, T: KeyText> Shared<B, T> {
    ghost use Rattle.std.specs.Borrow.{LendsSo, sem};
    ghost use Rattle.sj_lazy.specs.Value.{owned_of};
    ghost use Rattle.sj_lazy.specs.inner.Rows.{shared_row};

    /// The document, where it is owned.
    fn owned_mut(&mut self) -> Option<&mut Document<T>>
        ensures* writes_back { sem 𝓛 (LendsSo (shared_row B.row T.row T.KeyText) (document_row T.row T.KeyText) self.entry result
            (λ n w. OnSome result (owned_of T.text_of n ≡ Some (document_tree T.text_of w))) (λ n. n ≡ self.old)) }
        ensures value { option_map (λ v. document_tree T.text_of v.now) result ≡ owned_of T.text_of self.old }
    {
        match self {
            Shared::Owned(value) => Some(value),
            Shared::Borrowed(_) => None,
        }
    }
}

impl<P, B, T: KeyText> Lazy<P, B, T> {
    ghost use Rattle.std.specs.Borrow.{LendsSo, sem};
    ghost use Rattle.sj_lazy.specs.Value.{owned};
    ghost use Rattle.sj_lazy.specs.Rows.{lazy_row};

    /// The document, where it is owned.
    fn owned_mut(&mut self) -> Option<&mut Document<T>>
        ensures* writes_back { sem 𝓛 (LendsSo (lazy_row P.row B.row T.row T.KeyText) (document_row T.row T.KeyText) self.entry result
            (λ n w. OnSome result (owned T.text_of n ≡ Some (document_tree T.text_of w))) (λ n. n ≡ self.old)) }
        ensures value { option_map (λ v. document_tree T.text_of v.now) result ≡ owned T.text_of self.old }
    {
        match self {
            Lazy::Value(value) => value.owned_mut(),
            Lazy::Tape(_) => None,
        }
    }
}

impl<P: Upgrade<T> + Drop, B: Lent<T> + Drop, T: KeyText + Drop> Lazy<P, B, T> {
    ghost use Rattle.std.specs.Borrow.{LendsSoOk, sem};
    ghost use Rattle.sj_lazy.specs.Value.{lazy_kept, owned};
    ghost use Rattle.sj_lazy.specs.Rows.{lazy_row};

    /// Makes it an owned document. The document is built before the tape or the lent document is
    /// let go; refused, the value is as it was.
    fn own(&mut self, alloc: Global) -> Result<(), AllocError>
        ensures kept { OnOk result (owned T.text_of self.new ≡ Some (lazy_kept P.part_kept B.lent_tree T.text_of self.old)) }
        ensures refused { OnErr result (self.new ≡ self.old) }
        ensures succeeds { IsSome (owned T.text_of self.old) → IsOk result }
    {
        let value = match self {
            Lazy::Tape(part) => part.upgrade(alloc)?,
            Lazy::Value(Shared::Borrowed(lent)) => lent.copied(alloc)?,
            Lazy::Value(Shared::Owned(_)) => return Ok(()),
        };
        *self = Lazy::Value(Shared::Owned(value));
        Ok(())
    }

    /// The document, to write, once it is owned. Refused, it is as it was.
    pub fn as_mut(&mut self, alloc: Global) -> Result<&mut Document<T>, AllocError>
        ensures* writes_back { sem 𝓛 (LendsSoOk (lazy_row P.row B.row T.row T.KeyText) (document_row T.row T.KeyText) self.entry result
            (λ n w. owned T.text_of n ≡ Some (document_tree T.text_of w)) (λ n. n ≡ self.old)) }
        ensures value { IfOk result (λ v. document_tree T.text_of v.now ≡ lazy_kept P.part_kept B.lent_tree T.text_of self.old) }
        ensures succeeds { IsSome (owned T.text_of self.old) → IsOk result }
    {
        self.own(alloc)?;
        match self.owned_mut() {
            Some(value) => Ok(value),
            None => Err(AllocError),
        }
    }
}
