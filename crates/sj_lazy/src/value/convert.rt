//! Copies of a lazy value, and what it is turned into.

ghost use Rattle.std.specs.Prelude.{◌≡◌, ◌≢◌, Ok, IfOk, IsOk, IsSome, OnErr, true, not, option_map, is_some};
ghost use Rattle.std.specs.Cow.{cow_str_bytes};
ghost use Rattle.sj_document.specs.Document.{document_tree};
ghost use Rattle.sj_lazy.specs.Value.{value_tree, value_choice, form, of_lent, of_owned, lends_owned};
ghost use Rattle.sj_text_core.specs.Reads.{as_text};

use super::{Lazy, Shared, Value};
use crate::upgrade::{Lent, Upgrade};
use sj_document::Document;
use sj_object::KeyText;
use std::alloc::{AllocError, Global};
use std::borrow::CowStr;

impl<P: Upgrade<T> + Drop, B: Lent<T> + Drop, T: KeyText + Drop> Lazy<P, B, T> {
    ghost use Rattle.sj_lazy.specs.Value.{lazy_tree, lazy_kept, on_tape, owned};

    /// The document: of a tape the one that keeps the member of each key that counts. A value that
    /// owns its document asks for no memory; a refused one is given up.
    pub fn into_value(self, alloc: Global) -> Result<Document<T>, AllocError>
        ensures value { IfOk result (λ v. document_tree T.text_of v ≡ lazy_kept P.part_kept B.lent_tree T.text_of self) }
        ensures succeeds { IsSome (owned T.text_of self) → IsOk result }
    {
        match self {
            Lazy::Tape(part) => part.upgrade(alloc),
            Lazy::Value(Shared::Borrowed(lent)) => lent.copied(alloc),
            Lazy::Value(Shared::Owned(value)) => Ok(value),
        }
    }

    /// The same, with no document lent: a tape stays a tape, a document that is lent is copied. Only
    /// that asks for memory; a refused one is given up.
    pub fn into_owned(self, alloc: Global) -> Result<Self, AllocError>
        ensures tree { IfOk result (λ v. lazy_tree P.part_tree B.lent_tree T.text_of v ≡ lazy_tree P.part_tree B.lent_tree T.text_of self) }
        ensures form { IfOk result (λ v. on_tape v ≡ on_tape self) }
        ensures owned { IfOk result (λ v. is_some (owned T.text_of v) ≡ not (on_tape v)) }
        ensures same { form self ≢ of_lent → result ≡ Ok self }
    {
        match self {
            Lazy::Tape(part) => Ok(Lazy::Tape(part)),
            Lazy::Value(Shared::Borrowed(lent)) => {
                Ok(Lazy::Value(Shared::Owned(lent.copied(alloc)?)))
            }
            Lazy::Value(Shared::Owned(value)) => Ok(Lazy::Value(Shared::Owned(value))),
        }
    }
}

/// A copy keeps the form and the choice. Only an owned document asks for memory.
impl<'b, 't, 'i> Clone for Value<'b, 't, 'i> {
    ghost is_clone = { λ v w. (value_tree w ≡ value_tree v) × (form w ≡ form v) × (value_choice w ≡ value_choice v) };

    ghost is_infallible = { λ v. form v ≢ of_owned };

    fn clone(&self) -> Result<Self, AllocError> {
        match self {
            Lazy::Tape(part) => Ok(Lazy::Tape(*part)),
            Lazy::Value(Shared::Borrowed(lent)) => Ok(Lazy::Value(Shared::Borrowed(*lent))),
            Lazy::Value(Shared::Owned(value)) => Ok(Lazy::Value(Shared::Owned(value.clone()?))),
        }
    }
}

impl<'b, 't, 'i> Value<'b, 't, 'i> {
    /// The text, where it is one. It is refused only for want of memory, and asks for some only
    /// where a text behind a lent document owns its bytes.
    pub fn into_string(self) -> Result<Option<CowStr<'i>>, AllocError>
        ensures text { IfOk result (λ s. option_map cow_str_bytes s ≡ as_text (value_tree self.entry)) }
        ensures refused { OnErr result ((lends_owned self.entry ≡ true) × IsSome (as_text (value_tree self.entry))) }
    {
        match self {
            Lazy::Tape(part) => match part.into_string() {
                Some(text) => Ok(Some(CowStr::Borrowed(text))),
                None => Ok(None),
            },
            Lazy::Value(Shared::Borrowed(lent)) => match lent {
                Document::String(CowStr::Borrowed(text)) => Ok(Some(CowStr::Borrowed(*text))),
                Document::String(CowStr::Owned(text)) => Ok(Some(CowStr::Owned(text.clone()?))),
                _ => Ok(None),
            },
            Lazy::Value(Shared::Owned(value)) => Ok(value.into_string()),
        }
    }
}
