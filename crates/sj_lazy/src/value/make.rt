//! Lazy values of what takes memory. Each owns its document.

ghost use Rattle.std.specs.Prelude.{◌≡◌, Some, IfOk, IsSomeAnd};
ghost use Rattle.std.specs.Cow.{cow_str_bytes};
ghost use Rattle.sj_object.specs.Members.{entry_members};
ghost use Rattle.sj_document.specs.Document.{document_tree, put_pairs};
ghost use Rattle.sj_document.specs.Makes.{IsArrayOf};
ghost use Rattle.sj_lazy.specs.Value.{owned};
ghost use Rattle.sj_text_core.specs.Tree.{list, obj, items_from, no_members};

use super::{Lazy, Shared, Value};
use sj_document::{BorrowedValue, Document, Object};
use sj_object::KeyText;
use sj_text_core::TryMake;
use std::alloc::{AllocError, Global};
use std::borrow::CowStr;

/// An object of the members.
impl<'b, 't, 'i> TryMake<Object<CowStr<'i>>> for Value<'b, 't, 'i> {
    ghost makes = { λ m v. owned cow_str_bytes v ≡ Some (obj (entry_members (document_tree cow_str_bytes) m.entries)) };

    fn try_make(alloc: Global, members: Object<CowStr<'i>>) -> Result<Self, AllocError> {
        Ok(Lazy::Value(Shared::Owned(Document::try_make(alloc, members)?)))
    }
}

/// An array of what each value becomes, in order.
impl<'b, 't, 'i, X: Into<BorrowedValue<'i>> + Drop> TryMake<Vec<X>> for Value<'b, 't, 'i> {
    ghost makes = { λ xs v. IsSomeAnd (owned cow_str_bytes v) (IsArrayOf cow_str_bytes X.converts xs.items) };

    fn try_make(alloc: Global, values: Vec<X>) -> Result<Self, AllocError> {
        Ok(Lazy::Value(Shared::Owned(Document::try_make(alloc, values)?)))
    }
}

impl<P, B, T: KeyText + Drop> Lazy<P, B, T> {
    ghost use Rattle.std.specs.Prelude.{List, map};
    ghost use Rattle.std.specs.Iterator.{IsFinite, Drains};

    /// An array of the documents that the iterator gives, in order. Refused for want of memory, it
    /// gives up what it took.
    pub fn try_from_items<I: Iterator<Item = Document<T>> + Drop>(
        alloc: Global,
        items: I,
    ) -> Result<Self, AllocError>
        requires can { I.can_next items }
        requires ends { IsFinite (I.remaining items) }
        ensures { IfOk result (λ v. (xs : List (Document T)) × Drains I.next_gives items xs × (owned T.text_of v ≡ Some (list (items_from (map (document_tree T.text_of) xs))))) }
    {
        let document = Document::try_from_items(alloc, items)?;
        Ok(Lazy::Value(Shared::Owned(document)))
    }

    /// An object of the pairs that the iterator gives, inserted in turn: a key that comes again
    /// takes the later value, in its first place. Refused for want of memory, it gives up what it
    /// took.
    pub fn try_from_pairs<I: Iterator<Item = (T, Document<T>)> + Drop>(
        alloc: Global,
        pairs: I,
    ) -> Result<Self, AllocError>
        requires can { I.can_next pairs }
        requires ends { IsFinite (I.remaining pairs) }
        ensures { IfOk result (λ v. (xs : List (T × Document T)) × Drains I.next_gives pairs xs × (owned T.text_of v ≡ Some (obj (put_pairs T.text_of (document_tree T.text_of) no_members xs)))) }
    {
        let document = Document::try_from_pairs(alloc, pairs)?;
        Ok(Lazy::Value(Shared::Owned(document)))
    }
}
