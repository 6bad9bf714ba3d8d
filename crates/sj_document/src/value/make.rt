//! Documents of what takes memory.

ghost use Rattle.std.specs.Prelude.{◌≡◌, IfOk, string_bytes};
ghost use Rattle.std.specs.Cow.{cow_str_bytes};
ghost use Rattle.std.specs.List.Sorted.{IsPermutation};
ghost use Rattle.std.specs.String.{string_cmp};
ghost use Rattle.sj_text_core.specs.Tree.{text, obj, no_members};
ghost use Rattle.sj_object.specs.Members.{entry_members};
ghost use Rattle.sj_document.specs.Document.{document_tree, put_pairs};
ghost use Rattle.sj_document.specs.SameWith.{SameEach};
ghost use Rattle.sj_document.specs.Makes.{IsArrayOf, IsInByteOrder, IsObjectInByteOrder};

use crate::value::convert::{TextFrom, convert};
use crate::value::{BorrowedValue, Document, Object, OwnedValue};
use sj_object::{KeyText, MapOf, ObjectHasher};
use sj_text_core::TryMake;
use std::alloc::{AllocError, Global};
use std::borrow::CowStr;
use std::cmp::Ordering;
use std::collections;
use std::hash::BuildHasher;

/// An object of the members.
impl<T: KeyText + Drop> TryMake<Object<T>> for Document<T> {
    ghost makes = { λ m v. document_tree T.text_of v ≡ obj (entry_members (document_tree T.text_of) m.entries) };

    fn try_make(alloc: Global, members: Object<T>) -> Result<Self, AllocError> {
        Ok(Document::Object(Box::new(alloc, members)?))
    }
}

/// An array of what each value becomes, in order.
impl<T: KeyText + Drop, X: Into<Document<T>> + Drop> TryMake<Vec<X>> for Document<T> {
    ghost makes = { λ xs v. IsArrayOf T.text_of X.converts xs.items (document_tree T.text_of v) };

    fn try_make(alloc: Global, values: Vec<X>) -> Result<Self, AllocError> {
        let items = all_into(alloc, values)?;
        Ok(Document::Array(Box::new(alloc, items)?))
    }
}

/// What each value becomes, in order.
fn all_into<T: KeyText + Drop, X: Into<Document<T>> + Drop>(
    alloc: Global,
    values: Vec<X>,
) -> Result<Vec<Document<T>>, AllocError>
    ensures { IfOk result (λ v. SameEach (λ d x. X.converts x d) v.items values.items) }
{
    let mut items = Vec::with_capacity(alloc, values.len())?;
    for value in values {
        items.push(value.into())?;
    }
    Ok(items)
}

/// An object of the map's pairs, in the byte order of their keys.
impl<S: BuildHasher + Drop> TryMake<collections::HashMap<String, OwnedValue, S>> for OwnedValue {
    ghost makes = { λ m v. IsObjectInByteOrder m.entries (document_tree string_bytes v) };

    fn try_make(
        alloc: Global,
        map: collections::HashMap<String, OwnedValue, S>,
    ) -> Result<Self, AllocError> {
        let members = put_all(alloc, in_order(alloc, map)?)?;
        Ok(Document::Object(Box::new(alloc, members)?))
    }
}

fn by_key(a: &(String, OwnedValue), b: &(String, OwnedValue)) -> Ordering
    ensures { result ≡ string_cmp a.now.0 b.now.0 }
{
    a.0.cmp(&b.0)
}

/// The map's pairs in the byte order of their keys.
fn in_order<S: BuildHasher + Drop>(
    alloc: Global,
    map: collections::HashMap<String, OwnedValue, S>,
) -> Result<Vec<(String, OwnedValue)>, AllocError>
    ensures permutation { IfOk result (λ v. IsPermutation map.entries v.items) }
    ensures sorted { IfOk result (λ v. IsInByteOrder v.items) }
{
    let mut pairs = Vec::with_capacity(alloc, map.len())?;
    for pair in map {
        pairs.push(pair)?;
    }
    pairs.sort_by(by_key)?;
    Ok(pairs)
}

/// The pairs, inserted in turn.
fn put_all<T: KeyText + Drop>(
    alloc: Global,
    pairs: Vec<(T, Document<T>)>,
) -> Result<Object<T>, AllocError>
    ensures { IfOk result (λ m. entry_members (document_tree T.text_of) m.entries ≡ put_pairs T.text_of (document_tree T.text_of) no_members pairs.items) }
{
    let mut members = Object::with_capacity_and_hasher(
        alloc,
        pairs.len(),
        ObjectHasher::default(),
    )?;
    for (name, value) in pairs {
        members.set(name, value)?;
    }
    Ok(members)
}

/// A copy of the text.
impl<'s> TryMake<&'s str> for OwnedValue {
    ghost makes = { λ s v. document_tree string_bytes v ≡ text s.now };

    fn try_make(alloc: Global, string: &'s str) -> Result<Self, AllocError> {
        Ok(Document::String(String::from_str(alloc, string)?))
    }
}

/// A copy of the text.
impl<'s> TryMake<&'s String> for OwnedValue {
    ghost makes = { λ s v. document_tree string_bytes v ≡ text (string_bytes s.now) };

    fn try_make(alloc: Global, string: &'s String) -> Result<Self, AllocError> {
        Ok(Document::String(String::from_str(alloc, string.as_str())?))
    }
}

/// The text, copied where it is lent.
impl<'s> TryMake<CowStr<'s>> for OwnedValue {
    ghost makes = { λ s v. document_tree string_bytes v ≡ text (cow_str_bytes s) };

    fn try_make(alloc: Global, string: CowStr<'s>) -> Result<Self, AllocError> {
        Ok(Document::String(String::text_from(alloc, string)?))
    }
}

/// The same document with each text owned: a lent one is copied, an owned one is moved.
impl<'v> TryMake<BorrowedValue<'v>> for OwnedValue {
    ghost makes = { λ b v. document_tree string_bytes v ≡ document_tree cow_str_bytes b };

    fn try_make(alloc: Global, value: BorrowedValue<'v>) -> Result<Self, AllocError> {
        convert(alloc, value)
    }
}

/// The same document, with its texts moved.
impl<'v> TryMake<OwnedValue> for BorrowedValue<'v> {
    ghost makes = { λ o v. document_tree cow_str_bytes v ≡ document_tree string_bytes o };

    fn try_make(alloc: Global, value: OwnedValue) -> Result<Self, AllocError> {
        convert(alloc, value)
    }
}

impl<'v> BorrowedValue<'v> {
    /// The same document with each text owned: a lent one is copied, an owned one is moved.
    pub fn into_static(self, alloc: Global) -> Result<BorrowedValue<'static>, AllocError>
        ensures { IfOk result (λ v. document_tree cow_str_bytes v ≡ document_tree cow_str_bytes self.entry) }
    {
        convert(alloc, self)
    }

    /// A copy of the document with each text owned.
    pub fn clone_static(&self, alloc: Global) -> Result<BorrowedValue<'static>, AllocError>
        ensures { IfOk result (λ v. document_tree cow_str_bytes v ≡ document_tree cow_str_bytes self.now) }
    {
        self.clone()?.into_static(alloc)
    }
}

impl<T: KeyText + Drop> Document<T> {
    ghost use Rattle.std.specs.Prelude.{List, map};
    ghost use Rattle.std.specs.Iterator.{IsFinite, Drains};
    ghost use Rattle.sj_text_core.specs.Tree.{list, items_from};

    /// An array of what the iterator gives, in order. Refused for want of memory, it gives up what
    /// it took.
    pub fn try_from_items<I: Iterator<Item = Document<T>> + Drop>(
        alloc: Global,
        items: I,
    ) -> Result<Document<T>, AllocError>
        requires can { I.can_next items }
        requires ends { IsFinite (I.remaining items) }
        ensures { IfOk result (λ d. (xs : List (Document T)) × Drains I.next_gives items xs × (document_tree T.text_of d ≡ list (items_from (map (document_tree T.text_of) xs)))) }
    {
        let mut all = Vec::new(alloc);
        for item in items {
            all.push(item)?;
        }
        Ok(Document::Array(Box::new(alloc, all)?))
    }

    /// An object of the pairs that the iterator gives, inserted in turn: a key that comes again
    /// takes the later value, in its first place. Refused for want of memory, it gives up what it
    /// took.
    pub fn try_from_pairs<I: Iterator<Item = (T, Document<T>)> + Drop>(
        alloc: Global,
        pairs: I,
    ) -> Result<Document<T>, AllocError>
        requires can { I.can_next pairs }
        requires ends { IsFinite (I.remaining pairs) }
        ensures { IfOk result (λ d. (xs : List (T × Document T)) × Drains I.next_gives pairs xs × (document_tree T.text_of d ≡ obj (put_pairs T.text_of (document_tree T.text_of) no_members xs))) }
    {
        let mut members = Object::with_capacity_and_hasher(alloc, 0, ObjectHasher::default())?;
        for (key, value) in pairs {
            members.set(key, value)?;
        }
        Ok(Document::Object(Box::new(alloc, members)?))
    }
}
