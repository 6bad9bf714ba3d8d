//! Copies.

ghost use Rattle.std.specs.Prelude.{◌≡◌, IfOk, map};
ghost use Rattle.sj_object.specs.Members.{entry_members};
ghost use Rattle.sj_document.specs.Document.{document_tree};

use crate::value::piled::{Begun, LEVELS, Source, make_piled};
use crate::value::{Document, Object};
use sj_object::{HashMap, KeyText, MapOf};
use std::alloc::{AllocError, Global};
use std::borrow::CowStr;
use std::slice;

/// A text that can be copied.
pub trait CopyText: KeyText {
    fn copy(&self) -> Result<Self, AllocError>
        ensures { IfOk result (λ c. Self.text_of c ≡ Self.text_of self.now) };
}

impl CopyText for String {
    fn copy(&self) -> Result<String, AllocError> {
        self.clone()
    }
}

impl<'v> CopyText for CowStr<'v> {
    fn copy(&self) -> Result<CowStr<'v>, AllocError> {
        match self {
            CowStr::Borrowed(s) => Ok(CowStr::Borrowed(*s)),
            CowStr::Owned(s) => Ok(CowStr::Owned(s.clone()?)),
        }
    }
}

impl<T: CopyText + Drop> Clone for Document<T> {
    ghost is_clone = { λ v w. document_tree T.text_of w ≡ document_tree T.text_of v };

    fn clone(&self) -> Result<Document<T>, AllocError> {
        copy(self, LEVELS)
    }
}

/// The copy, with so many levels before the pile. It is taken into its callers, so that a scalar or a
/// text takes no call.
#[inline(always)]
#[cycle(copy)]
fn copy<T: CopyText + Drop>(value: &Document<T>, levels: usize) -> Result<Document<T>, AllocError>
    ensures { IfOk result (λ v. document_tree T.text_of v ≡ document_tree T.text_of value.now) }
{
    match value {
        Document::Static(scalar) => Ok(Document::Static(*scalar)),
        Document::String(text) => Ok(Document::String(text.copy()?)),
        Document::Array(items) => {
            if levels == 0 {
                return copy_piled(value, *items.allocator());
            }
            let copies = copy_items(items, levels - 1)?;
            Ok(Document::Array(Box::new(*items.allocator(), copies)?))
        }
        Document::Object(members) => {
            if levels == 0 {
                return copy_piled(value, members.allocator());
            }
            let copies = copy_members(members, levels - 1)?;
            Ok(Document::Object(Box::new(members.allocator(), copies)?))
        }
    }
}

#[inline(never)]
#[cycle(copy)]
fn copy_items<T: CopyText + Drop>(
    items: &Vec<Document<T>>,
    levels: usize,
) -> Result<Vec<Document<T>>, AllocError>
    ensures { IfOk result (λ v. map (document_tree T.text_of) v.items ≡ map (document_tree T.text_of) items.now.items) }
{
    let mut copies = Vec::with_capacity(*items.allocator(), items.len())?;
    for item in items {
        copies.push(copy(item, levels)?)?;
    }
    Ok(copies)
}

#[inline(never)]
#[cycle(copy)]
fn copy_members<T: CopyText + Drop>(
    members: &Object<T>,
    levels: usize,
) -> Result<Object<T>, AllocError>
    ensures { IfOk result (λ m. entry_members (document_tree T.text_of) m.entries ≡ entry_members (document_tree T.text_of) members.now.entries) }
{
    let mut copies = HashMap::with_capacity_and_hasher(
        members.allocator(),
        members.len(),
        *members.hasher(),
    )?;
    for (key, member) in members.iter() {
        let name = key.copy()?;
        let copied = copy(member, levels)?;
        copies.set(name, copied)?;
    }
    Ok(copies)
}

/// The copy, with a pile. It stands apart, so that a level of copies takes no room of the stack for it.
#[cold]
#[inline(never)]
fn copy_piled<T: CopyText + Drop>(
    value: &Document<T>,
    alloc: Global,
) -> Result<Document<T>, AllocError>
    ensures { IfOk result (λ v. document_tree T.text_of v ≡ document_tree T.text_of value.now) }
{
    make_piled::<&Document<T>, T>(value, alloc)
}

impl<'a, T: CopyText + Drop> Source<T> for &'a Document<T> {
    type Items = slice::Iter<'a, Document<T>>;

    type Members = sj_object::Iter<'a, T, Document<T>>;

    ghost use Rattle.std.specs.Slice.Iter.{iter_rest};

    ghost tree_of = { λ v. document_tree T.text_of v.now };

    ghost items_left = { λ it. map (document_tree T.text_of) (iter_rest it) };

    ghost members_left = { λ it. map (λ p. (T.text_of p.0, document_tree T.text_of p.1)) it };

    fn begin(
        self,
        _alloc: Global,
    ) -> Result<
        Begun<slice::Iter<'a, Document<T>>, sj_object::Iter<'a, T, Document<T>>, T>,
        AllocError,
    > {
        match self {
            Document::Static(scalar) => Ok(Begun::Leaf(Document::Static(*scalar))),
            Document::String(text) => Ok(Begun::Leaf(Document::String(text.copy()?))),
            Document::Array(items) => Ok(Begun::Items(items.iter(), items.len())),
            Document::Object(members) => Ok(Begun::Members(members.iter(), members.len())),
        }
    }

    fn next_item(items: &mut slice::Iter<'a, Document<T>>) -> Option<&'a Document<T>> {
        items.next()
    }

    fn next_member(
        members: &mut sj_object::Iter<'a, T, Document<T>>,
        _alloc: Global,
    ) -> Result<Option<(T, &'a Document<T>)>, AllocError> {
        match members.next() {
            Some((key, value)) => Ok(Some((key.copy()?, value))),
            None => Ok(None),
        }
    }
}
