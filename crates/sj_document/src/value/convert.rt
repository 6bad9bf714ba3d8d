//! Documents made anew with texts of another kind.

ghost use Rattle.std.specs.Prelude.{◌≡◌, IfOk, map};
ghost use Rattle.sj_object.specs.Members.{entry_members};
ghost use Rattle.sj_document.specs.Document.{document_tree};

use crate::value::piled::{Begun, LEVELS, Source, make_piled};
use crate::value::taken::Taken;
use crate::value::{Document, Object};
use sj_object::{HashMap, KeyText, MapOf, ObjectHasher};
use std::alloc::{AllocError, Global};
use std::borrow::CowStr;
use std::vec;

/// A text that is made of one of another kind.
pub(crate) trait TextFrom<T: KeyText>: KeyText {
    /// The same text. It is refused only for want of memory, and `text` is then given up.
    fn text_from(alloc: Global, text: T) -> Result<Self, AllocError>
        ensures { IfOk result (λ made. Self.text_of made ≡ T.text_of text) };
}

/// A lent text is copied, an owned one is moved.
impl<'v> TextFrom<CowStr<'v>> for String {
    fn text_from(alloc: Global, text: CowStr<'v>) -> Result<String, AllocError> {
        match text {
            CowStr::Borrowed(text) => String::from_str(alloc, text),
            CowStr::Owned(text) => Ok(text),
        }
    }
}

/// The text is moved.
impl<'v> TextFrom<String> for CowStr<'v> {
    fn text_from(_alloc: Global, text: String) -> Result<CowStr<'v>, AllocError> {
        Ok(CowStr::Owned(text))
    }
}

/// A lent text is copied, an owned one is moved.
impl<'v> TextFrom<CowStr<'v>> for CowStr<'static> {
    fn text_from(alloc: Global, text: CowStr<'v>) -> Result<CowStr<'static>, AllocError> {
        Ok(CowStr::Owned(String::text_from(alloc, text)?))
    }
}

/// The document with the same tree, whose texts are made of the old ones.
pub(crate) fn convert<T: KeyText + Drop, U: TextFrom<T> + Drop>(
    alloc: Global,
    value: Document<T>,
) -> Result<Document<U>, AllocError>
    ensures { IfOk result (λ v. document_tree U.text_of v ≡ document_tree T.text_of value) }
{
    convert_within(alloc, value, LEVELS)
}

/// The same, with so many levels before the pile.
#[cycle(convert)]
fn convert_within<T: KeyText + Drop, U: TextFrom<T> + Drop>(
    alloc: Global,
    value: Document<T>,
    levels: usize,
) -> Result<Document<U>, AllocError>
    ensures { IfOk result (λ v. document_tree U.text_of v ≡ document_tree T.text_of value) }
{
    if levels == 0 {
        return convert_piled(alloc, value);
    }
    match value.take_apart() {
        Taken::Static(scalar) => Ok(Document::Static(scalar)),
        Taken::String(text) => Ok(Document::String(U::text_from(alloc, text)?)),
        Taken::Array(items) => {
            let items = convert_items(alloc, Box::into_inner(items), levels - 1)?;
            Ok(Document::Array(Box::new(alloc, items)?))
        }
        Taken::Object(members) => {
            let members = convert_members(alloc, Box::into_inner(members), levels - 1)?;
            Ok(Document::Object(Box::new(alloc, members)?))
        }
    }
}

#[cycle(convert)]
fn convert_items<T: KeyText + Drop, U: TextFrom<T> + Drop>(
    alloc: Global,
    items: Vec<Document<T>>,
    levels: usize,
) -> Result<Vec<Document<U>>, AllocError>
    ensures { IfOk result (λ v. map (document_tree U.text_of) v.items ≡ map (document_tree T.text_of) items.items) }
{
    let mut made = Vec::with_capacity(alloc, items.len())?;
    for item in items {
        made.push(convert_within(alloc, item, levels)?)?;
    }
    Ok(made)
}

#[cycle(convert)]
fn convert_members<T: KeyText + Drop, U: TextFrom<T> + Drop>(
    alloc: Global,
    members: Object<T>,
    levels: usize,
) -> Result<Object<U>, AllocError>
    ensures { IfOk result (λ m. entry_members (document_tree U.text_of) m.entries ≡ entry_members (document_tree T.text_of) members.entries) }
{
    let mut made = HashMap::with_capacity_and_hasher(
        alloc,
        members.len(),
        ObjectHasher::default(),
    )?;
    for (key, member) in members {
        let name = U::text_from(alloc, key)?;
        let member = convert_within(alloc, member, levels)?;
        made.set(name, member)?;
    }
    Ok(made)
}

/// The document made with a pile. It stands apart, so that a level takes no room of the stack for it.
#[cold]
#[inline(never)]
fn convert_piled<T: KeyText + Drop, U: TextFrom<T> + Drop>(
    alloc: Global,
    value: Document<T>,
) -> Result<Document<U>, AllocError>
    ensures { IfOk result (λ v. document_tree U.text_of v ≡ document_tree T.text_of value) }
{
    make_piled::<Document<T>, U>(value, alloc)
}

impl<T: KeyText + Drop, U: TextFrom<T> + Drop> Source<U> for Document<T> {
    type Items = vec::IntoIter<Document<T>>;

    type Members = sj_object::IntoIter<T, Document<T>>;

    ghost use Rattle.std.specs.Vec.Iter.{into_iter_items};

    ghost tree_of = { document_tree T.text_of };

    ghost items_left = { λ it. map (document_tree T.text_of) (into_iter_items it) };

    ghost members_left = { λ it. map (λ p. (T.text_of p.0, document_tree T.text_of p.1)) it };

    fn begin(
        self,
        alloc: Global,
    ) -> Result<
        Begun<vec::IntoIter<Document<T>>, sj_object::IntoIter<T, Document<T>>, U>,
        AllocError,
    > {
        match self.take_apart() {
            Taken::Static(scalar) => Ok(Begun::Leaf(Document::Static(scalar))),
            Taken::String(text) => Ok(Begun::Leaf(Document::String(U::text_from(alloc, text)?))),
            Taken::Array(items) => {
                let len = items.len();
                Ok(Begun::Items(Box::into_inner(items).into_iter(), len))
            }
            Taken::Object(members) => {
                let len = members.len();
                Ok(Begun::Members(Box::into_inner(members).into_iter(), len))
            }
        }
    }

    fn next_item(items: &mut vec::IntoIter<Document<T>>) -> Option<Document<T>> {
        items.next()
    }

    fn next_member(
        members: &mut sj_object::IntoIter<T, Document<T>>,
        alloc: Global,
    ) -> Result<Option<(U, Document<T>)>, AllocError> {
        match members.next() {
            Some((key, value)) => Ok(Some((U::text_from(alloc, key)?, value))),
            None => Ok(None),
        }
    }
}
