//! Documents of any depth, made by edits.

use crate::fault::Fault;
use sj_document::{Document, OwnedValue};
use sj_object::KeyText;
use std::alloc::{AllocError, Global};
use std::borrow::CowStr;

/// A text that is made of one that lives as long as the program.
pub trait FromText: KeyText + Drop {
    fn from_text(alloc: Global, text: &'static str) -> Result<Self, AllocError>;
}

impl FromText for String {
    fn from_text(alloc: Global, text: &'static str) -> Result<String, AllocError> {
        String::from_str(alloc, text)
    }
}

impl FromText for CowStr<'static> {
    fn from_text(_alloc: Global, text: &'static str) -> Result<CowStr<'static>, AllocError> {
        Ok(CowStr::Borrowed(text))
    }
}

/// So many levels around an empty array: by turns, from within, an object whose member `k` is what is
/// within, and an array whose second item is.
pub fn document<T: FromText>(alloc: Global, levels: usize) -> Result<Document<T>, Fault> {
    let mut inner = Document::array(alloc)?;
    for level in 0..levels {
        inner = if level % 2 == 1 {
            array_around(alloc, level, inner)?
        } else {
            object_around(alloc, inner)?
        };
    }
    Ok(inner)
}

fn array_around<T: FromText>(
    alloc: Global,
    level: usize,
    inner: Document<T>,
) -> Result<Document<T>, Fault> {
    let mut outer = Document::array(alloc)?;
    push(&mut outer, Document::from(level))?;
    push(&mut outer, inner)?;
    Ok(outer)
}

fn push<T: FromText>(array: &mut Document<T>, item: Document<T>) -> Result<(), Fault> {
    if array.push(item).is_err() {
        return Err(Fault::OutOfMemory);
    }
    Ok(())
}

fn object_around<T: FromText>(alloc: Global, inner: Document<T>) -> Result<Document<T>, Fault> {
    let mut outer = Document::object(alloc)?;
    insert(alloc, &mut outer, "a", Document::null())?;
    insert(alloc, &mut outer, "k", inner)?;
    let text = Document::String(T::from_text(alloc, "é\"")?);
    insert(alloc, &mut outer, "z", text)?;
    Ok(outer)
}

fn insert<T: FromText>(
    alloc: Global,
    object: &mut Document<T>,
    key: &'static str,
    value: Document<T>,
) -> Result<(), Fault> {
    if object.insert(T::from_text(alloc, key)?, value).is_err() {
        return Err(Fault::OutOfMemory);
    }
    Ok(())
}

/// So many objects around an empty one, each the member `k` of the next.
pub fn objects(alloc: Global, levels: usize) -> Result<OwnedValue, Fault> {
    let mut inner = OwnedValue::object(alloc)?;
    for _ in 0..levels {
        let mut outer = OwnedValue::object(alloc)?;
        insert(alloc, &mut outer, "k", inner)?;
        inner = outer;
    }
    Ok(inner)
}
