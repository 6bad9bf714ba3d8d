//! Values of types of one's own from documents, and back: what is written is read as the value.

ghost use Rattle.std.specs.Prelude.{◌≡◌, IfOk, OnOk, string_bytes};
ghost use Rattle.sj_text_core.specs.Tree.{Tree};
ghost use Rattle.sj_document.specs.Document.{document_tree, with_member};
ghost use Rattle.sj_uses.specs.Typed.{MeansNumber, MeansText, MeansOption, MeansList, HasMember, HasOptional};

use sj_owned::prelude::*;
use sj_owned::{JsonError, TryTypeError, Value};
use std::alloc::{AllocError, AllocFailed, Global};

/// Why a value was not read.
#[derive(Clone, Copy, Debug, PartialEq, Eq)]
pub enum ReadError {
    /// A member is missing.
    Missing,
    Json(JsonError),
}

impl From<AllocError> for ReadError {
    fn from(_error: AllocError) -> ReadError {
        ReadError::Json(JsonError::OutOfMemory)
    }
}

impl<T: Drop> From<AllocFailed<T>> for ReadError {
    fn from(_error: AllocFailed<T>) -> ReadError {
        ReadError::Json(JsonError::OutOfMemory)
    }
}

impl From<TryTypeError> for ReadError {
    fn from(error: TryTypeError) -> ReadError {
        ReadError::Json(JsonError::Kind(error))
    }
}

/// Values that trees mean.
pub trait Meant {
    /// Holds of a tree and of each value that it is read as, and written as.
    ghost means: { Tree → Self → Type 0 };
}

/// Values that are made documents.
pub trait ToJson: Meant {
    /// A document that is read as the value.
    fn to_json(&self, alloc: Global) -> Result<Value, AllocError>
        ensures { IfOk result (λ v. Self.means (document_tree string_bytes v) self.now) };
}

/// Values that are read of documents.
pub trait FromJson: Meant + Sized + Drop {
    /// The value that the document is read as.
    fn from_json(alloc: Global, value: &Value) -> Result<Self, ReadError>
        ensures { IfOk result (λ x. Self.means (document_tree string_bytes value.now) x) };
}

impl Meant for u16 {
    ghost means = { MeansNumber 16 };
}

impl ToJson for u16 {
    fn to_json(&self, _alloc: Global) -> Result<Value, AllocError> {
        Ok(Value::from(*self))
    }
}

impl FromJson for u16 {
    fn from_json(_alloc: Global, value: &Value) -> Result<u16, ReadError> {
        Ok(value.try_as_u16()?)
    }
}

impl Meant for String {
    ghost means = { MeansText };
}

impl ToJson for String {
    fn to_json(&self, alloc: Global) -> Result<Value, AllocError> {
        Value::try_make(alloc, self)
    }
}

impl FromJson for String {
    fn from_json(alloc: Global, value: &Value) -> Result<String, ReadError> {
        Ok(String::from_str(alloc, value.try_as_str()?)?)
    }
}

impl<T: Meant> Meant for Option<T> {
    ghost means = { MeansOption T.means };
}

impl<T: ToJson> ToJson for Option<T> {
    fn to_json(&self, alloc: Global) -> Result<Value, AllocError> {
        match self {
            Some(value) => value.to_json(alloc),
            None => Ok(Value::null()),
        }
    }
}

impl<T: FromJson> FromJson for Option<T> {
    fn from_json(alloc: Global, value: &Value) -> Result<Option<T>, ReadError> {
        if value.is_null() {
            return Ok(None);
        }
        Ok(Some(T::from_json(alloc, value)?))
    }
}

impl<T: Meant> Meant for Vec<T> {
    ghost means = { MeansList T.means };
}

impl<T: ToJson> ToJson for Vec<T> {
    fn to_json(&self, alloc: Global) -> Result<Value, AllocError> {
        let mut items = Vec::with_capacity(alloc, self.len())?;
        for value in self {
            items.push(value.to_json(alloc)?)?;
        }
        Value::try_make(alloc, items)
    }
}

impl<T: FromJson> FromJson for Vec<T> {
    fn from_json(alloc: Global, value: &Value) -> Result<Vec<T>, ReadError> {
        let mut items = Vec::new(alloc);
        for item in value.try_as_array()? {
            items.push(T::from_json(alloc, item)?)?;
        }
        Ok(items)
    }
}

/// The member of the key, which has to be there.
pub fn member<T: FromJson>(alloc: Global, value: &Value, key: &str) -> Result<T, ReadError>
    ensures { IfOk result (λ x. HasMember T.means key.now (document_tree string_bytes value.now) x) }
{
    match value.try_get(key)? {
        Some(found) => T::from_json(alloc, found),
        None => Err(ReadError::Missing),
    }
}

/// The member of the key, if it is there.
pub fn optional<T: FromJson>(
    alloc: Global,
    value: &Value,
    key: &str,
) -> Result<Option<T>, ReadError>
    ensures { IfOk result (λ x. HasOptional T.means key.now (document_tree string_bytes value.now) x) }
{
    match value.try_get(key)? {
        Some(found) => Option::from_json(alloc, found),
        None => Ok(None),
    }
}

/// Sets the member.
pub fn put<T: ToJson>(
    alloc: Global,
    object: &mut Value,
    key: &str,
    value: &T,
) -> Result<(), AllocError>
    ensures { OnOk result ((u : Tree) × T.means u value.now × (document_tree string_bytes object.new ≡ with_member key.now u (document_tree string_bytes object.old))) }
{
    let name = String::from_str(alloc, key)?;
    match object.insert(name, value.to_json(alloc)?) {
        Ok(_) => Ok(()),
        Err(_) => Err(AllocError),
    }
}
