//! What writes do by the texts of a document: an insert by the text of its key or by a known key,
//! the values that a command brings, and the one that it takes out.

ghost use Rattle.std.specs.Prelude.{◌≡◌, [], IfOk, string_bytes};
ghost use Rattle.std.specs.Cow.{cow_str_bytes};
ghost use Rattle.sj_document.specs.Document.{document_tree};
ghost use Rattle.sj_commands.specs.Commands as command;
ghost use Rattle.sj_commands.specs.Meant.{write_meant};
ghost use Rattle.sj_run.specs.inner.Changed.{Edits};

use super::Changed;
use crate::document::Way;
use sj_borrowed::KnownKey;
use sj_borrowed::known_key::Error;
use sj_commands::Write;
use sj_document::{BorrowedValue, Document, OwnedValue};
use sj_object::KeyText;
use sj_text_core::{AccessError, TryMake};
use std::alloc::{AllocError, Global};
use std::borrow::CowStr;
use std::mem;

/// What writes do by the texts of a document.
// Why so: docs/REFUSED.md, "`Texts` and `Root` take values by `&mut`".
pub(crate) trait Texts<T: KeyText> {
    /// Sets the value of the key to the new one, which is taken out of its place.
    fn insert(
        self,
        value: &mut Document<T>,
        key: T,
        new: &mut Document<T>,
    ) -> Result<Changed<T>, AllocError>
        ensures { Edits T.text_of [] (command.insert (T.text_of key) (document_tree T.text_of new.old)) (document_tree T.text_of value.old) (document_tree T.text_of value.new) result };

    /// The write of a command with such texts. It is taken out of its place, and its keys and texts
    /// are moved.
    fn written(alloc: Global, write: &mut Write<String>) -> Result<Write<T>, AllocError>
        ensures { IfOk result (λ w. write_meant T.text_of w ≡ write_meant string_bytes write.old) };

    /// The value with texts of its own. It is taken out of its place.
    fn owned(alloc: Global, value: &mut Document<T>) -> Result<OwnedValue, AllocError>
        ensures { IfOk result (λ v. document_tree string_bytes v ≡ document_tree T.text_of value.old) };
}

/// By the key's text, which moves into the document.
fn insert_text<T: KeyText + Drop>(
    value: &mut Document<T>,
    key: T,
    new: Document<T>,
) -> Result<Changed<T>, AllocError>
    ensures { Edits T.text_of [] (command.insert (T.text_of key) (document_tree T.text_of new)) (document_tree T.text_of value.old) (document_tree T.text_of value.new) result }
{
    match value.insert(key, new) {
        Ok(Some(before)) => Ok(Changed::Old(before)),
        Ok(None) => Ok(Changed::Nothing),
        Err(refused) => match refused.why {
            AccessError::OutOfMemory => Err(AllocError),
            _ => Ok(Changed::NotAnObject),
        },
    }
}

/// By a known key, of which an absent one is cloned.
fn insert_known<'v>(
    value: &mut BorrowedValue<'v>,
    key: CowStr<'v>,
    new: BorrowedValue<'v>,
) -> Result<Changed<CowStr<'v>>, AllocError>
    ensures { Edits cow_str_bytes [] (command.insert (cow_str_bytes key.entry) (document_tree cow_str_bytes new.entry)) (document_tree cow_str_bytes value.old) (document_tree cow_str_bytes value.new) result }
{
    match KnownKey::from(key).insert(value, new) {
        Ok(Some(before)) => Ok(Changed::Old(before)),
        Ok(None) => Ok(Changed::Nothing),
        Err(refused) => match refused.why {
            Error::OutOfMemory => Err(AllocError),
            Error::NotAnObject(_) => Ok(Changed::NotAnObject),
        },
    }
}

/// By text in both ways.
impl Texts<String> for Way {
    fn insert(
        self,
        value: &mut OwnedValue,
        key: String,
        new: &mut OwnedValue,
    ) -> Result<Changed<String>, AllocError>
        ensures { Edits string_bytes [] (command.insert (string_bytes key) (document_tree string_bytes new.old)) (document_tree string_bytes value.old) (document_tree string_bytes value.new) result }
    {
        insert_text(value, key, mem::take(new))
    }

    fn written(_alloc: Global, write: &mut Write<String>) -> Result<Write<String>, AllocError> {
        Ok(mem::replace(write, Write::Pop))
    }

    fn owned(_alloc: Global, value: &mut OwnedValue) -> Result<OwnedValue, AllocError> {
        Ok(mem::take(value))
    }
}

impl<'v> Texts<CowStr<'v>> for Way {
    fn insert(
        self,
        value: &mut BorrowedValue<'v>,
        key: CowStr<'v>,
        new: &mut BorrowedValue<'v>,
    ) -> Result<Changed<CowStr<'v>>, AllocError>
        ensures { Edits cow_str_bytes [] (command.insert (cow_str_bytes key.entry) (document_tree cow_str_bytes new.old)) (document_tree cow_str_bytes value.old) (document_tree cow_str_bytes value.new) result }
    {
        match self {
            Way::ByText => insert_text(value, key, mem::take(new)),
            Way::ByKnownKey => insert_known(value, key, mem::take(new)),
        }
    }

    fn written(alloc: Global, write: &mut Write<String>) -> Result<Write<CowStr<'v>>, AllocError> {
        match mem::replace(write, Write::Pop) {
            Write::Insert(key, value) => Ok(Write::Insert(
                CowStr::Owned(key),
                BorrowedValue::try_make(alloc, value)?,
            )),
            Write::Remove(key) => Ok(Write::Remove(key)),
            Write::Push(value) => Ok(Write::Push(BorrowedValue::try_make(alloc, value)?)),
            Write::Pop => Ok(Write::Pop),
            Write::Put(value) => Ok(Write::Put(BorrowedValue::try_make(alloc, value)?)),
        }
    }

    fn owned(alloc: Global, value: &mut BorrowedValue<'v>) -> Result<OwnedValue, AllocError> {
        OwnedValue::try_make(alloc, mem::take(value))
    }
}
