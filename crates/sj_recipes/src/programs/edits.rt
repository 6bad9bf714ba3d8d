//! Edits at pointers, all of them or none.

ghost use Rattle.std.specs.Prelude.{◌≡◌, OnErr, string_bytes};
ghost use Rattle.sj_document.specs.Document.{document_tree};

use sj_owned::{Array, JsonError, Value};
use sj_path::{PointerError, owned, pointer};
use std::alloc::{AllocError, AllocFailed, Global};
use thiserror::Error;

/// A change of a document, at the place that a pointer names.
#[derive(Drop)]
pub enum Edit<'e> {
    /// Another value in the place of the one that is there.
    Replace(&'e str, Value),
    /// An item at a position of the array that is there.
    Insert(&'e str, usize, Value),
    /// Without the item at that position.
    Remove(&'e str, usize),
}

/// Why a document was not changed.
#[derive(Debug, Drop, Error)]
pub enum EditFault {
    #[error("nothing is there")]
    Nothing,
    #[error("no array is there")]
    NoArray,
    #[error("no position {0} in the array")]
    NoPosition(usize),
    #[error("{0}")]
    Json(JsonError),
}

impl From<AllocError> for EditFault {
    fn from(error: AllocError) -> EditFault {
        EditFault::Json(JsonError::from(error))
    }
}

impl<T: Drop> From<AllocFailed<T>> for EditFault {
    fn from(error: AllocFailed<T>) -> EditFault {
        EditFault::Json(JsonError::from(error))
    }
}

impl From<PointerError> for EditFault {
    fn from(error: PointerError) -> EditFault {
        EditFault::Json(JsonError::from(error))
    }
}

/// Makes the edits, one after another. Where one is refused, the document is as it was.
pub fn edit_all(alloc: Global, document: &mut Value, edits: Vec<Edit<'_>>) -> Result<(), EditFault>
    ensures { OnErr result (document_tree string_bytes document.new ≡ document_tree string_bytes document.old) }
{
    let mut copy = document.clone()?;
    for edit in edits {
        edit_once(alloc, &mut copy, edit)?;
    }
    *document = copy;
    Ok(())
}

fn edit_once(alloc: Global, document: &mut Value, edit: Edit<'_>) -> Result<(), EditFault> {
    match edit {
        Edit::Replace(place, value) => {
            if owned::replace(document, &pointer(alloc, place)?, value).is_err() {
                return Err(EditFault::Nothing);
            }
        }
        Edit::Insert(place, at, value) => {
            let items = items_at(alloc, document, place)?;
            if at > items.len() {
                return Err(EditFault::NoPosition(at));
            }
            items.insert(at, value)?;
        }
        Edit::Remove(place, at) => {
            let items = items_at(alloc, document, place)?;
            if at >= items.len() {
                return Err(EditFault::NoPosition(at));
            }
            items.remove(at);
        }
    }
    Ok(())
}

fn items_at<'v>(
    alloc: Global,
    document: &'v mut Value,
    place: &str,
) -> Result<&'v mut Array, EditFault> {
    match owned::find_mut(document, &pointer(alloc, place)?) {
        Some(found) => found.as_array_mut().ok_or(EditFault::NoArray),
        None => Err(EditFault::Nothing),
    }
}
