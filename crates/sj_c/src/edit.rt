//! Edits of a document at a pointer, by the library's calls.

ghost use Rattle.std.specs.Prelude.{◌≡◌, ◌≢◌, string_bytes};
ghost use Rattle.sj_document.specs.Document.{document_tree};
ghost use Rattle.sj_c.specs.declared.edit.Giving.TheVariants as giving;
ghost use Rattle.sj_c.specs.declared.edit.Taking.TheVariants as taking;
ghost use Rattle.sj_c.specs.Edits.{GivesAt, TakesAt};
ghost use Rattle.sj_c.specs.Refusals.{access_status};

use crate::status::{MISSING, code_of_access};
use sj_document::OwnedValue;
use sj_path::{Pointer, owned};
use sj_text_core::{AccessError, Refused};
use std::alloc::Global;

/// Where a value that is given goes.
#[derive(Drop)]
pub enum Giving {
    /// To the key of the object at the pointer.
    Insert(String),
    /// Behind the items of the array at the pointer.
    Push,
    /// In the place of what stands at the pointer.
    Put,
    /// To where the pointer leads, with the objects that are missing on the way.
    Set,
}

/// What is taken out.
#[derive(Drop)]
pub enum Taking {
    /// The member of the key.
    Remove(String),
    /// The last item.
    Pop,
}

type Given = Result<Option<OwnedValue>, Refused<u32, OwnedValue>>;

type Taken = Result<Option<OwnedValue>, u32>;

/// The refusal with its status.
fn with_status(refused: Refused<AccessError, OwnedValue>) -> Refused<u32, OwnedValue>
    ensures why { result.why ≡ access_status refused.why }
    ensures fault { (result.why ≢ 0) × (result.why ≢ 3) × (result.why ≢ 7) × (result.why ≢ 8) }
    ensures value { result.value ≡ refused.value }
{
    Refused {
        why: code_of_access(refused.why),
        value: refused.value,
    }
}

fn insert(document: &mut OwnedValue, path: &Pointer, key: String, new: OwnedValue) -> Given
    ensures { GivesAt (giving.Insert key) path.now new (document_tree string_bytes document.old) (document_tree string_bytes document.new) result }
{
    match owned::insert(document, path, key, new) {
        Ok(before) => Ok(before),
        Err(refused) => Err(with_status(refused)),
    }
}

fn push(document: &mut OwnedValue, path: &Pointer, new: OwnedValue) -> Given
    ensures { GivesAt giving.Push path.now new (document_tree string_bytes document.old) (document_tree string_bytes document.new) result }
{
    match owned::push(document, path, new) {
        Ok(()) => Ok(None),
        Err(refused) => Err(with_status(refused)),
    }
}

fn put(document: &mut OwnedValue, path: &Pointer, new: OwnedValue) -> Given
    ensures { GivesAt giving.Put path.now new (document_tree string_bytes document.old) (document_tree string_bytes document.new) result }
{
    match owned::replace(document, path, new) {
        Ok(before) => Ok(Some(before)),
        Err(value) => Err(Refused {
            why: MISSING,
            value,
        }),
    }
}

fn set(alloc: Global, document: &mut OwnedValue, path: &Pointer, new: OwnedValue) -> Given
    ensures { GivesAt giving.Set path.now new (document_tree string_bytes document.old) (document_tree string_bytes document.new) result }
{
    match owned::set(document, alloc, path, new) {
        Ok(before) => Ok(before),
        Err(refused) => Err(with_status(refused)),
    }
}

/// Gives the value. Refused, it comes back, and the document means what it meant.
pub fn give_at(
    alloc: Global,
    document: &mut OwnedValue,
    path: &Pointer,
    giving: Giving,
    new: OwnedValue,
) -> Given
    ensures { GivesAt giving path.now new (document_tree string_bytes document.old) (document_tree string_bytes document.new) result }
{
    match giving {
        Giving::Insert(key) => insert(document, path, key, new),
        Giving::Push => push(document, path, new),
        Giving::Put => put(document, path, new),
        Giving::Set => set(alloc, document, path, new),
    }
}

fn remove(document: &mut OwnedValue, path: &Pointer, key: String) -> Taken
    ensures { TakesAt (taking.Remove key) path.now (document_tree string_bytes document.old) (document_tree string_bytes document.new) result }
{
    match owned::remove(document, path, key.as_str()) {
        Ok(before) => Ok(before),
        Err(error) => Err(code_of_access(error)),
    }
}

fn pop(document: &mut OwnedValue, path: &Pointer) -> Taken
    ensures { TakesAt taking.Pop path.now (document_tree string_bytes document.old) (document_tree string_bytes document.new) result }
{
    match owned::pop(document, path) {
        Ok(last) => Ok(last),
        Err(error) => Err(code_of_access(error)),
    }
}

/// Takes out of the document. Refused, it means what it meant.
pub fn take_at(document: &mut OwnedValue, path: &Pointer, taking: Taking) -> Taken
    ensures { TakesAt taking path.now (document_tree string_bytes document.old) (document_tree string_bytes document.new) result }
{
    match taking {
        Taking::Remove(key) => remove(document, path, key),
        Taking::Pop => pop(document, path),
    }
}
