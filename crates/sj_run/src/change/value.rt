//! Writes at a value itself.

ghost use Rattle.std.specs.Prelude.{[]};
ghost use Rattle.sj_document.specs.Document.{document_tree};
ghost use Rattle.sj_commands.specs.Commands as command;
ghost use Rattle.sj_commands.specs.Meant.{write_meant};
ghost use Rattle.sj_run.specs.inner.Changed.{Edits};

use super::{Changed, Texts};
use crate::document::Way;
use sj_commands::Write;
use sj_document::Document;
use sj_object::KeyText;
use sj_text_core::AccessError;
use std::alloc::AllocError;
use std::mem;

fn push<T: KeyText + Drop>(
    value: &mut Document<T>,
    new: Document<T>,
) -> Result<Changed<T>, AllocError>
    ensures { Edits T.text_of [] (command.push (document_tree T.text_of new)) (document_tree T.text_of value.old) (document_tree T.text_of value.new) result }
{
    match value.push(new) {
        Ok(()) => Ok(Changed::Done),
        Err(refused) => match refused.why {
            AccessError::OutOfMemory => Err(AllocError),
            _ => Ok(Changed::NotAnArray),
        },
    }
}

fn pop<T: KeyText + Drop>(value: &mut Document<T>) -> Result<Changed<T>, AllocError>
    ensures { Edits T.text_of [] command.pop (document_tree T.text_of value.old) (document_tree T.text_of value.new) result }
{
    match value.pop() {
        Ok(Some(last)) => Ok(Changed::Old(last)),
        Ok(None) => Ok(Changed::Nothing),
        Err(_) => Ok(Changed::NotAnArray),
    }
}

fn remove<T: KeyText + Drop>(value: &mut Document<T>, key: &str) -> Result<Changed<T>, AllocError>
    ensures { Edits T.text_of [] (command.remove key.now) (document_tree T.text_of value.old) (document_tree T.text_of value.new) result }
{
    match value.remove(key) {
        Ok(Some(before)) => Ok(Changed::Old(before)),
        Ok(None) => Ok(Changed::Nothing),
        Err(_) => Ok(Changed::NotAnObject),
    }
}

/// Changes the value itself.
pub(super) fn change<T: KeyText + Drop>(
    value: &mut Document<T>,
    way: Way,
    write: Write<T>,
) -> Result<Changed<T>, AllocError>
where
    Way: Texts<T>,
    ensures { Edits T.text_of [] (write_meant T.text_of write) (document_tree T.text_of value.old) (document_tree T.text_of value.new) result }
{
    match write {
        Write::Insert(key, mut new) => way.insert(value, key, &mut new),
        Write::Remove(key) => remove(value, key.as_str()),
        Write::Push(new) => push(value, new),
        Write::Pop => pop(value),
        Write::Put(new) => Ok(Changed::Old(mem::replace(value, new))),
    }
}
