//! How a write goes along its path.

ghost use Rattle.std.specs.Prelude.{[], map, ◌∷◌};
ghost use Rattle.sj_text_core.specs.Paths.{by_key, by_place, by_token};
ghost use Rattle.sj_text_core.specs.Tree.{list, obj, items_from};
ghost use Rattle.sj_object.specs.Members.{entry_members};
ghost use Rattle.sj_document.specs.Document.{document_tree};
ghost use Rattle.sj_run.specs.inner.Changed.{Edits};
ghost use Rattle.sj_commands.specs.Meant.{step_meant, write_meant};

use super::steps::BySteps;
use super::value::change;
use super::{Changed, Texts};
use crate::document::Way;
use crate::lookup::member_mut;
use sj_commands::{Step, Write};
use sj_document::{Change, Document, Object, update_at};
use sj_object::KeyText;
use sj_pointer::position;
use std::alloc::AllocError;

/// How many steps are gone by calls, each of which looks its key up once. A longer path is gone on
/// a bounded stack, and its keys are looked up by text, on the way down and on the way up.
const CALLS: usize = 64;

/// Changes the value at the path in its place; where nothing stands there, it changes nothing.
/// Refused for want of memory, it leaves the document as it was.
pub(crate) fn edit_at<T: KeyText + Drop>(
    value: &mut Document<T>,
    way: Way,
    path: &[Step],
    write: Write<T>,
) -> Result<Changed<T>, AllocError>
where
    Way: Texts<T>,
    ensures { Edits T.text_of (map step_meant path.now) (write_meant T.text_of write) (document_tree T.text_of value.old) (document_tree T.text_of value.new) result }
{
    if path.len() <= CALLS {
        edit_near(value, way, path, write)
    } else {
        edit_far(value, way, path, write)
    }
}

/// The write of a command, in that way.
#[derive(Drop)]
struct WriteBy<T: KeyText> {
    way: Way,
    write: Write<T>,
}

impl<T: KeyText + Drop> Change<Document<T>> for WriteBy<T>
where
    Way: Texts<T>,
{
    type Answer = Result<Changed<T>, AllocError>;

    ghost makes = { λ w before after r. Edits T.text_of [] (write_meant T.text_of w.write) (document_tree T.text_of before) (document_tree T.text_of after) r };

    fn change(self, value: &mut Document<T>) -> Result<Changed<T>, AllocError> {
        let WriteBy { way, write } = self;
        change(value, way, write)
    }
}

/// The same on a bounded stack, however long the path is.
fn edit_far<T: KeyText + Drop>(
    value: &mut Document<T>,
    way: Way,
    path: &[Step],
    write: Write<T>,
) -> Result<Changed<T>, AllocError>
where
    Way: Texts<T>,
    ensures { Edits T.text_of (map step_meant path.now) (write_meant T.text_of write) (document_tree T.text_of value.old) (document_tree T.text_of value.new) result }
{
    match update_at::<BySteps, Step, T, WriteBy<T>>(value, path, WriteBy { way, write }) {
        Ok(changed) => changed,
        Err(_) => Ok(Changed::Missing),
    }
}

/// The same by a call for each step.
#[cycle(edit)]
fn edit_near<T: KeyText + Drop>(
    value: &mut Document<T>,
    way: Way,
    path: &[Step],
    write: Write<T>,
) -> Result<Changed<T>, AllocError>
where
    Way: Texts<T>,
    ensures { Edits T.text_of (map step_meant path.now) (write_meant T.text_of write) (document_tree T.text_of value.old) (document_tree T.text_of value.new) result }
{
    match path {
        [] => change(value, way, write),
        [first, rest @ ..] => edit_step(value, way, first, rest, write),
    }
}

#[cycle(edit)]
fn edit_step<T: KeyText + Drop>(
    value: &mut Document<T>,
    way: Way,
    step: &Step,
    rest: &[Step],
    write: Write<T>,
) -> Result<Changed<T>, AllocError>
where
    Way: Texts<T>,
    ensures { Edits T.text_of (step_meant step.now ∷ map step_meant rest.now) (write_meant T.text_of write) (document_tree T.text_of value.old) (document_tree T.text_of value.new) result }
{
    match step {
        Step::Key(key) => match value {
            Document::Object(members) => edit_member(members, way, key.as_str(), rest, write),
            _ => Ok(Changed::Missing),
        },
        Step::Idx(at) => match value {
            Document::Array(items) => edit_item(items, way, *at, rest, write),
            _ => Ok(Changed::Missing),
        },
        Step::Token(token) => edit_token(value, way, token.as_str(), rest, write),
    }
}

#[cycle(edit)]
fn edit_token<T: KeyText + Drop>(
    value: &mut Document<T>,
    way: Way,
    token: &str,
    rest: &[Step],
    write: Write<T>,
) -> Result<Changed<T>, AllocError>
where
    Way: Texts<T>,
    ensures { Edits T.text_of (by_token token.now ∷ map step_meant rest.now) (write_meant T.text_of write) (document_tree T.text_of value.old) (document_tree T.text_of value.new) result }
{
    match value {
        Document::Object(members) => edit_member(members, way, token, rest, write),
        Document::Array(items) => {
            let Some(at) = position(token) else {
                return Ok(Changed::Missing);
            };
            edit_item(items, way, at, rest, write)
        }
        _ => Ok(Changed::Missing),
    }
}

#[cycle(edit)]
fn edit_member<T: KeyText + Drop>(
    members: &mut Object<T>,
    way: Way,
    key: &str,
    rest: &[Step],
    write: Write<T>,
) -> Result<Changed<T>, AllocError>
where
    Way: Texts<T>,
    ensures { Edits T.text_of (by_key key.now ∷ map step_meant rest.now) (write_meant T.text_of write) (obj (entry_members (document_tree T.text_of) members.old.entries)) (obj (entry_members (document_tree T.text_of) members.new.entries)) result }
{
    match member_mut(members, way, key) {
        Some(child) => edit_near(child, way, rest, write),
        None => Ok(Changed::Missing),
    }
}

#[cycle(edit)]
fn edit_item<T: KeyText + Drop>(
    items: &mut Vec<Document<T>>,
    way: Way,
    at: usize,
    rest: &[Step],
    write: Write<T>,
) -> Result<Changed<T>, AllocError>
where
    Way: Texts<T>,
    ensures { Edits T.text_of (by_place at ∷ map step_meant rest.now) (write_meant T.text_of write) (list (items_from (map (document_tree T.text_of) items.old.items))) (list (items_from (map (document_tree T.text_of) items.new.items))) result }
{
    if at < items.len() {
        edit_near(&mut items[at], way, rest, write)
    } else {
        Ok(Changed::Missing)
    }
}
