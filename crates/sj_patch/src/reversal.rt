//! What undoes a change in one container of a document.

ghost use Rattle.std.specs.Prelude.{◌≡◌, map, string_bytes};
ghost use Rattle.sj_text_core.specs.Tree.{null, list, obj, items_from};
ghost use Rattle.sj_object.specs.Members.{entry_members};
ghost use Rattle.sj_document.specs.Document.{document_tree};
ghost use Rattle.sj_patch.specs.inner.Changed.{Reverts, is_placed};

use sj_document::{Document, Object};
use sj_object::{KeyText, Room};
use sj_pointer::position;
use sj_text_core::OperationFault;
use std::mem;

/// What undoes a change, in the same container at the same token, with the value that the change took
/// out. None wants memory.
#[derive(Drop)]
pub(crate) enum Reversal<T: KeyText> {
    /// The value goes in the place of what stands there.
    Swap,
    /// What stands there goes.
    Out,
    /// The item with that number goes.
    OutItem(usize),
    /// The whole document becomes the value.
    Become,
    /// The value goes back as a member at its position.
    MemberBack {
        room: Room<T, Document<T>>,
        index: usize,
        key: T,
    },
    /// The value goes back as an item at its position; there is room for all.
    ItemBack {
        room: Vec<Document<T>>,
        index: usize,
    },
}

fn swap_member<T: KeyText + Drop>(
    members: &mut Object<T>,
    key: &str,
    value: Document<T>,
) -> Result<Document<T>, OperationFault>
    ensures { Reverts T.text_of Reversal.Swap (document_tree T.text_of value) key.now (obj (entry_members (document_tree T.text_of) members.old.entries)) (obj (entry_members (document_tree T.text_of) members.new.entries)) result }
{
    match members.get_mut(key) {
        Some(child) => Ok(mem::replace(child, value)),
        None => Err(OperationFault::Missing),
    }
}

fn swap_item<T: KeyText + Drop>(
    items: &mut Vec<Document<T>>,
    token: &str,
    value: Document<T>,
) -> Result<Document<T>, OperationFault>
    ensures { Reverts T.text_of Reversal.Swap (document_tree T.text_of value) token.now (list (items_from (map (document_tree T.text_of) items.old.items))) (list (items_from (map (document_tree T.text_of) items.new.items))) result }
{
    let Some(at) = position(token) else {
        return Err(OperationFault::Missing);
    };
    if at < items.len() {
        Ok(mem::replace(&mut items[at], value))
    } else {
        Err(OperationFault::Missing)
    }
}

/// Puts the value in the place of what stands at the token, and answers that.
pub(crate) fn swap<T: KeyText + Drop>(
    holder: &mut Document<T>,
    token: &str,
    value: Document<T>,
) -> Result<Document<T>, OperationFault>
    ensures { Reverts T.text_of Reversal.Swap (document_tree T.text_of value) token.now (document_tree T.text_of holder.old) (document_tree T.text_of holder.new) result }
{
    match holder {
        Document::Object(members) => swap_member(members, token, value),
        Document::Array(items) => swap_item(items, token, value),
        _ => Err(OperationFault::Missing),
    }
}

fn out_member<T: KeyText + Drop>(
    members: &mut Object<T>,
    key: &str,
) -> Result<Document<T>, OperationFault>
    ensures { Reverts T.text_of Reversal.Out null key.now (obj (entry_members (document_tree T.text_of) members.old.entries)) (obj (entry_members (document_tree T.text_of) members.new.entries)) result }
{
    match members.remove(key) {
        Some(taken) => Ok(taken),
        None => Err(OperationFault::Missing),
    }
}

fn out_place<T: KeyText + Drop>(
    items: &mut Vec<Document<T>>,
    token: &str,
) -> Result<Document<T>, OperationFault>
    ensures { Reverts T.text_of Reversal.Out null token.now (list (items_from (map (document_tree T.text_of) items.old.items))) (list (items_from (map (document_tree T.text_of) items.new.items))) result }
{
    let Some(at) = position(token) else {
        return Err(OperationFault::Missing);
    };
    if at < items.len() {
        Ok(items.remove(at))
    } else {
        Err(OperationFault::Missing)
    }
}

fn out_item<T: KeyText + Drop>(
    items: &mut Vec<Document<T>>,
    token: &str,
    at: usize,
) -> Result<Document<T>, OperationFault>
    ensures { Reverts T.text_of (Reversal.OutItem at) null token.now (list (items_from (map (document_tree T.text_of) items.old.items))) (list (items_from (map (document_tree T.text_of) items.new.items))) result }
{
    if at < items.len() {
        Ok(items.remove(at))
    } else {
        Err(OperationFault::Missing)
    }
}

fn remove<T: KeyText + Drop>(
    holder: &mut Document<T>,
    token: &str,
) -> Result<Document<T>, OperationFault>
    ensures { Reverts T.text_of Reversal.Out null token.now (document_tree T.text_of holder.old) (document_tree T.text_of holder.new) result }
{
    match holder {
        Document::Object(members) => out_member(members, token),
        Document::Array(items) => out_place(items, token),
        _ => Err(OperationFault::Missing),
    }
}

fn out_at<T: KeyText + Drop>(
    holder: &mut Document<T>,
    token: &str,
    at: usize,
) -> Result<Document<T>, OperationFault>
    ensures { Reverts T.text_of (Reversal.OutItem at) null token.now (document_tree T.text_of holder.old) (document_tree T.text_of holder.new) result }
{
    match holder {
        Document::Array(items) => out_item(items, token, at),
        _ => Err(OperationFault::Missing),
    }
}

/// Whether what has so many parts takes one more at the position, in room for so many.
pub(crate) fn has_place(len: usize, places: usize, index: usize) -> bool
    ensures { result ≡ is_placed len places index }
{
    len < places && index <= len
}

fn restore_member<T: KeyText + Drop>(
    members: &mut Object<T>,
    token: &str,
    room: Room<T, Document<T>>,
    index: usize,
    key: T,
    value: Document<T>,
) -> Result<Document<T>, OperationFault>
    ensures { Reverts T.text_of (Reversal.MemberBack room index key) (document_tree T.text_of value) token.now (obj (entry_members (document_tree T.text_of) members.old.entries)) (obj (entry_members (document_tree T.text_of) members.new.entries)) result }
{
    let _token = token;
    if !has_place(members.len(), room.places(), index) {
        return Err(OperationFault::Missing);
    }
    if members.contains_key(key.text()) {
        return Err(OperationFault::Missing);
    }
    members.restore(room, index, key, value);
    Ok(Document::null())
}

fn restore_item<T: KeyText + Drop>(
    items: &mut Vec<Document<T>>,
    token: &str,
    room: Vec<Document<T>>,
    index: usize,
    value: Document<T>,
) -> Result<Document<T>, OperationFault>
    ensures { Reverts T.text_of (Reversal.ItemBack room index) (document_tree T.text_of value) token.now (list (items_from (map (document_tree T.text_of) items.old.items))) (list (items_from (map (document_tree T.text_of) items.new.items))) result }
{
    let _token = token;
    if !has_place(items.len(), room.capacity(), index) {
        return Err(OperationFault::Missing);
    }
    let mut room = room;
    room.clear();
    room.append(items).unwrap();
    room.insert(index, value).unwrap();
    *items = room;
    Ok(Document::null())
}

fn put_back_member<T: KeyText + Drop>(
    holder: &mut Document<T>,
    token: &str,
    room: Room<T, Document<T>>,
    index: usize,
    key: T,
    value: Document<T>,
) -> Result<Document<T>, OperationFault>
    ensures { Reverts T.text_of (Reversal.MemberBack room index key) (document_tree T.text_of value) token.now (document_tree T.text_of holder.old) (document_tree T.text_of holder.new) result }
{
    match holder {
        Document::Object(members) => restore_member(members, token, room, index, key, value),
        _ => Err(OperationFault::Missing),
    }
}

fn put_back_item<T: KeyText + Drop>(
    holder: &mut Document<T>,
    token: &str,
    room: Vec<Document<T>>,
    index: usize,
    value: Document<T>,
) -> Result<Document<T>, OperationFault>
    ensures { Reverts T.text_of (Reversal.ItemBack room index) (document_tree T.text_of value) token.now (document_tree T.text_of holder.old) (document_tree T.text_of holder.new) result }
{
    match holder {
        Document::Array(items) => restore_item(items, token, room, index, value),
        _ => Err(OperationFault::Missing),
    }
}

/// Undoes a change, given what it took out, and answers what the undo takes out; a null where that is
/// nothing. Refused, it leaves the container as it was.
pub(crate) fn undo<T: KeyText + Drop>(
    holder: &mut Document<T>,
    token: &str,
    reversal: Reversal<T>,
    value: Document<T>,
) -> Result<Document<T>, OperationFault>
    ensures { Reverts T.text_of reversal (document_tree T.text_of value) token.now (document_tree T.text_of holder.old) (document_tree T.text_of holder.new) result }
{
    match reversal {
        Reversal::Swap => swap(holder, token, value),
        Reversal::Out => remove(holder, token),
        Reversal::OutItem(at) => out_at(holder, token, at),
        Reversal::Become => Ok(mem::replace(holder, value)),
        Reversal::MemberBack { room, index, key } => {
            put_back_member(holder, token, room, index, key, value)
        }
        Reversal::ItemBack { room, index } => put_back_item(holder, token, room, index, value),
    }
}
