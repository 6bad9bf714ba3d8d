//! A change in one container of a document.

ghost use Rattle.std.specs.Prelude.{◌≡◌, ◌≤◌, IfSome, ◌∷◌, [], map, string_bytes};
ghost use Rattle.sj_text_core.specs.Tree.{list, obj, items_from};
ghost use Rattle.sj_object.specs.Members.{entry_members};
ghost use Rattle.sj_document.specs.Document.{document_tree};
ghost use Rattle.sj_patch.specs.Patch.{place_among};
ghost use Rattle.sj_patch.specs.inner.Changed.{Changes, ChangesOrReturns};

use crate::error::Refusal;
use crate::reversal::{Reversal, swap, undo};
use sj_document::{Change as ChangeIn, Document, Object};
use sj_object::KeyText;
use sj_path::OwnedText;
use sj_pointer::position;
use sj_text_core::{OperationFault, Refused};

/// What is done in a container, at the last token of a pointer.
#[derive(Drop)]
pub(crate) enum Change<T: KeyText> {
    /// The value goes there, as a new member or item, or in the place of a member's.
    Put(Document<T>),
    /// What stands there goes.
    Take,
    /// The value goes in the place of what stands there.
    Swap(Document<T>),
    /// Another change is undone, given what it took out.
    Undo(Reversal<T>, Document<T>),
}

impl<T: KeyText + Drop> Change<T> {
    ghost use Rattle.sj_patch.specs.inner.Changed.{Returns};

    /// The value that was to be put; a null of another change.
    pub(crate) fn given(self) -> Document<T>
        ensures { Returns T.text_of self result }
    {
        match self {
            Change::Put(value) => value,
            _ => Document::null(),
        }
    }
}

/// What a change did.
#[derive(Drop)]
pub(crate) struct Done<T: KeyText> {
    /// What undoes it, at the same place, given what was taken out.
    pub(crate) undo: Reversal<T>,
    /// What was taken out; a null where that is nothing.
    pub(crate) taken: Document<T>,
}

/// Where the token puts a new item among so many.
fn place(token: &str, len: usize) -> Option<usize>
    ensures place { result ≡ place_among len token.now }
    ensures within { IfSome result (λ at. at ≤ len) }
{
    if token == "-" {
        return Some(len);
    }
    let at = position(token)?;
    if at <= len { Some(at) } else { None }
}

fn put_member<T: OwnedText + Drop>(
    members: &mut Object<T>,
    key: &str,
    value: Document<T>,
) -> Result<Done<T>, Refused<Refusal, Document<T>>>
    ensures { ChangesOrReturns T.text_of (Change.Put value) (key.now ∷ []) (obj (entry_members (document_tree T.text_of) members.old.entries)) (obj (entry_members (document_tree T.text_of) members.new.entries)) result }
{
    let Ok(text) = String::from_str(members.allocator(), key) else {
        return Err(Refused {
            why: Refusal::OutOfMemory,
            value,
        });
    };
    let name = T::owned(text);
    match members.insert(name, value) {
        Ok(found) => match found {
            Some(before) => Ok(Done {
                undo: Reversal::Swap,
                taken: before,
            }),
            None => Ok(Done {
                undo: Reversal::Out,
                taken: Document::null(),
            }),
        },
        Err(refused) => Err(Refused {
            why: Refusal::OutOfMemory,
            value: refused.value.1,
        }),
    }
}

fn put_item<T: KeyText + Drop>(
    items: &mut Vec<Document<T>>,
    token: &str,
    value: Document<T>,
) -> Result<Done<T>, Refused<Refusal, Document<T>>>
    ensures { ChangesOrReturns T.text_of (Change.Put value) (token.now ∷ []) (list (items_from (map (document_tree T.text_of) items.old.items))) (list (items_from (map (document_tree T.text_of) items.new.items))) result }
{
    let Some(at) = place(token, items.len()) else {
        return Err(Refused {
            why: Refusal::Fault(OperationFault::NoPlace),
            value,
        });
    };
    match items.insert(at, value) {
        Ok(()) => Ok(Done {
            undo: Reversal::OutItem(at),
            taken: Document::null(),
        }),
        Err(failed) => Err(Refused {
            why: Refusal::OutOfMemory,
            value: failed.value,
        }),
    }
}

fn put<T: OwnedText + Drop>(
    holder: &mut Document<T>,
    token: &str,
    value: Document<T>,
) -> Result<Done<T>, Refused<Refusal, Document<T>>>
    ensures { ChangesOrReturns T.text_of (Change.Put value) (token.now ∷ []) (document_tree T.text_of holder.old) (document_tree T.text_of holder.new) result }
{
    match holder {
        Document::Object(members) => put_member(members, token, value),
        Document::Array(items) => put_item(items, token, value),
        _ => Err(Refused {
            why: Refusal::Fault(OperationFault::Missing),
            value,
        }),
    }
}

fn take_member<T: KeyText + Drop>(members: &mut Object<T>, key: &str) -> Result<Done<T>, Refusal>
    ensures { Changes T.text_of Change.Take (key.now ∷ []) (obj (entry_members (document_tree T.text_of) members.old.entries)) (obj (entry_members (document_tree T.text_of) members.new.entries)) result }
{
    let room = members.room()?;
    match members.shift_remove_full(key) {
        Some((index, key, taken)) => Ok(Done {
            undo: Reversal::MemberBack { room, index, key },
            taken,
        }),
        None => Err(Refusal::Fault(OperationFault::Missing)),
    }
}

fn take_item<T: KeyText + Drop>(
    items: &mut Vec<Document<T>>,
    token: &str,
) -> Result<Done<T>, Refusal>
    ensures { Changes T.text_of Change.Take (token.now ∷ []) (list (items_from (map (document_tree T.text_of) items.old.items))) (list (items_from (map (document_tree T.text_of) items.new.items))) result }
{
    let Some(index) = position(token) else {
        return Err(Refusal::Fault(OperationFault::Missing));
    };
    if index < items.len() {
        let room = Vec::with_capacity(*items.allocator(), items.len())?;
        let taken = items.remove(index);
        Ok(Done {
            undo: Reversal::ItemBack { room, index },
            taken,
        })
    } else {
        Err(Refusal::Fault(OperationFault::Missing))
    }
}

fn take<T: OwnedText + Drop>(holder: &mut Document<T>, token: &str) -> Result<Done<T>, Refusal>
    ensures { Changes T.text_of Change.Take (token.now ∷ []) (document_tree T.text_of holder.old) (document_tree T.text_of holder.new) result }
{
    match holder {
        Document::Object(members) => take_member(members, token),
        Document::Array(items) => take_item(items, token),
        _ => Err(Refusal::Fault(OperationFault::Missing)),
    }
}

/// What an undo did; nothing undoes it.
pub(crate) fn undone<T: KeyText>(taken: Document<T>) -> Done<T>
    ensures { result.taken ≡ taken }
{
    Done {
        undo: Reversal::Out,
        taken,
    }
}

/// Makes the change in the container. Refused, it leaves it as it was, and hands back what was to be
/// put.
fn change_in<T: OwnedText + Drop>(
    holder: &mut Document<T>,
    token: &str,
    change: Change<T>,
) -> Result<Done<T>, Refused<Refusal, Document<T>>>
    ensures { ChangesOrReturns T.text_of change (token.now ∷ []) (document_tree T.text_of holder.old) (document_tree T.text_of holder.new) result }
{
    match change {
        Change::Put(value) => put(holder, token, value),
        Change::Take => match take(holder, token) {
            Ok(done) => Ok(done),
            Err(why) => Err(Refused {
                why,
                value: Document::null(),
            }),
        },
        Change::Swap(value) => match swap(holder, token, value) {
            Ok(taken) => Ok(Done {
                undo: Reversal::Swap,
                taken,
            }),
            Err(fault) => Err(Refused {
                why: Refusal::Fault(fault),
                value: Document::null(),
            }),
        },
        Change::Undo(reversal, value) => match undo(holder, token, reversal, value) {
            Ok(taken) => Ok(undone(taken)),
            Err(fault) => Err(Refused {
                why: Refusal::Fault(fault),
                value: Document::null(),
            }),
        },
    }
}

/// A change at a token of what it is made in.
#[derive(Drop)]
pub(crate) struct AtToken<'k, T: KeyText> {
    pub(crate) token: &'k str,
    pub(crate) change: Change<T>,
}

impl<'k, T: OwnedText + Drop> ChangeIn<Document<T>> for AtToken<'k, T> {
    type Answer = Result<Done<T>, Refused<Refusal, Document<T>>>;

    ghost makes = { λ c v w r. ChangesOrReturns T.text_of c.change (c.token.now ∷ []) (document_tree T.text_of v) (document_tree T.text_of w) r };

    fn change(self, holder: &mut Document<T>) -> Result<Done<T>, Refused<Refusal, Document<T>>> {
        let AtToken { token, change } = self;
        change_in(holder, token, change)
    }
}
