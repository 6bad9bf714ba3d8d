//! Parts that were taken out of one container, one after another, with room for all of them.

ghost use Rattle.std.specs.Prelude.{◌≡◌, ◌≤◌, OnOk, map, string_bytes};
ghost use Rattle.std.specs.Vec.{vec_capacity};
ghost use Rattle.sj_text_core.specs.Tree.{Tree, list, obj, items_from};
ghost use Rattle.sj_object.specs.Members.{entry_members};
ghost use Rattle.sj_document.specs.Document.{document_tree};
ghost use Rattle.sj_patch.specs.inner.Changed.{TakesBeside, IsGapOf, HasPlace, gap_filled, gaps_filled, items_filled};

use crate::reversal::has_place;
use sj_document::{Change as ChangeIn, Document, Object};
use sj_object::{KeyText, Room};
use sj_pointer::position;
use std::alloc::AllocError;

/// A part that was taken out of a container, and the position that it had.
#[derive(Drop)]
pub(crate) enum Gap<T: KeyText> {
    Member(usize, T, Document<T>),
    Item(usize, Document<T>),
}

/// Parts that were taken out of one container, the first one first, and the room in which they go
/// back.
#[derive(Drop)]
pub(crate) enum Gaps<T: KeyText> {
    Members {
        room: Room<T, Document<T>>,
        taken: Vec<(usize, T, Document<T>)>,
    },
    Items {
        room: Vec<Document<T>>,
        taken: Vec<(usize, Document<T>)>,
    },
}

impl<T: KeyText + Drop> Gaps<T> {
    ghost use Rattle.sj_patch.specs.declared.gaps.Gap.TheVariants.{Member, Item};

    /// Memory for one part more.
    pub(crate) fn reserve(&mut self) -> Result<(), AllocError>
        ensures same { (u : Tree) → gaps_filled T.text_of self.new u ≡ gaps_filled T.text_of self.old u }
        ensures place { OnOk result (HasPlace T.text_of self.new) }
    {
        match self {
            Gaps::Members { room: _, taken } => taken.reserve(1),
            Gaps::Items { room: _, taken } => taken.reserve(1),
        }
    }

    fn push_member(&mut self, index: usize, key: T, value: Document<T>)
        requires place { HasPlace T.text_of self.old }
        requires kind { IsGapOf T.text_of self.old (Member index key value) }
        ensures { (u : Tree) → gaps_filled T.text_of self.new u ≡ gaps_filled T.text_of self.old (gap_filled T.text_of self.old (Member index key value) u) }
    {
        let Gaps::Members { room: _, taken } = self else {
            return;
        };
        taken.push((index, key, value)).unwrap();
    }

    fn push_item(&mut self, index: usize, value: Document<T>)
        requires place { HasPlace T.text_of self.old }
        requires kind { IsGapOf T.text_of self.old (Item index value) }
        ensures { (u : Tree) → gaps_filled T.text_of self.new u ≡ gaps_filled T.text_of self.old (gap_filled T.text_of self.old (Item index value) u) }
    {
        let Gaps::Items { room: _, taken } = self else {
            return;
        };
        taken.push((index, value)).unwrap();
    }

    /// One part more, for which there is memory.
    pub(crate) fn push(&mut self, gap: Gap<T>)
        requires place { HasPlace T.text_of self.old }
        requires kind { IsGapOf T.text_of self.old gap }
        ensures { (u : Tree) → gaps_filled T.text_of self.new u ≡ gaps_filled T.text_of self.old (gap_filled T.text_of self.old gap u) }
    {
        match gap {
            Gap::Member(index, key, value) => self.push_member(index, key, value),
            Gap::Item(index, value) => self.push_item(index, value),
        }
    }
}

fn take_member_beside<T: KeyText + Drop>(
    members: &mut Object<T>,
    key: &str,
    gaps: &Gaps<T>,
) -> Option<Gap<T>>
    ensures { TakesBeside T.text_of gaps.now key.now (obj (entry_members (document_tree T.text_of) members.old.entries)) (obj (entry_members (document_tree T.text_of) members.new.entries)) result }
{
    let Gaps::Members { room, taken: _ } = gaps else {
        return None;
    };
    if members.len() > room.places() {
        return None;
    }
    let (index, key, value) = members.shift_remove_full(key)?;
    Some(Gap::Member(index, key, value))
}

fn take_item_beside<T: KeyText + Drop>(
    items: &mut Vec<Document<T>>,
    token: &str,
    gaps: &Gaps<T>,
) -> Option<Gap<T>>
    ensures { TakesBeside T.text_of gaps.now token.now (list (items_from (map (document_tree T.text_of) items.old.items))) (list (items_from (map (document_tree T.text_of) items.new.items))) result }
{
    let Gaps::Items { room, taken: _ } = gaps else {
        return None;
    };
    let index = position(token)?;
    if items.len() > room.capacity() || index >= items.len() {
        return None;
    }
    Some(Gap::Item(index, items.remove(index)))
}

/// Takes out what stands at the token, where that is a part of the gaps' kind and their room takes
/// all; else the container is as it was.
fn take_beside<T: KeyText + Drop>(
    holder: &mut Document<T>,
    token: &str,
    gaps: &Gaps<T>,
) -> Option<Gap<T>>
    ensures { TakesBeside T.text_of gaps.now token.now (document_tree T.text_of holder.old) (document_tree T.text_of holder.new) result }
{
    match holder {
        Document::Object(members) => take_member_beside(members, token, gaps),
        Document::Array(items) => take_item_beside(items, token, gaps),
        _ => None,
    }
}

/// What stands at the token of a container is taken out, beside the gaps that are there.
#[derive(Drop)]
pub(crate) struct TakeBeside<'k, 'g, T: KeyText> {
    pub(crate) token: &'k str,
    pub(crate) gaps: &'g Gaps<T>,
}

impl<'k, 'g, T: KeyText + Drop> ChangeIn<Document<T>> for TakeBeside<'k, 'g, T> {
    type Answer = Option<Gap<T>>;

    ghost makes = { λ c v w r. TakesBeside T.text_of c.gaps.now c.token.now (document_tree T.text_of v) (document_tree T.text_of w) r };

    fn change(self, holder: &mut Document<T>) -> Option<Gap<T>> {
        let TakeBeside { token, gaps } = self;
        take_beside(holder, token, gaps)
    }
}

/// Puts items back, the last that was taken out first, each where there is a place for it.
fn put_back_items<T: KeyText + Drop>(
    items: &mut Vec<Document<T>>,
    places: usize,
    taken: Vec<(usize, Document<T>)>,
)
    requires { places ≤ vec_capacity items.old }
    ensures { list (items_from (map (document_tree T.text_of) items.new.items)) ≡ items_filled T.text_of places taken.items (list (items_from (map (document_tree T.text_of) items.old.items))) }
{
    let mut left = taken;
    while let Some((index, value)) = left.pop() {
        if has_place(items.len(), places, index) {
            items.insert(index, value).unwrap();
        }
    }
}

fn fill_items<T: KeyText + Drop>(items: &mut Vec<Document<T>>, gaps: Gaps<T>)
    ensures { list (items_from (map (document_tree T.text_of) items.new.items)) ≡ gaps_filled T.text_of gaps (list (items_from (map (document_tree T.text_of) items.old.items))) }
{
    let Gaps::Items { room, taken } = gaps else {
        return;
    };
    if items.len() > room.capacity() {
        return;
    }
    let mut filled = room;
    let places = filled.capacity();
    filled.clear();
    filled.append(items).unwrap();
    put_back_items(&mut filled, places, taken);
    *items = filled;
}

fn fill_members<T: KeyText + Drop>(members: &mut Object<T>, gaps: Gaps<T>)
    ensures { obj (entry_members (document_tree T.text_of) members.new.entries) ≡ gaps_filled T.text_of gaps (obj (entry_members (document_tree T.text_of) members.old.entries)) }
{
    let Gaps::Members { room, taken } = gaps else {
        return;
    };
    members.restore_all(room, taken);
}

fn fill_in<T: KeyText + Drop>(holder: &mut Document<T>, gaps: Gaps<T>)
    ensures { document_tree T.text_of holder.new ≡ gaps_filled T.text_of gaps (document_tree T.text_of holder.old) }
{
    match holder {
        Document::Object(members) => fill_members(members, gaps),
        Document::Array(items) => fill_items(items, gaps),
        Document::Static(_) | Document::String(_) => (),
    }
}

/// The gaps of a container are filled, the last first. It wants no memory.
#[derive(Drop)]
pub(crate) struct Fill<T: KeyText> {
    pub(crate) gaps: Gaps<T>,
}

impl<T: KeyText + Drop> ChangeIn<Document<T>> for Fill<T> {
    type Answer = ();

    ghost makes = { λ c v w r. document_tree T.text_of w ≡ gaps_filled T.text_of c.gaps (document_tree T.text_of v) };

    fn change(self, holder: &mut Document<T>) {
        fill_in(holder, self.gaps)
    }
}
