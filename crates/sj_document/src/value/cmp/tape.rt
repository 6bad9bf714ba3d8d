//! Whether a part of a tape and a document are the same. Nothing is built, and no memory is
//! taken.

ghost use Rattle.std.specs.Prelude.{◌≡◌, ◌↔◌, IsTrue, map, take};
ghost use Rattle.sj_text_core.specs.Agree.{pair_keys};
ghost use Rattle.sj_text_core.specs.inner.Agree.{Agree, HasTexts};
ghost use Rattle.sj_text_core.specs.Repeats.{SameBy};
ghost use Rattle.sj_text_core.specs.Same.{Same};
ghost use Rattle.sj_text_core.specs.Tree.{list, obj, items_from, paired};
ghost use Rattle.sj_tape.specs.Items.{items, array_choice};
ghost use Rattle.sj_tape.specs.Members.{members, object_choice};
ghost use Rattle.sj_tape.specs.Value.{tape_tree, tape_choice};
ghost use Rattle.sj_object.specs.Members.{entry_members};
ghost use Rattle.sj_document.specs.Document.{document_tree};

use crate::value::{Document, Object};
use sj_object::KeyText;
use sj_tape::{Array, Value, object};
use sj_text_core::{Repeats, are_same_texts};

/// Whether the part of a tape and the document are the same; of each key the member counts that
/// the part says.
#[cycle(same)]
pub(crate) fn same_as_tape<T: KeyText>(left: Value, right: &Document<T>) -> bool
    ensures { IsTrue result ↔ SameBy (tape_choice left.entry) Repeats.First (tape_tree left.entry) (document_tree T.text_of right.now) }
{
    match right {
        Document::Static(other) => match left.as_static() {
            Some(scalar) => scalar == *other,
            None => false,
        },
        Document::String(other) => match left.into_string() {
            Some(text) => are_same_texts(text, other.text()),
            None => false,
        },
        Document::Array(others) => match left.as_array() {
            Some(items) => same_items(items, others),
            None => false,
        },
        Document::Object(others) => match left.as_object() {
            Some(members) => same_members(members, others, left.repeats()),
            None => false,
        },
    }
}

#[cycle(same)]
fn same_items<T: KeyText>(left: Array, right: &Vec<Document<T>>) -> bool
    ensures { IsTrue result ↔ SameBy (array_choice left.entry) Repeats.First (list (items left.entry)) (list (items_from (map (document_tree T.text_of) right.now.items))) }
{
    let others = right.as_slice();
    if left.len() != others.len() {
        return false;
    }
    let mut items = left.iter();
    for other in others {
        match items.next() {
            Some(item) => {
                if !same_as_tape(item, other) {
                    return false;
                }
            }
            None => return false,
        }
    }
    true
}

/// Only here does it matter which member of a key counts in the object of a tape.
#[cycle(same)]
#[inline(always)]
fn same_members<T: KeyText>(left: object::Object, right: &Object<T>, repeats: Repeats) -> bool
    requires { repeats ≡ object_choice left }
    ensures { IsTrue result ↔ SameBy (object_choice left.entry) Repeats.First (obj (members left.entry)) (obj (entry_members (document_tree T.text_of) right.now.entries)) }
{
    match repeats {
        Repeats::First => first_in_step(left, right),
        Repeats::Last => last_members(left, right),
    }
}

/// Whether the two are the same by the first member of each key. Members with one key in one place
/// are compared in step, as far as there are such; the others are looked up.
#[cycle(same)]
fn first_in_step<T: KeyText>(left: object::Object, right: &Object<T>) -> bool
    requires { object_choice left ≡ Repeats.First }
    ensures { IsTrue result ↔ Same (obj (members left.entry)) (obj (entry_members (document_tree T.text_of) right.now.entries)) }
{
    let mut others = right.iter();
    let mut place = 0;
    for (key, value) in left.iter() {
        match others.next() {
            Some((name, other)) if are_same_texts(key, name.text()) => {
                if !same_as_tape(value, other) {
                    return false;
                }
            }
            _ => return first_by_key(left, right, place),
        }
        place += 1;
    }
    match others.next() {
        None => true,
        Some(_) => first_by_key(left, right, place),
    }
}

/// The same, where the first `place` members have the same keys in both, and agree.
#[cycle(same)]
fn first_by_key<T: KeyText>(left: object::Object, right: &Object<T>, place: usize) -> bool
    requires choice { object_choice left ≡ Repeats.First }
    requires in_step { pair_keys (take place (paired (members left))) ≡ pair_keys (take place (paired (entry_members (document_tree T.text_of) right.now.entries))) }
    requires agree { Agree place (paired (members left)) (paired (entry_members (document_tree T.text_of) right.now.entries)) }
    ensures { IsTrue result ↔ Same (obj (members left.entry)) (obj (entry_members (document_tree T.text_of) right.now.entries)) }
{
    let mut at = 0;
    for (key, value) in left.iter() {
        if at >= place && !left.has_before(at, key) {
            match right.get(key) {
                Some(other) => {
                    if !same_as_tape(value, other) {
                        return false;
                    }
                }
                None => return false,
            }
        }
        at += 1;
    }
    has_keys(left, right, place)
}

/// Whether the object of a tape has every key of the map, where it has those of the first `place`
/// members.
fn has_keys<T: KeyText>(left: object::Object, right: &Object<T>, place: usize) -> bool
    requires { pair_keys (take place (paired (members left))) ≡ pair_keys (take place (paired (entry_members (document_tree T.text_of) right.now.entries))) }
    ensures { IsTrue result ↔ HasTexts (paired (members left.entry)) (paired (entry_members (document_tree T.text_of) right.now.entries)) }
{
    let mut known = place;
    for (key, _) in right.iter() {
        if known > 0 {
            known -= 1;
        } else if left.get(key.text()).is_none() {
            return false;
        }
    }
    true
}

/// In step where both have the same keys in one order; else by look-ups.
#[cycle(same)]
fn last_members<T: KeyText>(left: object::Object, right: &Object<T>) -> bool
    requires { object_choice left ≡ Repeats.Last }
    ensures { IsTrue result ↔ SameBy Repeats.Last Repeats.First (obj (members left.entry)) (obj (entry_members (document_tree T.text_of) right.now.entries)) }
{
    if has_same_keys(left, right) {
        last_in_step(left, right)
    } else {
        last_by_key(left, right)
    }
}

/// Whether the two have the same keys in one order.
fn has_same_keys<T: KeyText>(left: object::Object, right: &Object<T>) -> bool
    ensures { IsTrue result ↔ pair_keys (paired (members left.entry)) ≡ pair_keys (paired (entry_members (document_tree T.text_of) right.now.entries)) }
{
    let mut others = right.iter();
    for key in left.keys() {
        match others.next() {
            Some((name, _)) if are_same_texts(key, name.text()) => {}
            _ => return false,
        }
    }
    others.next().is_none()
}

/// No key stands twice in a map, so each member counts.
#[cycle(same)]
fn last_in_step<T: KeyText>(left: object::Object, right: &Object<T>) -> bool
    requires choice { object_choice left ≡ Repeats.Last }
    requires keys { pair_keys (paired (members left)) ≡ pair_keys (paired (entry_members (document_tree T.text_of) right.now.entries)) }
    ensures { IsTrue result ↔ SameBy Repeats.Last Repeats.First (obj (members left.entry)) (obj (entry_members (document_tree T.text_of) right.now.entries)) }
{
    let mut others = right.iter();
    for (_, value) in left.iter() {
        match others.next() {
            Some((_, other)) => {
                if !same_as_tape(value, other) {
                    return false;
                }
            }
            None => return false,
        }
    }
    true
}

/// A member is passed over where a later one has its key; each other is looked up.
#[cycle(same)]
fn last_by_key<T: KeyText>(left: object::Object, right: &Object<T>) -> bool
    requires { object_choice left ≡ Repeats.Last }
    ensures { IsTrue result ↔ SameBy Repeats.Last Repeats.First (obj (members left.entry)) (obj (entry_members (document_tree T.text_of) right.now.entries)) }
{
    let mut seen = 0;
    for (key, value) in left.iter() {
        seen += 1;
        if !left.has_behind(seen, key) {
            match right.get(key) {
                Some(other) => {
                    if !same_as_tape(value, other) {
                        return false;
                    }
                }
                None => return false,
            }
        }
    }
    has_keys(left, right, 0)
}
