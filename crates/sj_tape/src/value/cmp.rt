//! Whether two parts of tapes are the same document. Nothing is built, and no memory is taken.

ghost use Rattle.std.specs.Prelude.{◌≡◌, ◌↔◌, IsTrue, None, take};
ghost use Rattle.sj_text_core.specs.Agree.{pair_keys};
ghost use Rattle.sj_text_core.specs.inner.Agree.{Agree, HasTexts};
ghost use Rattle.sj_text_core.specs.Reads.{as_items, as_members};
ghost use Rattle.sj_text_core.specs.Repeats.{SameBy};
ghost use Rattle.sj_text_core.specs.Same.{Same};
ghost use Rattle.sj_text_core.specs.Tree.{list, obj, paired};
ghost use Rattle.sj_tape.specs.Items.{items, array_choice};
ghost use Rattle.sj_tape.specs.Members.{members, object_choice};
ghost use Rattle.sj_tape.specs.Value.{tape_tree, tape_choice};

use crate::array::Array;
use crate::object::Object;
use crate::value::Value;
use sj_text_core::{Repeats, SameAs, are_same_texts};

/// Same as another part exactly where the two mean one document: numbers by value, arrays item by
/// item, objects by the member of each key that counts in each.
impl<'t, 'i, 'u, 'j> SameAs<Value<'u, 'j>> for Value<'t, 'i> {
    ghost same = { λ v w. SameBy (tape_choice v) (tape_choice w) (tape_tree v) (tape_tree w) };

    fn same_as(&self, other: &Value<'u, 'j>) -> bool {
        same_parts(*self, *other)
    }
}

/// Whether the two are the same, each by the member of a key that counts in it.
#[cycle(same)]
fn same_parts(left: Value, right: Value) -> bool
    ensures { IsTrue result ↔ SameBy (tape_choice left.entry) (tape_choice right.entry) (tape_tree left.entry) (tape_tree right.entry) }
{
    match left.as_array() {
        Some(items) => match right.as_array() {
            Some(others) => same_items(items, others),
            None => false,
        },
        None => match left.as_object() {
            Some(members) => match right.as_object() {
                Some(others) => same_members(members, others),
                None => false,
            },
            None => same_leaves(left, right),
        },
    }
}

/// Whether a scalar or a text is the same as the other part.
fn same_leaves(left: Value, right: Value) -> bool
    requires no_array { as_items (tape_tree left) ≡ None }
    requires no_object { as_members (tape_tree left) ≡ None }
    ensures { IsTrue result ↔ Same (tape_tree left.entry) (tape_tree right.entry) }
{
    match left.as_static() {
        Some(scalar) => match right.as_static() {
            Some(other) => scalar == other,
            None => false,
        },
        None => match left.into_string() {
            Some(text) => match right.into_string() {
                Some(other) => are_same_texts(text, other),
                None => false,
            },
            None => unreachable!(),
        },
    }
}

#[cycle(same)]
fn same_items(left: Array, right: Array) -> bool
    ensures { IsTrue result ↔ SameBy (array_choice left.entry) (array_choice right.entry) (list (items left.entry)) (list (items right.entry)) }
{
    if left.len() != right.len() {
        return false;
    }
    let mut others = right.iter();
    for item in left.iter() {
        match others.next() {
            Some(other) => {
                if !same_parts(item, other) {
                    return false;
                }
            }
            None => return false,
        }
    }
    true
}

/// Only here does it matter which member of a key counts.
#[cycle(same)]
#[inline(always)]
fn same_members(left: Object, right: Object) -> bool
    ensures { IsTrue result ↔ SameBy (object_choice left.entry) (object_choice right.entry) (obj (members left.entry)) (obj (members right.entry)) }
{
    match left.repeats() {
        Repeats::First => match right.repeats() {
            Repeats::First => first_in_step(left, right),
            Repeats::Last => last_by_key(right, left),
        },
        Repeats::Last => last_members(left, right),
    }
}

/// Whether the two are the same by the first member of each key. Members with one key in one place
/// are compared in step, as far as there are such; the others are looked up.
#[cycle(same)]
fn first_in_step(left: Object, right: Object) -> bool
    requires choice { object_choice left ≡ Repeats.First }
    requires other_choice { object_choice right ≡ Repeats.First }
    ensures { IsTrue result ↔ Same (obj (members left.entry)) (obj (members right.entry)) }
{
    let mut others = right.iter();
    let mut place = 0;
    for (key, value) in left.iter() {
        match others.next() {
            Some((name, other)) if are_same_texts(key, name) => {
                if !same_parts(value, other) && !left.has_before(place, key) {
                    return false;
                }
            }
            _ => return first_by_key(left, right, place),
        }
        place += 1;
    }
    match others.next() {
        None => true,
        Some(_) => first_by_key(left, right, place),
    }
}

/// The same, where the first `place` members have the same keys in both, and agree.
#[cycle(same)]
fn first_by_key(left: Object, right: Object, place: usize) -> bool
    requires choice { object_choice left ≡ Repeats.First }
    requires other_choice { object_choice right ≡ Repeats.First }
    requires in_step { pair_keys (take place (paired (members left))) ≡ pair_keys (take place (paired (members right))) }
    requires agree { Agree place (paired (members left)) (paired (members right)) }
    ensures { IsTrue result ↔ Same (obj (members left.entry)) (obj (members right.entry)) }
{
    let mut at = 0;
    for (key, value) in left.iter() {
        if at >= place && !left.has_before(at, key) {
            match right.get(key) {
                Some(other) => {
                    if !same_parts(value, other) {
                        return false;
                    }
                }
                None => return false,
            }
        }
        at += 1;
    }
    has_keys(left, right, place)
}

/// Whether the first object has every key of the second, where it has those of the first `place`
/// members.
fn has_keys(left: Object, right: Object, place: usize) -> bool
    requires { pair_keys (take place (paired (members left))) ≡ pair_keys (take place (paired (members right))) }
    ensures { IsTrue result ↔ HasTexts (paired (members left.entry)) (paired (members right.entry)) }
{
    let mut known = place;
    for key in right.keys() {
        if known > 0 {
            known -= 1;
        } else if left.first(key).is_none() {
            return false;
        }
    }
    true
}

/// In step where the last member of each key counts in both, and both have the same keys in one
/// order; else by look-ups.
#[cycle(same)]
fn last_members(left: Object, right: Object) -> bool
    requires { object_choice left ≡ Repeats.Last }
    ensures { IsTrue result ↔ SameBy Repeats.Last (object_choice right.entry) (obj (members left.entry)) (obj (members right.entry)) }
{
    match right.repeats() {
        Repeats::Last if has_same_keys(left, right) => last_in_step(left, right),
        _ => last_by_key(left, right),
    }
}

/// Whether the two have the same keys in one order.
fn has_same_keys(left: Object, right: Object) -> bool
    ensures { IsTrue result ↔ pair_keys (paired (members left.entry)) ≡ pair_keys (paired (members right.entry)) }
{
    let mut others = right.keys();
    for key in left.keys() {
        match others.next() {
            Some(name) if are_same_texts(key, name) => {}
            _ => return false,
        }
    }
    others.next().is_none()
}

/// Values that differ are passed over where a later member has their key.
#[cycle(same)]
fn last_in_step(left: Object, right: Object) -> bool
    requires choice { object_choice left ≡ Repeats.Last }
    requires other_choice { object_choice right ≡ Repeats.Last }
    requires keys { pair_keys (paired (members left)) ≡ pair_keys (paired (members right)) }
    ensures { IsTrue result ↔ SameBy Repeats.Last Repeats.Last (obj (members left.entry)) (obj (members right.entry)) }
{
    let mut others = right.iter();
    let mut seen = 0;
    for (key, value) in left.iter() {
        seen += 1;
        match others.next() {
            Some((_, other)) => {
                if !same_parts(value, other) && !left.has_behind(seen, key) {
                    return false;
                }
            }
            None => return false,
        }
    }
    true
}

/// A member is passed over where a later one has its key; each other is looked up.
#[cycle(same)]
fn last_by_key(left: Object, right: Object) -> bool
    requires { object_choice left ≡ Repeats.Last }
    ensures { IsTrue result ↔ SameBy Repeats.Last (object_choice right.entry) (obj (members left.entry)) (obj (members right.entry)) }
{
    let mut seen = 0;
    for (key, value) in left.iter() {
        seen += 1;
        if !left.has_behind(seen, key) {
            match right.get(key) {
                Some(other) => {
                    if !same_parts(value, other) {
                        return false;
                    }
                }
                None => return false,
            }
        }
    }
    has_keys(left, right, 0)
}
