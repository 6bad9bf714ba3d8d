//! Objects of a lazy document.

ghost use Rattle.std.specs.Prelude.{◌≡◌, ◌↔◌, ℕ, List, IsTrue, IfSome, map, option_map};
ghost use Rattle.std.specs.Cow.{cow_str_bytes};
ghost use Rattle.sj_object.specs.Entries.{entry_texts};
ghost use Rattle.sj_text_core.specs.Repeats.{find_member_by};
ghost use Rattle.sj_tape.specs.Members.{chosen_pairs};
ghost use Rattle.sj_text_core.specs.Tree.{Tree, members_len, no_members, paired};

use crate::value::{Lazy, Shared, Value, of_lent, of_tape};
use sj_document::{BorrowedValue, Object as Map};
use sj_object::{Iter as MapIter, KeyText, Keys as MapKeys, Values as MapValues};
use sj_tape::Object as TapeObject;
use sj_tape::object::{Iter as TapeIter, Keys as TapeKeys, Values as TapeValues};
use std::borrow::CowStr;

/// The members of an object.
#[derive(Clone, Copy, Debug)]
pub enum Object<'b, 't, 'i> {
    Tape(TapeObject<'t, 'i>),
    Value(&'b Map<CowStr<'i>>),
}

impl<'b, 't, 'i> Object<'b, 't, 'i> {
    ghost use Rattle.sj_lazy.specs.Object.{lazy_members, lazy_members_ahead, lazy_members_parts_ahead, lazy_keys_ahead, lazy_values_ahead, lazy_object_choice, value_form};
    ghost use Rattle.sj_lazy.specs.Value.{value_tree, value_choice, form};

    /// The value of the key; None where there is none.
    pub fn get(&self, key: &str) -> Option<Value<'b, 't, 'i>>
        ensures value { option_map value_tree result ≡ find_member_by (lazy_object_choice self.now) key.now (lazy_members self.now) }
        ensures choice { IfSome result (λ v. value_choice v ≡ lazy_object_choice self.now) }
        ensures form { IfSome result (λ v. form v ≡ value_form self.now) }
    {
        match self {
            Object::Tape(members) => of_tape(members.get(key)),
            Object::Value(members) => of_lent(members.get(key)),
        }
    }

    /// How many members it has; of a tape repeats are counted.
    pub fn len(&self) -> usize
        ensures { result ≡ members_len (lazy_members self.now) }
    {
        match self {
            Object::Tape(members) => members.len(),
            Object::Value(members) => members.len(),
        }
    }

    /// Whether it has no members.
    pub fn is_empty(&self) -> bool
        ensures { IsTrue result ↔ (lazy_members self.now ≡ no_members) }
    {
        self.len() == 0
    }

    /// The members in order; of a tape repeats too.
    pub fn iter(&self) -> Iter<'b, 't, 'i>
        ensures members { lazy_members_ahead result ≡ paired (lazy_members self.now) }
        ensures parts { lazy_members_parts_ahead result ≡ map (λ p. (p.0, (value_form self.now, p.1))) (chosen_pairs (lazy_object_choice self.now) (paired (lazy_members self.now))) }
    {
        match self {
            Object::Tape(members) => Iter::Tape(members.iter()),
            Object::Value(members) => Iter::Value(members.iter()),
        }
    }

    /// The keys in order; of a tape repeats too.
    pub fn keys(&self) -> Keys<'b, 't, 'i>
        ensures { lazy_keys_ahead result ≡ map (λ (p : List ℕ × Tree). p.0) (paired (lazy_members self.now)) }
    {
        match self {
            Object::Tape(members) => Keys::Tape(members.keys()),
            Object::Value(members) => Keys::Value(keys_of(*members)),
        }
    }

    /// The values in order; of a tape those of repeats too.
    pub fn values(&self) -> Values<'b, 't, 'i>
        ensures { lazy_values_ahead result ≡ map (λ p. (value_form self.now, p.1)) (chosen_pairs (lazy_object_choice self.now) (paired (lazy_members self.now))) }
    {
        match self {
            Object::Tape(members) => Values::Tape(members.values()),
            Object::Value(members) => Values::Value(members.values()),
        }
    }
}

/// The keys of a map, whose texts are those of its members.
fn keys_of<'b, 'i>(members: &'b Map<CowStr<'i>>) -> MapKeys<'b, CowStr<'i>, BorrowedValue<'i>>
    ensures { map cow_str_bytes result ≡ entry_texts members.now.entries }
{
    // That each text is its key's is told by the pairs.
    let _pairs = members.iter();
    members.keys()
}

/// The members of an object in order, as keys and lazy values.
#[derive(Drop)]
pub enum Iter<'b, 't, 'i> {
    Tape(TapeIter<'t, 'i>),
    Value(MapIter<'b, CowStr<'i>, BorrowedValue<'i>>),
}

impl<'b, 't, 'i> Iterator for Iter<'b, 't, 'i> {
    type Item = (&'b str, Value<'b, 't, 'i>);

    ghost use Rattle.std.specs.Iterator.{YieldsFirstBy, item_count};
    ghost use Rattle.sj_lazy.specs.Object.{lazy_members_parts_ahead};
    ghost use Rattle.sj_lazy.specs.Value.{formed};

    ghost next_gives = { YieldsFirstBy (λ p. (p.0.now, formed p.1)) lazy_members_parts_ahead };

    ghost remaining = { item_count lazy_members_parts_ahead };

    fn next(&mut self) -> Option<(&'b str, Value<'b, 't, 'i>)> {
        match self {
            Iter::Tape(members) => {
                let (key, value) = members.next()?;
                Some((key, Lazy::Tape(value)))
            }
            Iter::Value(members) => {
                let (key, value) = members.next()?;
                Some((key.text(), Lazy::Value(Shared::Borrowed(value))))
            }
        }
    }
}

/// The keys of an object in order.
#[derive(Drop)]
pub enum Keys<'b, 't, 'i> {
    Tape(TapeKeys<'t, 'i>),
    Value(MapKeys<'b, CowStr<'i>, BorrowedValue<'i>>),
}

impl<'b, 't, 'i> Iterator for Keys<'b, 't, 'i> {
    type Item = &'b str;

    ghost use Rattle.std.specs.Iterator.{YieldsFirstBy, item_count};
    ghost use Rattle.sj_lazy.specs.Object.{lazy_keys_ahead};

    ghost next_gives = { YieldsFirstBy (λ k. k.now) lazy_keys_ahead };

    ghost remaining = { item_count lazy_keys_ahead };

    fn next(&mut self) -> Option<&'b str> {
        match self {
            Keys::Tape(keys) => Some(keys.next()?),
            Keys::Value(keys) => Some(keys.next()?.text()),
        }
    }
}

/// The values of an object in order, as lazy values.
#[derive(Drop)]
pub enum Values<'b, 't, 'i> {
    Tape(TapeValues<'t, 'i>),
    Value(MapValues<'b, CowStr<'i>, BorrowedValue<'i>>),
}

impl<'b, 't, 'i> Iterator for Values<'b, 't, 'i> {
    type Item = Value<'b, 't, 'i>;

    ghost use Rattle.std.specs.Iterator.{YieldsFirstBy, item_count};
    ghost use Rattle.sj_lazy.specs.Object.{lazy_values_ahead};
    ghost use Rattle.sj_lazy.specs.Value.{formed};

    ghost next_gives = { YieldsFirstBy formed lazy_values_ahead };

    ghost remaining = { item_count lazy_values_ahead };

    fn next(&mut self) -> Option<Value<'b, 't, 'i>> {
        match self {
            Values::Tape(values) => Some(Lazy::Tape(values.next()?)),
            Values::Value(values) => Some(Lazy::Value(Shared::Borrowed(values.next()?))),
        }
    }
}
