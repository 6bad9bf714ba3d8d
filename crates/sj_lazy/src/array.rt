//! Arrays of a lazy document.

ghost use Rattle.std.specs.Prelude.{◌≡◌, ◌↔◌, IsTrue, IfSome, option_map, map};
ghost use Rattle.sj_text_core.specs.Find.{nth_item};
ghost use Rattle.sj_text_core.specs.Tree.{items_len, no_items, listed};

use crate::value::{Lazy, Shared, Value, of_lent, of_tape};
use sj_document::BorrowedValue;
use sj_tape::Array as TapeArray;
use sj_tape::array::Iter as TapeIter;
use std::slice;

/// The items of an array.
#[derive(Clone, Copy, Debug)]
pub enum Array<'b, 't, 'i> {
    Tape(TapeArray<'t, 'i>),
    Value(&'b Vec<BorrowedValue<'i>>),
}

impl<'b, 't, 'i> Array<'b, 't, 'i> {
    ghost use Rattle.sj_lazy.specs.Array.{lazy_items, lazy_items_ahead, lazy_items_parts_ahead, lazy_array_choice, item_form};
    ghost use Rattle.sj_lazy.specs.Value.{value_tree, value_choice, form};

    /// The same array.
    pub fn clone(&self) -> Self
        ensures { result ≡ self.now }
    {
        *self
    }

    /// The item at that position, counted from 0; None past the last.
    pub fn get(&self, index: usize) -> Option<Value<'b, 't, 'i>>
        ensures value { option_map value_tree result ≡ nth_item index (lazy_items self.now) }
        ensures choice { IfSome result (λ v. value_choice v ≡ lazy_array_choice self.now) }
        ensures form { IfSome result (λ v. form v ≡ item_form self.now) }
    {
        match self {
            Array::Tape(items) => of_tape(items.get(index)),
            Array::Value(items) => of_lent(items.get(index)),
        }
    }

    /// How many items it has.
    pub fn len(&self) -> usize
        ensures { result ≡ items_len (lazy_items self.now) }
    {
        match self {
            Array::Tape(items) => items.len(),
            Array::Value(items) => items.len(),
        }
    }

    /// Whether it has no items.
    pub fn is_empty(&self) -> bool
        ensures { IsTrue result ↔ (lazy_items self.now ≡ no_items) }
    {
        self.len() == 0
    }

    /// The items in order.
    pub fn iter(&self) -> Iter<'b, 't, 'i>
        ensures items { lazy_items_ahead result ≡ listed (lazy_items self.now) }
        ensures parts { lazy_items_parts_ahead result ≡ map (λ t. (item_form self.now, (lazy_array_choice self.now, t))) (listed (lazy_items self.now)) }
    {
        match self {
            Array::Tape(items) => Iter::Tape(items.iter()),
            Array::Value(items) => Iter::Value(items.iter()),
        }
    }
}

/// The items of an array in order, as lazy values.
#[derive(Drop)]
pub enum Iter<'b, 't, 'i> {
    Tape(TapeIter<'t, 'i>),
    Value(slice::Iter<'b, BorrowedValue<'i>>),
}

impl<'b, 't, 'i> Iterator for Iter<'b, 't, 'i> {
    type Item = Value<'b, 't, 'i>;

    ghost use Rattle.std.specs.Iterator.{YieldsFirstBy, item_count};
    ghost use Rattle.sj_lazy.specs.Array.{lazy_items_parts_ahead};
    ghost use Rattle.sj_lazy.specs.Value.{formed};

    ghost next_gives = { YieldsFirstBy formed lazy_items_parts_ahead };

    ghost remaining = { item_count lazy_items_parts_ahead };

    fn next(&mut self) -> Option<Value<'b, 't, 'i>> {
        match self {
            Iter::Tape(items) => Some(Lazy::Tape(items.next()?)),
            Iter::Value(items) => Some(Lazy::Value(Shared::Borrowed(items.next()?))),
        }
    }
}
