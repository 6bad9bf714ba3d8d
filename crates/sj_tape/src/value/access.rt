//! What a part of a tape is, and its members and items.

ghost use Rattle.std.specs.Prelude.{◌≡◌, ◌+◌, is_some, option_map, IfOk, IfSome};
ghost use Rattle.std.specs.Result.{result_map_both};
ghost use Rattle.sj_text_core.specs.Find.{nth, nth_item};
ghost use Rattle.sj_text_core.specs.Reads.{kind_of, as_items, as_members, as_text, try_as, try_found};
ghost use Rattle.sj_text_core.specs.Repeats.{find_by, visited_in};
ghost use Rattle.sj_text_core.specs.Scalars.{static_tree};
ghost use Rattle.sj_tape.specs.Items.{items, array_choice};
ghost use Rattle.sj_tape.specs.Members.{members, object_choice};
ghost use Rattle.sj_tape.specs.Value.{tape_tree, tape_choice, as_scalar};

use super::Value;
use crate::array::Array;
use crate::node::Node;
use crate::object::Object;
use crate::search::find_counted;
use sj_text_core::{StaticNode, Steps, TryTypeError, TypedValue, ValueType};
use std::sync::ledger::Ledger;

impl<'t, 'i> Value<'t, 'i> {
    /// The items, where it is an array; else None.
    #[inline]
    pub fn as_array(&self) -> Option<Array<'t, 'i>>
        ensures items { option_map items result ≡ as_items (tape_tree self.now) }
        ensures choice { IfSome result (λ a. array_choice a ≡ tape_choice self.now) }
    {
        let len = self.nodes.array_len()?;
        let nodes = self.nodes.from(1);
        Some(Array::from_nodes(len, nodes, self.repeats))
    }

    /// The members, where it is an object; else None.
    #[inline]
    pub fn as_object(&self) -> Option<Object<'t, 'i>>
        ensures members { option_map members result ≡ as_members (tape_tree self.now) }
        ensures choice { IfSome result (λ o. object_choice o ≡ tape_choice self.now) }
    {
        let len = self.nodes.object_len()?;
        let nodes = self.nodes.from(1);
        Some(Object::from_nodes(len, nodes, self.repeats))
    }

    /// As `as_array`; of another part, that an array was expected and which kind it is.
    pub fn try_as_array(&self) -> Result<Array<'t, 'i>, TryTypeError>
        ensures items { result_map_both items (λ e. e) result ≡ try_as as_items ValueType.Array (tape_tree self.now) }
        ensures choice { IfOk result (λ a. array_choice a ≡ tape_choice self.now) }
    {
        self.as_array().ok_or(self.fault(ValueType::Array))
    }

    /// As `as_object`; of another part, that an object was expected and which kind it is.
    pub fn try_as_object(&self) -> Result<Object<'t, 'i>, TryTypeError>
        ensures members { result_map_both members (λ e. e) result ≡ try_as as_members ValueType.Object (tape_tree self.now) }
        ensures choice { IfOk result (λ o. object_choice o ≡ tape_choice self.now) }
    {
        self.as_object().ok_or(self.fault(ValueType::Object))
    }

    /// That another kind was expected.
    pub(super) fn fault(&self, expected: ValueType) -> TryTypeError
        ensures expected { result.expected ≡ expected }
        ensures got { result.got ≡ kind_of (tape_tree self.now) }
    {
        TryTypeError {
            expected,
            got: self.value_type(),
        }
    }

    /// The value of the member with that key that counts; None where there is none, and on a
    /// non-object.
    pub fn get(&self, key: &str) -> Option<Value<'t, 'i>>
        ensures value { option_map tape_tree result ≡ find_by (tape_choice self.now) key.now (tape_tree self.now) }
        ensures choice { IfSome result (λ v. tape_choice v ≡ tape_choice self.now) }
    {
        match self.as_object() {
            Some(members) => members.get(key),
            None => None,
        }
    }

    /// As `get`, with a step for each member that is compared: one for each member up to the one
    /// found, for every member where none is found, and none on a non-object.
    pub fn get_steps<L: Ledger>(&self, key: &str, steps: &mut Steps<L>) -> Option<Value<'t, 'i>>
        ensures value { option_map tape_tree result ≡ find_by (tape_choice self.now) key.now (tape_tree self.now) }
        ensures choice { IfSome result (λ v. tape_choice v ≡ tape_choice self.now) }
        ensures exact { steps.new ≡ steps.old + visited_in (tape_choice self.now) key.now (tape_tree self.now) }
    {
        match self.as_object() {
            Some(members) => find_counted(&members, key.as_bytes(), steps),
            None => None,
        }
    }

    /// Whether a member has that key; false on a non-object.
    pub fn contains_key(&self, key: &str) -> bool
        ensures { result ≡ is_some (find_by (tape_choice self.now) key.now (tape_tree self.now)) }
    {
        self.get(key).is_some()
    }

    /// As `get`; of a non-object, that an object was expected and which kind it is.
    pub fn try_get(&self, key: &str) -> Result<Option<Value<'t, 'i>>, TryTypeError>
        ensures value { result_map_both (option_map tape_tree) (λ e. e) result ≡ try_found (tape_tree self.now) (find_by (tape_choice self.now) key.now (tape_tree self.now)) }
        ensures choice { IfOk result (λ found. IfSome found (λ v. tape_choice v ≡ tape_choice self.now)) }
    {
        Ok(self.try_as_object()?.get(key))
    }

    /// The item at that position, counted from 0; None past the last, and on a non-array.
    pub fn get_idx(&self, index: usize) -> Option<Value<'t, 'i>>
        ensures value { option_map tape_tree result ≡ nth index (tape_tree self.now) }
        ensures choice { IfSome result (λ v. tape_choice v ≡ tape_choice self.now) }
    {
        match self.as_array() {
            Some(items) => items.get(index),
            None => None,
        }
    }

    /// As `get_idx`; of a non-array, that an array was expected and which kind it is.
    pub fn try_get_idx(&self, index: usize) -> Result<Option<Value<'t, 'i>>, TryTypeError>
        ensures value { result_map_both (option_map tape_tree) (λ e. e) result ≡ result_map_both (λ is. nth_item index is) (λ e. e) (try_as as_items ValueType.Array (tape_tree self.now)) }
        ensures choice { IfOk result (λ found. IfSome found (λ v. tape_choice v ≡ tape_choice self.now)) }
    {
        Ok(self.try_as_array()?.get(index))
    }

    /// The text, where it is one, for as long as the input lives; else None.
    #[inline]
    pub fn into_string(self) -> Option<&'i str>
        ensures { option_map (λ s. s.now) result ≡ as_text (tape_tree self.entry) }
    {
        self.nodes.text_at(0)
    }

    /// The scalar with its carrier, where it is a null, a truth value or a whole number; else
    /// None.
    #[inline]
    pub fn as_static(&self) -> Option<StaticNode>
        ensures { option_map static_tree result ≡ as_scalar (tape_tree self.now) }
    {
        match self.nodes.at(0) {
            Node::Static(scalar) => Some(scalar),
            _ => None,
        }
    }
}
