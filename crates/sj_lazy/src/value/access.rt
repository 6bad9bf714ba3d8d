//! Reads of the parts. None of them changes the form; a part of a tape is one of the same tape, and a
//! part of a document is lent.

ghost use Rattle.std.specs.Prelude.{◌≡◌, option_map, is_some, IfOk, IfSome};
ghost use Rattle.std.specs.Cow.{cow_str_bytes};
ghost use Rattle.std.specs.Result.{result_map_both};
ghost use Rattle.sj_text_core.specs.Find.{nth, nth_item};
ghost use Rattle.sj_text_core.specs.Reads.{kind_of, as_items, as_members, try_as, try_found};
ghost use Rattle.sj_document.specs.Document.{document_tree};

use super::{Lazy, Shared, Value, ValueCow};
use crate::array::Array;
use crate::object::Object;
use sj_document::BorrowedValue;
use sj_text_core::{TryTypeError, TypedValue, ValueType};

impl<'b, 'i> ValueCow<'b, 'i> {
    ghost use Rattle.sj_lazy.specs.Value.{shared_tree, lent_tree};

    /// The document.
    pub fn document(&self) -> &BorrowedValue<'i>
        ensures { document_tree cow_str_bytes result.now ≡ shared_tree lent_tree cow_str_bytes self.now }
    {
        match self {
            Shared::Borrowed(lent) => *lent,
            Shared::Owned(value) => value,
        }
    }
}

impl<'b, 't, 'i> Value<'b, 't, 'i> {
    ghost use Rattle.sj_lazy.specs.Value.{value_tree, value_choice, form, part_form, value_found};
    ghost use Rattle.sj_lazy.specs.Array.{lazy_items, lazy_array_choice, item_form};
    ghost use Rattle.sj_lazy.specs.Object.{lazy_members, lazy_object_choice, value_form};

    /// The value of the key; None where there is none, and on a non-object.
    pub fn get(&self, key: &str) -> Option<Value<'_, 't, 'i>>
        ensures value { option_map value_tree result ≡ value_found self.now key.now }
        ensures choice { IfSome result (λ v. value_choice v ≡ value_choice self.now) }
        ensures form { IfSome result (λ v. form v ≡ part_form self.now) }
    {
        match self {
            Lazy::Tape(part) => Some(Lazy::Tape(part.get(key)?)),
            Lazy::Value(value) => Some(Lazy::Value(Shared::Borrowed(value.document().get(key)?))),
        }
    }

    /// The item at that position, counted from 0; None past the last, and on a non-array.
    pub fn get_idx(&self, index: usize) -> Option<Value<'_, 't, 'i>>
        ensures value { option_map value_tree result ≡ nth index (value_tree self.now) }
        ensures choice { IfSome result (λ v. value_choice v ≡ value_choice self.now) }
        ensures form { IfSome result (λ v. form v ≡ part_form self.now) }
    {
        match self {
            Lazy::Tape(part) => Some(Lazy::Tape(part.get_idx(index)?)),
            Lazy::Value(value) => {
                Some(Lazy::Value(Shared::Borrowed(value.document().get_idx(index)?)))
            }
        }
    }

    /// Whether a member has that key; false on a non-object.
    pub fn contains_key(&self, key: &str) -> bool
        ensures { result ≡ is_some (value_found self.now key.now) }
    {
        match self {
            Lazy::Tape(part) => part.contains_key(key),
            Lazy::Value(value) => value.document().contains_key(key),
        }
    }

    /// The items, where it is an array; else None.
    pub fn as_array(&self) -> Option<Array<'_, 't, 'i>>
        ensures items { option_map lazy_items result ≡ as_items (value_tree self.now) }
        ensures choice { IfSome result (λ a. lazy_array_choice a ≡ value_choice self.now) }
        ensures form { IfSome result (λ a. item_form a ≡ part_form self.now) }
    {
        match self {
            Lazy::Tape(part) => Some(Array::Tape(part.as_array()?)),
            Lazy::Value(value) => Some(Array::Value(value.document().as_array()?)),
        }
    }

    /// The members, where it is an object; else None.
    pub fn as_object(&self) -> Option<Object<'_, 't, 'i>>
        ensures members { option_map lazy_members result ≡ as_members (value_tree self.now) }
        ensures choice { IfSome result (λ o. lazy_object_choice o ≡ value_choice self.now) }
        ensures form { IfSome result (λ o. value_form o ≡ part_form self.now) }
    {
        match self {
            Lazy::Tape(part) => Some(Object::Tape(part.as_object()?)),
            Lazy::Value(value) => Some(Object::Value(value.document().as_object()?)),
        }
    }

    /// As `get`; of a non-object, that an object was expected and which kind it is.
    pub fn try_get(&self, key: &str) -> Result<Option<Value<'_, 't, 'i>>, TryTypeError>
        ensures value { result_map_both (option_map value_tree) (λ e. e) result ≡ try_found (value_tree self.now) (value_found self.now key.now) }
        ensures choice { IfOk result (λ value. IfSome value (λ v. value_choice v ≡ value_choice self.now)) }
        ensures form { IfOk result (λ value. IfSome value (λ v. form v ≡ part_form self.now)) }
    {
        Ok(self.try_as_object()?.get(key))
    }

    /// As `get_idx`; of a non-array, that an array was expected and which kind it is.
    pub fn try_get_idx(&self, index: usize) -> Result<Option<Value<'_, 't, 'i>>, TryTypeError>
        ensures value { result_map_both (option_map value_tree) (λ e. e) result ≡ result_map_both (λ is. nth_item index is) (λ e. e) (try_as as_items ValueType.Array (value_tree self.now)) }
        ensures choice { IfOk result (λ value. IfSome value (λ v. value_choice v ≡ value_choice self.now)) }
        ensures form { IfOk result (λ value. IfSome value (λ v. form v ≡ part_form self.now)) }
    {
        Ok(self.try_as_array()?.get(index))
    }

    /// As `as_array`; of another value, that an array was expected and which kind it is.
    pub fn try_as_array(&self) -> Result<Array<'_, 't, 'i>, TryTypeError>
        ensures items { result_map_both lazy_items (λ e. e) result ≡ try_as as_items ValueType.Array (value_tree self.now) }
        ensures choice { IfOk result (λ a. lazy_array_choice a ≡ value_choice self.now) }
        ensures form { IfOk result (λ a. item_form a ≡ part_form self.now) }
    {
        match self.as_array() {
            Some(items) => Ok(items),
            None => Err(self.fault(ValueType::Array)),
        }
    }

    /// As `as_object`; of another value, that an object was expected and which kind it is.
    pub fn try_as_object(&self) -> Result<Object<'_, 't, 'i>, TryTypeError>
        ensures members { result_map_both lazy_members (λ e. e) result ≡ try_as as_members ValueType.Object (value_tree self.now) }
        ensures choice { IfOk result (λ o. lazy_object_choice o ≡ value_choice self.now) }
        ensures form { IfOk result (λ o. value_form o ≡ part_form self.now) }
    {
        match self.as_object() {
            Some(members) => Ok(members),
            None => Err(self.fault(ValueType::Object)),
        }
    }

    /// That another kind was expected.
    pub(super) fn fault(&self, expected: ValueType) -> TryTypeError
        ensures expected { result.expected ≡ expected }
        ensures got { result.got ≡ kind_of (value_tree self.now) }
    {
        TryTypeError {
            expected,
            got: self.value_type(),
        }
    }
}
