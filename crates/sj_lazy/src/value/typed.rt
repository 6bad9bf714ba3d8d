//! Typed reads of members.

ghost use Rattle.std.specs.Prelude.{◌≡◌, option_map, IfOk, IfSome};
ghost use Rattle.std.specs.Result.{result_map_both};
ghost use Rattle.sj_text_core.specs.Reads.{as_text, as_items, as_members, member_as, try_member_as};
ghost use Rattle.sj_lazy.specs.Array.{lazy_items, lazy_array_choice};
ghost use Rattle.sj_lazy.specs.Object.{lazy_members, lazy_object_choice};
ghost use Rattle.sj_lazy.specs.Value.{value_tree, value_choice, value_found};

use super::{Lazy, Value};
use crate::array::Array;
use crate::object::Object;
use sj_text_core::{Scalar, TryTypeError, ValueObjectAccessAsScalar, ValueType};

impl<'b, 't, 'i> ValueObjectAccessAsScalar for Value<'b, 't, 'i> {
    ghost member_tree = { value_found };

    fn get_scalar<S: Scalar>(&self, key: &str) -> Option<S> {
        S::of(&self.get(key)?)
    }

    fn try_get_scalar<S: Scalar>(&self, key: &str) -> Result<Option<S>, TryTypeError> {
        match self.try_get(key)? {
            Some(value) => S::try_of(&value),
            None => Ok(None),
        }
    }
}

/// Reads of the member with a key that counts, by `get` and the reads of its value. `get_T` is None
/// where there is no such member, where its value is no `T`, and on a non-object. `try_get_T` is a
/// fault on a non-object (an object was expected) and where the value is no `T` (a `T` was
/// expected), and `Ok(None)` where there is no such member.
impl<'b, 't, 'i> Value<'b, 't, 'i> {
    /// The text of the member with that key.
    pub fn get_str(&self, key: &str) -> Option<&str>
        ensures { option_map (λ s. s.now) result ≡ member_as as_text (value_found self.now key.now) }
    {
        match self {
            Lazy::Tape(part) => part.get_str(key),
            Lazy::Value(value) => value.document().get_str(key),
        }
    }

    /// As `get_str`; of another member, and of a non-object, which kind it is.
    pub fn try_get_str(&self, key: &str) -> Result<Option<&str>, TryTypeError>
        ensures { result_map_both (option_map (λ s. s.now)) (λ e. e) result ≡ try_member_as as_text ValueType.String (value_tree self.now) (value_found self.now key.now) }
    {
        match self {
            Lazy::Tape(part) => part.try_get_str(key),
            Lazy::Value(value) => value.document().try_get_str(key),
        }
    }

    /// The items of the member with that key.
    pub fn get_array(&self, key: &str) -> Option<Array<'_, 't, 'i>>
        ensures items { option_map lazy_items result ≡ member_as as_items (value_found self.now key.now) }
        ensures choice { IfSome result (λ a. lazy_array_choice a ≡ value_choice self.now) }
    {
        match self {
            Lazy::Tape(part) => Some(Array::Tape(part.get_array(key)?)),
            Lazy::Value(value) => Some(Array::Value(value.document().get_array(key)?)),
        }
    }

    /// As `get_array`; of another member, and of a non-object, which kind it is.
    pub fn try_get_array(&self, key: &str) -> Result<Option<Array<'_, 't, 'i>>, TryTypeError>
        ensures items { result_map_both (option_map lazy_items) (λ e. e) result ≡ try_member_as as_items ValueType.Array (value_tree self.now) (value_found self.now key.now) }
        ensures choice { IfOk result (λ value. IfSome value (λ a. lazy_array_choice a ≡ value_choice self.now)) }
    {
        match self {
            Lazy::Tape(part) => match part.try_get_array(key)? {
                Some(items) => Ok(Some(Array::Tape(items))),
                None => Ok(None),
            },
            Lazy::Value(value) => match value.document().try_get_array(key)? {
                Some(items) => Ok(Some(Array::Value(items))),
                None => Ok(None),
            },
        }
    }

    /// The members of the member with that key.
    pub fn get_object(&self, key: &str) -> Option<Object<'_, 't, 'i>>
        ensures members { option_map lazy_members result ≡ member_as as_members (value_found self.now key.now) }
        ensures choice { IfSome result (λ o. lazy_object_choice o ≡ value_choice self.now) }
    {
        match self {
            Lazy::Tape(part) => Some(Object::Tape(part.get_object(key)?)),
            Lazy::Value(value) => Some(Object::Value(value.document().get_object(key)?)),
        }
    }

    /// As `get_object`; of another member, and of a non-object, which kind it is.
    pub fn try_get_object(&self, key: &str) -> Result<Option<Object<'_, 't, 'i>>, TryTypeError>
        ensures members { result_map_both (option_map lazy_members) (λ e. e) result ≡ try_member_as as_members ValueType.Object (value_tree self.now) (value_found self.now key.now) }
        ensures choice { IfOk result (λ value. IfSome value (λ o. lazy_object_choice o ≡ value_choice self.now)) }
    {
        match self {
            Lazy::Tape(part) => match part.try_get_object(key)? {
                Some(members) => Ok(Some(Object::Tape(members))),
                None => Ok(None),
            },
            Lazy::Value(value) => match value.document().try_get_object(key)? {
                Some(members) => Ok(Some(Object::Value(members))),
                None => Ok(None),
            },
        }
    }
}
