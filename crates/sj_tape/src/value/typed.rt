//! Typed reads of members.

ghost use Rattle.std.specs.Prelude.{◌≡◌, option_map, IfOk, IfSome};
ghost use Rattle.std.specs.Result.{result_map_both};
ghost use Rattle.sj_text_core.specs.Reads.{as_text, as_items, as_members, member_as, try_as, try_member_as};
ghost use Rattle.sj_tape.specs.Items.{items, array_choice};
ghost use Rattle.sj_tape.specs.Members.{members, object_choice};
ghost use Rattle.sj_tape.specs.Value.{tape_tree, tape_choice, tape_found};

use super::Value;
use crate::array::Array;
use crate::object::Object;
use sj_text_core::{Scalar, TryTypeError, ValueObjectAccessAsScalar, ValueType};

impl<'t, 'i> ValueObjectAccessAsScalar for Value<'t, 'i> {
    ghost member_tree = { tape_found };

    fn get_scalar<S: Scalar>(&self, key: &str) -> Option<S> {
        S::of(&self.get(key)?)
    }

    fn try_get_scalar<S: Scalar>(&self, key: &str) -> Result<Option<S>, TryTypeError> {
        match self.try_get(key)? {
            Some(value) => S::try_of(&value),
            None => Ok(None),
        }
    }
}

/// Reads of the member with a key that counts, by `get` and the reads of its value. `get_T` is None
/// where there is no such member, where its value is no `T`, and on a non-object. `try_get_T` is a
/// fault on a non-object (an object was expected) and where the value is no `T` (a `T` was
/// expected), and `Ok(None)` where there is no such member.
impl<'t, 'i> Value<'t, 'i> {
    /// The text of the member with that key, for as long as the input lives.
    pub fn get_str(&self, key: &str) -> Option<&'i str>
        ensures { option_map (λ s. s.now) result ≡ member_as as_text (tape_found self.now key.now) }
    {
        self.get(key)?.into_string()
    }

    /// As `get_str`; of another member, and of a non-object, which kind it is.
    pub fn try_get_str(&self, key: &str) -> Result<Option<&'i str>, TryTypeError>
        ensures { result_map_both (option_map (λ s. s.now)) (λ e. e) result ≡ try_member_as as_text ValueType.String (tape_tree self.now) (tape_found self.now key.now) }
    {
        match self.try_get(key)? {
            Some(value) => Ok(Some(value.try_into_string()?)),
            None => Ok(None),
        }
    }

    /// The items of the member with that key.
    pub fn get_array(&self, key: &str) -> Option<Array<'t, 'i>>
        ensures items { option_map items result ≡ member_as as_items (tape_found self.now key.now) }
        ensures choice { IfSome result (λ a. array_choice a ≡ tape_choice self.now) }
    {
        self.get(key)?.as_array()
    }

    /// As `get_array`; of another member, and of a non-object, which kind it is.
    pub fn try_get_array(&self, key: &str) -> Result<Option<Array<'t, 'i>>, TryTypeError>
        ensures items { result_map_both (option_map items) (λ e. e) result ≡ try_member_as as_items ValueType.Array (tape_tree self.now) (tape_found self.now key.now) }
        ensures choice { IfOk result (λ found. IfSome found (λ a. array_choice a ≡ tape_choice self.now)) }
    {
        match self.try_get(key)? {
            Some(value) => Ok(Some(value.try_as_array()?)),
            None => Ok(None),
        }
    }

    /// The members of the member with that key.
    pub fn get_object(&self, key: &str) -> Option<Object<'t, 'i>>
        ensures members { option_map members result ≡ member_as as_members (tape_found self.now key.now) }
        ensures choice { IfSome result (λ o. object_choice o ≡ tape_choice self.now) }
    {
        self.get(key)?.as_object()
    }

    /// As `get_object`; of another member, and of a non-object, which kind it is.
    pub fn try_get_object(&self, key: &str) -> Result<Option<Object<'t, 'i>>, TryTypeError>
        ensures members { result_map_both (option_map members) (λ e. e) result ≡ try_member_as as_members ValueType.Object (tape_tree self.now) (tape_found self.now key.now) }
        ensures choice { IfOk result (λ found. IfSome found (λ o. object_choice o ≡ tape_choice self.now)) }
    {
        match self.try_get(key)? {
            Some(value) => Ok(Some(value.try_as_object()?)),
            None => Ok(None),
        }
    }

    /// As `into_string`; of another part, that a text was expected and which kind it is.
    fn try_into_string(self) -> Result<&'i str, TryTypeError>
        ensures { result_map_both (λ s. s.now) (λ e. e) result ≡ try_as as_text ValueType.String (tape_tree self.entry) }
    {
        self.into_string().ok_or(self.fault(ValueType::String))
    }
}
