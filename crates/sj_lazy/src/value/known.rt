//! Reads by a known key.

ghost use Rattle.std.specs.Prelude.{◌≡◌, option_map, is_some, IfSome};
ghost use Rattle.std.specs.Cow.{cow_str_bytes};

use super::{Lazy, Shared, Value};
use sj_borrowed::KnownKey;

impl<'b, 't, 'i> Value<'b, 't, 'i> {
    ghost use Rattle.sj_lazy.specs.Value.{value_tree, value_choice, part_form, form, value_found};

    /// What `get` of the key's text finds. In a document the hash is used, where its object has a
    /// table; a tape has none.
    pub fn get_known(&self, key: &KnownKey<'_>) -> Option<Value<'_, 't, 'i>>
        ensures value { option_map value_tree result ≡ value_found self.now (cow_str_bytes key.now) }
        ensures choice { IfSome result (λ v. value_choice v ≡ value_choice self.now) }
        ensures form { IfSome result (λ v. form v ≡ part_form self.now) }
    {
        match self {
            Lazy::Tape(part) => Some(Lazy::Tape(key.lookup_in_tape(*part)?)),
            Lazy::Value(value) => Some(Lazy::Value(Shared::Borrowed(key.lookup(
                value.document(),
            )?))),
        }
    }
}
