//! The kind of a value.

ghost use Rattle.std.specs.Prelude.{◌≡◌, is_some};
ghost use Rattle.sj_text_core.specs.Reads.{kind_of, as_items, as_members};

use crate::meaning::Meaning;
use crate::value_type::ValueType;

/// Values that tell their kind.
pub trait TypedValue: Meaning {
    /// The kind of the value; of a number, its carrier.
    fn value_type(&self) -> ValueType
        ensures { result ≡ kind_of (Self.tree self.now) };

    /// Whether the value is an array.
    final fn is_array(&self) -> bool
        ensures { result ≡ is_some (as_items (Self.tree self.now)) }
    {
        self.value_type() == ValueType::Array
    }

    /// Whether the value is an object.
    final fn is_object(&self) -> bool
        ensures { result ≡ is_some (as_members (Self.tree self.now)) }
    {
        self.value_type() == ValueType::Object
    }
}
