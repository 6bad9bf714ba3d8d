//! The kind of a value.

ghost use Rattle.std.specs.Prelude.{◌≡◌};
ghost use Rattle.sj_text_core.specs.Reads.{kind_of};
ghost use Rattle.sj_kinds.specs.Kinds.{kind_in, named};

use sj_text_core::{TypedValue, ValueType};
use std::fmt;

/// The kind of a value. Every carrier of a number is a number.
#[derive(Clone, Copy, Debug, PartialEq, Eq)]
pub enum Kind {
    Null,
    Bool,
    Number,
    String,
    Array,
    Object,
}

impl Kind {
    /// The kind of that name: `null`, `bool`, `number`, `string`, `array` or `object`. None for any
    /// other text.
    pub fn of_name(name: &str) -> Option<Kind>
        ensures { result ≡ named name.now }
    {
        match name {
            "null" => Some(Kind::Null),
            "bool" => Some(Kind::Bool),
            "number" => Some(Kind::Number),
            "string" => Some(Kind::String),
            "array" => Some(Kind::Array),
            "object" => Some(Kind::Object),
            _ => None,
        }
    }

    /// The kind of a value.
    pub fn of<V: TypedValue>(value: &V) -> Kind
        ensures { result ≡ kind_in (kind_of (V.tree value.now)) }
    {
        match value.value_type() {
            ValueType::Null => Kind::Null,
            ValueType::Bool => Kind::Bool,
            ValueType::String => Kind::String,
            ValueType::Array => Kind::Array,
            ValueType::Object => Kind::Object,
            ValueType::I64
            | ValueType::U64
            | ValueType::I128
            | ValueType::U128
            | ValueType::Extended(_) => Kind::Number,
        }
    }
}

/// Its name.
impl fmt::Display for Kind {
    ghost use Rattle.std.specs.Prelude.{Some};
    ghost use Rattle.sj_kinds.specs.Kinds.{name_of};

    ghost output = { λ kind. Some (name_of kind) };

    fn fmt<W: fmt::Write>(&self, f: &mut fmt::Formatter<W>) -> fmt::Result {
        f.write_str(match self {
            Kind::Null => "null",
            Kind::Bool => "bool",
            Kind::Number => "number",
            Kind::String => "string",
            Kind::Array => "array",
            Kind::Object => "object",
        })
    }
}
