//! Kinds of values.

use std::fmt;
use thiserror::Error;

/// The integer types that no value is carried in: they are only ever expected.
#[derive(Clone, Copy, Debug, PartialEq, Eq)]
pub enum ExtendedValueType {
    I8,
    I16,
    I32,
    U8,
    U16,
    U32,
    Usize,
}

/// The type's name: `i8` to `u32`, or `usize`.
impl fmt::Display for ExtendedValueType {
    ghost use Rattle.std.specs.Prelude.{Some};
    ghost use Rattle.sj_text_core.specs.Faults.{integer_text};

    ghost output = { λ kind. Some (integer_text kind) };

    fn fmt<W: fmt::Write>(&self, f: &mut fmt::Formatter<W>) -> fmt::Result {
        f.write_str(match self {
            ExtendedValueType::I8 => "i8",
            ExtendedValueType::I16 => "i16",
            ExtendedValueType::I32 => "i32",
            ExtendedValueType::U8 => "u8",
            ExtendedValueType::U16 => "u16",
            ExtendedValueType::U32 => "u32",
            ExtendedValueType::Usize => "usize",
        })
    }
}

/// The kind of a value; of a number, its carrier.
#[derive(Clone, Copy, Debug, PartialEq, Eq)]
pub enum ValueType {
    Null,
    Bool,
    I64,
    U64,
    I128,
    U128,
    String,
    Array,
    Object,
    /// A narrower integer type, which is only ever expected.
    Extended(ExtendedValueType),
}

/// `null`, `bool`, `string`, `array`, `object`, or the name of the integer type.
impl fmt::Display for ValueType {
    ghost use Rattle.std.specs.Prelude.{Some};
    ghost use Rattle.sj_text_core.specs.Faults.{kind_text};

    ghost output = { λ kind. Some (kind_text kind) };

    fn fmt<W: fmt::Write>(&self, f: &mut fmt::Formatter<W>) -> fmt::Result {
        match self {
            ValueType::Null => f.write_str("null"),
            ValueType::Bool => f.write_str("bool"),
            ValueType::I64 => f.write_str("i64"),
            ValueType::U64 => f.write_str("u64"),
            ValueType::I128 => f.write_str("i128"),
            ValueType::U128 => f.write_str("u128"),
            ValueType::String => f.write_str("string"),
            ValueType::Array => f.write_str("array"),
            ValueType::Object => f.write_str("object"),
            ValueType::Extended(integer) => integer.fmt(f),
        }
    }
}

/// A value is of another kind than the one expected.
#[derive(Clone, Copy, Debug, PartialEq, Eq, Error)]
#[error("expected {expected}, found {got}")]
pub struct TryTypeError {
    pub expected: ValueType,
    pub got: ValueType,
}
