//! The types of scalars that members are read as.

ghost use Rattle.std.specs.Prelude.{◌≡◌, Option};
ghost use Rattle.sj_text_core.specs.Tree.{Tree};
ghost use Rattle.sj_text_core.specs.declared.value_type.ExtendedValueType.{ExtendedValueType};
ghost use Rattle.sj_text_core.specs.declared.value_type.ValueType.{ValueType};
ghost use Rattle.sj_text_core.specs.Reads.{kind_of, as_boolean, as_signed, as_unsigned, some_as};

use crate::value_as_scalar::ValueAsScalar;
use crate::value_type::{ExtendedValueType, TryTypeError, ValueType};

/// A truth value, or a whole number of one of the eleven types that values are read as.
pub trait Scalar: Sized {
    /// What is read of a tree.
    ghost reading: { Tree → Option Self };

    /// The kind that such a read expects.
    ghost kind: { ValueType };

    /// The value as this type, where it is one.
    fn of<V: ValueAsScalar>(value: &V) -> Option<Self>
        ensures { result ≡ reading (V.tree value.now) };

    /// The kind that is expected.
    fn expected() -> ValueType
        ensures { result ≡ kind };

    /// The value as this type; of another value, which kind was expected and which one it is.
    final fn try_of<V: ValueAsScalar>(value: &V) -> Result<Option<Self>, TryTypeError>
        ensures { result ≡ some_as (reading (V.tree value.now)) kind (kind_of (V.tree value.now)) }
    {
        match Self::of(value) {
            Some(read) => Ok(Some(read)),
            None => Err(TryTypeError {
                expected: Self::expected(),
                got: value.value_type(),
            }),
        }
    }
}

impl Scalar for bool {
    ghost reading = { as_boolean };

    ghost kind = { ValueType.Bool };

    fn of<V: ValueAsScalar>(value: &V) -> Option<bool> {
        value.as_bool()
    }

    fn expected() -> ValueType {
        ValueType::Bool
    }
}

impl Scalar for i8 {
    ghost reading = { as_signed 8 };

    ghost kind = { ValueType.Extended ExtendedValueType.I8 };

    fn of<V: ValueAsScalar>(value: &V) -> Option<i8> {
        value.as_i8()
    }

    fn expected() -> ValueType {
        ValueType::Extended(ExtendedValueType::I8)
    }
}

impl Scalar for i16 {
    ghost reading = { as_signed 16 };

    ghost kind = { ValueType.Extended ExtendedValueType.I16 };

    fn of<V: ValueAsScalar>(value: &V) -> Option<i16> {
        value.as_i16()
    }

    fn expected() -> ValueType {
        ValueType::Extended(ExtendedValueType::I16)
    }
}

impl Scalar for i32 {
    ghost reading = { as_signed 32 };

    ghost kind = { ValueType.Extended ExtendedValueType.I32 };

    fn of<V: ValueAsScalar>(value: &V) -> Option<i32> {
        value.as_i32()
    }

    fn expected() -> ValueType {
        ValueType::Extended(ExtendedValueType::I32)
    }
}

impl Scalar for i64 {
    ghost reading = { as_signed 64 };

    ghost kind = { ValueType.I64 };

    fn of<V: ValueAsScalar>(value: &V) -> Option<i64> {
        value.as_i64()
    }

    fn expected() -> ValueType {
        ValueType::I64
    }
}

impl Scalar for i128 {
    ghost reading = { as_signed 128 };

    ghost kind = { ValueType.I128 };

    fn of<V: ValueAsScalar>(value: &V) -> Option<i128> {
        value.as_i128()
    }

    fn expected() -> ValueType {
        ValueType::I128
    }
}

impl Scalar for u8 {
    ghost reading = { as_unsigned 8 };

    ghost kind = { ValueType.Extended ExtendedValueType.U8 };

    fn of<V: ValueAsScalar>(value: &V) -> Option<u8> {
        value.as_u8()
    }

    fn expected() -> ValueType {
        ValueType::Extended(ExtendedValueType::U8)
    }
}

impl Scalar for u16 {
    ghost reading = { as_unsigned 16 };

    ghost kind = { ValueType.Extended ExtendedValueType.U16 };

    fn of<V: ValueAsScalar>(value: &V) -> Option<u16> {
        value.as_u16()
    }

    fn expected() -> ValueType {
        ValueType::Extended(ExtendedValueType::U16)
    }
}

impl Scalar for u32 {
    ghost reading = { as_unsigned 32 };

    ghost kind = { ValueType.Extended ExtendedValueType.U32 };

    fn of<V: ValueAsScalar>(value: &V) -> Option<u32> {
        value.as_u32()
    }

    fn expected() -> ValueType {
        ValueType::Extended(ExtendedValueType::U32)
    }
}

impl Scalar for u64 {
    ghost reading = { as_unsigned 64 };

    ghost kind = { ValueType.U64 };

    fn of<V: ValueAsScalar>(value: &V) -> Option<u64> {
        value.as_u64()
    }

    fn expected() -> ValueType {
        ValueType::U64
    }
}

impl Scalar for u128 {
    ghost reading = { as_unsigned 128 };

    ghost kind = { ValueType.U128 };

    fn of<V: ValueAsScalar>(value: &V) -> Option<u128> {
        value.as_u128()
    }

    fn expected() -> ValueType {
        ValueType::U128
    }
}

impl Scalar for usize {
    ghost reading = { as_unsigned 64 };

    ghost kind = { ValueType.Extended ExtendedValueType.Usize };

    fn of<V: ValueAsScalar>(value: &V) -> Option<usize> {
        value.as_usize()
    }

    fn expected() -> ValueType {
        ValueType::Extended(ExtendedValueType::Usize)
    }
}
