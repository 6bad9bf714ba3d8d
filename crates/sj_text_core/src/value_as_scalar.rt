//! Typed reads of scalars.

ghost use Rattle.std.specs.Prelude.{◌≡◌, is_some, option_map};
ghost use Rattle.std.specs.Result.{result_map_both};
ghost use Rattle.sj_text_core.specs.Nulls.{as_nothing};
ghost use Rattle.sj_text_core.specs.Reads.{as_boolean, as_signed, as_unsigned, as_text, read_as, try_as};

use crate::typed_value::TypedValue;
use crate::value_type::{ExtendedValueType, TryTypeError, ValueType};

/// What was read, or that a value of another kind is there.
fn or_fault<T>(read: Option<T>, expected: ValueType, got: ValueType) -> Result<T, TryTypeError>
    ensures { result ≡ read_as read expected got }
{
    match read {
        Some(value) => Ok(value),
        None => Err(TryTypeError { expected, got }),
    }
}

/// Reads of a value as a null, a truth value, a text or a whole number of a type. A number is read
/// exactly where its value lies in the type's range, whatever carries it.
pub trait ValueAsScalar: TypedValue {
    /// The truth value, where the value is one.
    fn as_bool(&self) -> Option<bool>
        ensures { result ≡ as_boolean (Self.tree self.now) };

    /// The text, where the value is one.
    fn as_str(&self) -> Option<&str>
        ensures { option_map (λ s. s.now) result ≡ as_text (Self.tree self.now) };

    /// The number, where the value is a whole number from -2^127 to 2^127-1, whatever carries it.
    fn as_i128(&self) -> Option<i128>
        ensures { result ≡ as_signed 128 (Self.tree self.now) };

    /// The number, where the value is a whole number from 0 to 2^128-1, whatever carries it.
    fn as_u128(&self) -> Option<u128>
        ensures { result ≡ as_unsigned 128 (Self.tree self.now) };

    /// That the value is a null.
    final fn as_null(&self) -> Option<()>
        ensures { result ≡ as_nothing (Self.tree self.now) }
    {
        if self.value_type() == ValueType::Null {
            Some(())
        } else {
            None
        }
    }

    /// Whether the value is a null.
    final fn is_null(&self) -> bool
        ensures { result ≡ is_some (as_nothing (Self.tree self.now)) }
    {
        self.as_null().is_some()
    }

    /// That the value is a null; of another value, which one it is.
    final fn try_as_null(&self) -> Result<(), TryTypeError>
        ensures { result ≡ try_as as_nothing ValueType.Null (Self.tree self.now) }
    {
        or_fault(self.as_null(), ValueType::Null, self.value_type())
    }

    /// Whether the value is a truth value.
    final fn is_bool(&self) -> bool
        ensures { result ≡ is_some (as_boolean (Self.tree self.now)) }
    {
        self.as_bool().is_some()
    }

    /// As `as_bool`; of another value, which kind was expected and which one it is.
    final fn try_as_bool(&self) -> Result<bool, TryTypeError>
        ensures { result ≡ try_as as_boolean ValueType.Bool (Self.tree self.now) }
    {
        or_fault(self.as_bool(), ValueType::Bool, self.value_type())
    }

    /// Whether the value is a text.
    final fn is_str(&self) -> bool
        ensures { result ≡ is_some (as_text (Self.tree self.now)) }
    {
        self.as_str().is_some()
    }

    /// As `as_str`; of another value, which kind was expected and which one it is.
    final fn try_as_str(&self) -> Result<&str, TryTypeError>
        ensures { result_map_both (λ s. s.now) (λ e. e) result ≡ try_as as_text ValueType.String (Self.tree self.now) }
    {
        match self.as_str() {
            Some(text) => Ok(text),
            None => Err(TryTypeError {
                expected: ValueType::String,
                got: self.value_type(),
            }),
        }
    }

    /// The number, where the value is a whole number from -2^7 to 2^7-1, whatever carries it.
    final fn as_i8(&self) -> Option<i8>
        ensures { result ≡ as_signed 8 (Self.tree self.now) }
    {
        i8::try_from(self.as_i128()?).ok()
    }

    /// Whether the value is a whole number from -2^7 to 2^7-1.
    final fn is_i8(&self) -> bool
        ensures { result ≡ is_some (as_signed 8 (Self.tree self.now)) }
    {
        self.as_i8().is_some()
    }

    /// As `as_i8`; of another value, which kind was expected and which one it is.
    final fn try_as_i8(&self) -> Result<i8, TryTypeError>
        ensures { result ≡ try_as (as_signed 8) (ValueType.Extended ExtendedValueType.I8) (Self.tree self.now) }
    {
        or_fault(
            self.as_i8(),
            ValueType::Extended(ExtendedValueType::I8),
            self.value_type(),
        )
    }

    /// The number, where the value is a whole number from -2^15 to 2^15-1, whatever carries it.
    final fn as_i16(&self) -> Option<i16>
        ensures { result ≡ as_signed 16 (Self.tree self.now) }
    {
        i16::try_from(self.as_i128()?).ok()
    }

    /// Whether the value is a whole number from -2^15 to 2^15-1.
    final fn is_i16(&self) -> bool
        ensures { result ≡ is_some (as_signed 16 (Self.tree self.now)) }
    {
        self.as_i16().is_some()
    }

    /// As `as_i16`; of another value, which kind was expected and which one it is.
    final fn try_as_i16(&self) -> Result<i16, TryTypeError>
        ensures { result ≡ try_as (as_signed 16) (ValueType.Extended ExtendedValueType.I16) (Self.tree self.now) }
    {
        or_fault(
            self.as_i16(),
            ValueType::Extended(ExtendedValueType::I16),
            self.value_type(),
        )
    }

    /// The number, where the value is a whole number from -2^31 to 2^31-1, whatever carries it.
    final fn as_i32(&self) -> Option<i32>
        ensures { result ≡ as_signed 32 (Self.tree self.now) }
    {
        i32::try_from(self.as_i128()?).ok()
    }

    /// Whether the value is a whole number from -2^31 to 2^31-1.
    final fn is_i32(&self) -> bool
        ensures { result ≡ is_some (as_signed 32 (Self.tree self.now)) }
    {
        self.as_i32().is_some()
    }

    /// As `as_i32`; of another value, which kind was expected and which one it is.
    final fn try_as_i32(&self) -> Result<i32, TryTypeError>
        ensures { result ≡ try_as (as_signed 32) (ValueType.Extended ExtendedValueType.I32) (Self.tree self.now) }
    {
        or_fault(
            self.as_i32(),
            ValueType::Extended(ExtendedValueType::I32),
            self.value_type(),
        )
    }

    /// The number, where the value is a whole number from -2^63 to 2^63-1, whatever carries it.
    final fn as_i64(&self) -> Option<i64>
        ensures { result ≡ as_signed 64 (Self.tree self.now) }
    {
        i64::try_from(self.as_i128()?).ok()
    }

    /// Whether the value is a whole number from -2^63 to 2^63-1.
    final fn is_i64(&self) -> bool
        ensures { result ≡ is_some (as_signed 64 (Self.tree self.now)) }
    {
        self.as_i64().is_some()
    }

    /// As `as_i64`; of another value, which kind was expected and which one it is.
    final fn try_as_i64(&self) -> Result<i64, TryTypeError>
        ensures { result ≡ try_as (as_signed 64) ValueType.I64 (Self.tree self.now) }
    {
        or_fault(self.as_i64(), ValueType::I64, self.value_type())
    }

    /// Whether the value is a whole number from -2^127 to 2^127-1.
    final fn is_i128(&self) -> bool
        ensures { result ≡ is_some (as_signed 128 (Self.tree self.now)) }
    {
        self.as_i128().is_some()
    }

    /// As `as_i128`; of another value, which kind was expected and which one it is.
    final fn try_as_i128(&self) -> Result<i128, TryTypeError>
        ensures { result ≡ try_as (as_signed 128) ValueType.I128 (Self.tree self.now) }
    {
        or_fault(self.as_i128(), ValueType::I128, self.value_type())
    }

    /// The number, where the value is a whole number from 0 to 2^8-1, whatever carries it.
    final fn as_u8(&self) -> Option<u8>
        ensures { result ≡ as_unsigned 8 (Self.tree self.now) }
    {
        u8::try_from(self.as_u128()?).ok()
    }

    /// Whether the value is a whole number from 0 to 2^8-1.
    final fn is_u8(&self) -> bool
        ensures { result ≡ is_some (as_unsigned 8 (Self.tree self.now)) }
    {
        self.as_u8().is_some()
    }

    /// As `as_u8`; of another value, which kind was expected and which one it is.
    final fn try_as_u8(&self) -> Result<u8, TryTypeError>
        ensures { result ≡ try_as (as_unsigned 8) (ValueType.Extended ExtendedValueType.U8) (Self.tree self.now) }
    {
        or_fault(
            self.as_u8(),
            ValueType::Extended(ExtendedValueType::U8),
            self.value_type(),
        )
    }

    /// The number, where the value is a whole number from 0 to 2^16-1, whatever carries it.
    final fn as_u16(&self) -> Option<u16>
        ensures { result ≡ as_unsigned 16 (Self.tree self.now) }
    {
        u16::try_from(self.as_u128()?).ok()
    }

    /// Whether the value is a whole number from 0 to 2^16-1.
    final fn is_u16(&self) -> bool
        ensures { result ≡ is_some (as_unsigned 16 (Self.tree self.now)) }
    {
        self.as_u16().is_some()
    }

    /// As `as_u16`; of another value, which kind was expected and which one it is.
    final fn try_as_u16(&self) -> Result<u16, TryTypeError>
        ensures { result ≡ try_as (as_unsigned 16) (ValueType.Extended ExtendedValueType.U16) (Self.tree self.now) }
    {
        or_fault(
            self.as_u16(),
            ValueType::Extended(ExtendedValueType::U16),
            self.value_type(),
        )
    }

    /// The number, where the value is a whole number from 0 to 2^32-1, whatever carries it.
    final fn as_u32(&self) -> Option<u32>
        ensures { result ≡ as_unsigned 32 (Self.tree self.now) }
    {
        u32::try_from(self.as_u128()?).ok()
    }

    /// Whether the value is a whole number from 0 to 2^32-1.
    final fn is_u32(&self) -> bool
        ensures { result ≡ is_some (as_unsigned 32 (Self.tree self.now)) }
    {
        self.as_u32().is_some()
    }

    /// As `as_u32`; of another value, which kind was expected and which one it is.
    final fn try_as_u32(&self) -> Result<u32, TryTypeError>
        ensures { result ≡ try_as (as_unsigned 32) (ValueType.Extended ExtendedValueType.U32) (Self.tree self.now) }
    {
        or_fault(
            self.as_u32(),
            ValueType::Extended(ExtendedValueType::U32),
            self.value_type(),
        )
    }

    /// The number, where the value is a whole number from 0 to 2^64-1, whatever carries it.
    final fn as_u64(&self) -> Option<u64>
        ensures { result ≡ as_unsigned 64 (Self.tree self.now) }
    {
        u64::try_from(self.as_u128()?).ok()
    }

    /// Whether the value is a whole number from 0 to 2^64-1.
    final fn is_u64(&self) -> bool
        ensures { result ≡ is_some (as_unsigned 64 (Self.tree self.now)) }
    {
        self.as_u64().is_some()
    }

    /// As `as_u64`; of another value, which kind was expected and which one it is.
    final fn try_as_u64(&self) -> Result<u64, TryTypeError>
        ensures { result ≡ try_as (as_unsigned 64) ValueType.U64 (Self.tree self.now) }
    {
        or_fault(self.as_u64(), ValueType::U64, self.value_type())
    }

    /// Whether the value is a whole number from 0 to 2^128-1.
    final fn is_u128(&self) -> bool
        ensures { result ≡ is_some (as_unsigned 128 (Self.tree self.now)) }
    {
        self.as_u128().is_some()
    }

    /// As `as_u128`; of another value, which kind was expected and which one it is.
    final fn try_as_u128(&self) -> Result<u128, TryTypeError>
        ensures { result ≡ try_as (as_unsigned 128) ValueType.U128 (Self.tree self.now) }
    {
        or_fault(self.as_u128(), ValueType::U128, self.value_type())
    }

    /// The number, where the value is a whole number from 0 to 2^64-1, whatever carries it.
    final fn as_usize(&self) -> Option<usize>
        ensures { result ≡ as_unsigned 64 (Self.tree self.now) }
    {
        usize::try_from(self.as_u128()?).ok()
    }

    /// Whether the value is a whole number from 0 to 2^64-1.
    final fn is_usize(&self) -> bool
        ensures { result ≡ is_some (as_unsigned 64 (Self.tree self.now)) }
    {
        self.as_usize().is_some()
    }

    /// As `as_usize`; of another value, which kind was expected and which one it is.
    final fn try_as_usize(&self) -> Result<usize, TryTypeError>
        ensures { result ≡ try_as (as_unsigned 64) (ValueType.Extended ExtendedValueType.Usize) (Self.tree self.now) }
    {
        or_fault(
            self.as_usize(),
            ValueType::Extended(ExtendedValueType::Usize),
            self.value_type(),
        )
    }
}
