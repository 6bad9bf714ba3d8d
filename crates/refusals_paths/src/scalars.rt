//! Reads of scalars and comparisons with them, none of which asks for memory.

use sj_lazy::Value as LazyValue;
use sj_text_core::{SameAs, TypedValue, ValueAsScalar, ValueType};

/// Whether a read of one type finds 7, by each of its three calls.
macro_rules! reads_seven {
    ($value:expr, $read:ident, $is:ident, $tried:ident) => {
        $value.$read() == Some(7) && $value.$is() && matches!($value.$tried(), Ok(7))
    };
}

fn is_seven_read<V: ValueAsScalar>(value: &V) -> bool {
    reads_seven!(value, as_i8, is_i8, try_as_i8)
        && reads_seven!(value, as_i16, is_i16, try_as_i16)
        && reads_seven!(value, as_i32, is_i32, try_as_i32)
        && reads_seven!(value, as_i64, is_i64, try_as_i64)
        && reads_seven!(value, as_i128, is_i128, try_as_i128)
        && reads_seven!(value, as_u8, is_u8, try_as_u8)
        && reads_seven!(value, as_u16, is_u16, try_as_u16)
        && reads_seven!(value, as_u32, is_u32, try_as_u32)
        && reads_seven!(value, as_u64, is_u64, try_as_u64)
        && reads_seven!(value, as_u128, is_u128, try_as_u128)
        && reads_seven!(value, as_usize, is_usize, try_as_usize)
}

fn is_seven_same<V: ValueAsScalar>(value: &V) -> bool {
    value.same_as(&7_i8)
        && value.same_as(&7_i16)
        && value.same_as(&7_i32)
        && value.same_as(&7_i64)
        && value.same_as(&7_i128)
        && value.same_as(&7_u8)
        && value.same_as(&7_u16)
        && value.same_as(&7_u32)
        && value.same_as(&7_u64)
        && value.same_as(&7_u128)
        && value.same_as(&7_usize)
}

/// Whether it is the number 7.
pub fn is_seven<V: ValueAsScalar>(value: &V) -> bool {
    value.value_type() == ValueType::U64 && is_seven_read(value) && is_seven_same(value)
}

/// Whether it is a null, and nothing else.
pub fn is_nothing<V: ValueAsScalar>(value: &V) -> bool {
    value.as_null().is_some()
        && value.is_null()
        && value.try_as_null().is_ok()
        && value.same_as(&())
        && !value.is_array()
        && !value.is_object()
        && value.try_as_i8().is_err()
}

/// Whether it is the truth value true.
pub fn is_true<V: ValueAsScalar>(value: &V) -> bool {
    value.as_bool() == Some(true)
        && value.is_bool()
        && matches!(value.try_as_bool(), Ok(true))
        && value.same_as(&true)
}

/// Whether it is that text.
pub fn is_text<V: ValueAsScalar>(value: &V, text: &String) -> bool {
    value.as_str() == Some(text.as_str())
        && value.is_str()
        && value.try_as_str().is_ok()
        && value.same_as(&text.as_str())
        && value.same_as(text)
}

// A lazy value has three lifetimes, which a type parameter does not keep apart.

/// Whether it is the number 7, by the reads that a lazy value has of its own.
pub fn is_lazy_seven(found: Option<LazyValue<'_, '_, '_>>) -> bool {
    match found {
        Some(value) => {
            value.value_type() == ValueType::U64
                && value.as_i128() == Some(7)
                && value.as_u128() == Some(7)
        }
        None => false,
    }
}

/// Whether it is true, and the other that text, by such reads.
pub fn are_lazy_scalars(
    truth: Option<LazyValue<'_, '_, '_>>,
    found: Option<LazyValue<'_, '_, '_>>,
    text: &String,
) -> bool {
    match (truth, found) {
        (Some(truth), Some(found)) => {
            truth.as_bool() == Some(true) && found.as_str() == Some(text.as_str())
        }
        _ => false,
    }
}
