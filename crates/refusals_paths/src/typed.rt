//! Typed reads of members, in each form.

/// Whether a read of one type finds a member of 7, by each of its two calls.
macro_rules! reads_member {
    ($value:expr, $read:ident, $tried:ident) => {
        $value.$read("int") == Some(7) && matches!($value.$tried("int"), Ok(Some(7)))
    };
}

/// Whether the typed reads of a text, an array and an object find theirs.
macro_rules! reads_others {
    ($value:expr) => {
        $value.get_str("str") == Some("s")
            && $value.try_get_str("str").is_ok_and(|text| text == Some("s"))
            && $value.get_array("array").is_some_and(|items| items.len() == 1)
            && $value
                .try_get_array("array")
                .is_ok_and(|found| found.is_some_and(|items| items.len() == 1))
            && $value.get_object("object").is_some_and(|members| members.len() == 1)
            && $value
                .try_get_object("object")
                .is_ok_and(|found| found.is_some_and(|members| members.len() == 1))
    };
}

/// Whether the reads of parts find what the document of each kind has.
macro_rules! reads_parts {
    ($value:expr) => {
        $value.get("int").is_some()
            && matches!($value.try_get("none"), Ok(None))
            && $value.contains_key("str")
            && $value.as_object().is_some_and(|members| members.len() == 6)
            && $value.try_as_object().is_ok()
            && $value.as_array().is_none()
            && $value.try_as_array().is_err()
            && $value.get_idx(0).is_none()
            && $value.try_get_idx(0).is_err()
    };
}

use crate::scalars::{are_lazy_scalars, is_lazy_seven, is_nothing, is_seven, is_text, is_true};
use sj_document::Document;
use sj_lazy::Value as LazyValue;
use sj_object::KeyText;
use sj_text_core::ValueObjectAccessAsScalar;

/// Whether the typed reads of signed numbers, and of truths, find theirs.
fn has_signed<V: ValueObjectAccessAsScalar>(value: &V) -> bool {
    reads_member!(value, get_i8, try_get_i8)
        && reads_member!(value, get_i16, try_get_i16)
        && reads_member!(value, get_i32, try_get_i32)
        && reads_member!(value, get_i64, try_get_i64)
        && reads_member!(value, get_i128, try_get_i128)
        && value.get_bool("bool") == Some(true)
        && matches!(value.try_get_bool("bool"), Ok(Some(true)))
}

/// Whether those of unsigned numbers find theirs.
fn has_unsigned<V: ValueObjectAccessAsScalar>(value: &V) -> bool {
    reads_member!(value, get_u8, try_get_u8)
        && reads_member!(value, get_u16, try_get_u16)
        && reads_member!(value, get_u32, try_get_u32)
        && reads_member!(value, get_u64, try_get_u64)
        && reads_member!(value, get_u128, try_get_u128)
        && reads_member!(value, get_usize, try_get_usize)
}

/// Whether a document has a member of each kind, by every read.
pub fn is_document_of_kinds<T: KeyText>(value: &Document<T>, text: &String) -> bool {
    has_signed(value)
        && has_unsigned(value)
        && has_others(value)
        && has_parts(value)
        && value.get("null").is_some_and(|found| is_nothing(found))
        && value.get("bool").is_some_and(|found| is_true(found))
        && value.get("int").is_some_and(|found| is_seven(found))
        && value.get("str").is_some_and(|found| is_text(found, text))
}

fn has_others<T: KeyText>(value: &Document<T>) -> bool {
    reads_others!(value)
}

fn has_parts<T: KeyText>(value: &Document<T>) -> bool {
    reads_parts!(value)
}

/// Whether a lazy value has a member of each kind, by every read.
pub fn is_lazy_of_kinds(value: &LazyValue<'_, '_, '_>, text: &String) -> bool {
    has_signed(value)
        && has_unsigned(value)
        && lazy_has_others(value)
        && lazy_has_parts(value)
        && is_lazy_seven(value.get("int"))
        && are_lazy_scalars(value.get("bool"), value.get("str"), text)
}

fn lazy_has_others(value: &LazyValue<'_, '_, '_>) -> bool {
    reads_others!(value)
}

fn lazy_has_parts(value: &LazyValue<'_, '_, '_>) -> bool {
    reads_parts!(value)
}
