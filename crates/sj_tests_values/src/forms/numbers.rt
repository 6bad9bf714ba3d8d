//! Numbers: their carriers, and the types in whose range they lie.

use sj_document::Document;
use sj_object::KeyMade;
use sj_text_core::{TypedValue, ValueAsScalar, ValueType};
use std::borrow::CowStr;

/// The types that a number fits, in the order i8, i16, i32, i64, i128, u8, u16, u32, u64, u128,
/// with usize as u64.
fn fits<K: KeyMade>(value: &Document<K>) -> [bool; 11] {
    [
        value.is_i8(),
        value.is_i16(),
        value.is_i32(),
        value.is_i64(),
        value.is_i128(),
        value.is_u8(),
        value.is_u16(),
        value.is_u32(),
        value.is_u64(),
        value.is_u128(),
        value.is_usize(),
    ]
}

/// Whether a number has that carrier, and fits so many of the types, the signed counted from the
/// widest and the unsigned too.
fn lies<K: KeyMade>(
    number: Document<K>,
    carrier: ValueType,
    signed: usize,
    unsigned: usize,
) -> bool {
    let mut want = [unsigned >= 2; 11];
    for place in 0..5 {
        want[place] = signed >= 5 - place;
        want[5 + place] = unsigned >= 5 - place;
    }
    number.value_type() == carrier && fits(&number) == want
}

/// The least and the greatest number of each signed type.
fn signed<K: KeyMade>() -> [bool; 10] {
    [
        lies::<K>(Document::from(i8::MIN), ValueType::I64, 5, 0),
        lies::<K>(Document::from(i8::MAX), ValueType::I64, 5, 5),
        lies::<K>(Document::from(i16::MIN), ValueType::I64, 4, 0),
        lies::<K>(Document::from(i16::MAX), ValueType::I64, 4, 4),
        lies::<K>(Document::from(i32::MIN), ValueType::I64, 3, 0),
        lies::<K>(Document::from(i32::MAX), ValueType::I64, 3, 3),
        lies::<K>(Document::from(i64::MIN), ValueType::I64, 2, 0),
        lies::<K>(Document::from(i64::MAX), ValueType::I64, 2, 2),
        lies::<K>(Document::from(i128::MIN), ValueType::I128, 1, 0),
        lies::<K>(Document::from(i128::MAX), ValueType::I128, 1, 1),
    ]
}

/// The least and the greatest number of the unsigned ones, and one that is no `u8`.
fn unsigned<K: KeyMade>() -> [bool; 13] {
    [
        lies::<K>(Document::from(u8::MIN), ValueType::U64, 5, 5),
        lies::<K>(Document::from(u8::MAX), ValueType::U64, 4, 5),
        lies::<K>(Document::from(u16::MIN), ValueType::U64, 5, 5),
        lies::<K>(Document::from(u16::MAX), ValueType::U64, 3, 4),
        lies::<K>(Document::from(u32::MIN), ValueType::U64, 5, 5),
        lies::<K>(Document::from(u32::MAX), ValueType::U64, 2, 3),
        lies::<K>(Document::from(u64::MIN), ValueType::U64, 5, 5),
        lies::<K>(Document::from(u64::MAX), ValueType::U64, 1, 2),
        lies::<K>(Document::from(usize::MIN), ValueType::U64, 5, 5),
        lies::<K>(Document::from(usize::MAX), ValueType::U64, 1, 2),
        lies::<K>(Document::from(u128::MIN), ValueType::U128, 5, 5),
        lies::<K>(Document::from(u128::MAX), ValueType::U128, 0, 1),
        Document::<K>::from(256_u16).as_u8().is_none(),
    ]
}

#[test]
fn numbers(rt: HostRuntime) {
    let owned = (signed::<String>(), unsigned::<String>());
    let borrowed = (signed::<CowStr<'static>>(), unsigned::<CowStr<'static>>());
    assert_eq!(rt; [owned, borrowed], [([true; 10], [true; 13]); 2]);
}
