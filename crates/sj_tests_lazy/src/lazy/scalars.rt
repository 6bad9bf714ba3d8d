//! Scalars, texts and empty containers that own their documents.

use sj_lazy::{Lazy, Value};
use sj_text_core::{SameAs, StaticNode, TypedValue, ValueAsScalar, ValueType};
use std::test::Fail;

/// The types that a number fits, in the order i8, i16, i32, i64, i128, u8, u16, u32, u64, u128,
/// with usize as u64.
fn fits(value: &Value) -> [bool; 11] {
    [
        value.is_i8(),
        value.is_i16(),
        value.is_i32(),
        value.is_i64(),
        value.is_i128(),
        value.is_u8(),
        value.is_u16(),
        value.is_u32(),
        value.is_u64(),
        value.is_u128(),
        value.is_usize(),
    ]
}

/// Whether a number owns its document, has that carrier, and fits so many of the types, the signed
/// counted from the widest and the unsigned too.
fn lies(value: Value<'_, '_, '_>, kind: ValueType, signed: usize, unsigned: usize) -> bool {
    let mut want = [unsigned >= 2; 11];
    for place in 0..5 {
        want[place] = signed >= 5 - place;
        want[5 + place] = unsigned >= 5 - place;
    }
    value.is_value() && value.value_type() == kind && fits(&value) == want
}

/// The least and the greatest number of each signed type.
fn signed() -> [bool; 10] {
    [
        lies(Value::from(i8::MIN), ValueType::I64, 5, 0),
        lies(Value::from(i8::MAX), ValueType::I64, 5, 5),
        lies(Value::from(i16::MIN), ValueType::I64, 4, 0),
        lies(Value::from(i16::MAX), ValueType::I64, 4, 4),
        lies(Value::from(i32::MIN), ValueType::I64, 3, 0),
        lies(Value::from(i32::MAX), ValueType::I64, 3, 3),
        lies(Value::from(i64::MIN), ValueType::I64, 2, 0),
        lies(Value::from(i64::MAX), ValueType::I64, 2, 2),
        lies(Value::from(i128::MIN), ValueType::I128, 1, 0),
        lies(Value::from(i128::MAX), ValueType::I128, 1, 1),
    ]
}

/// Those of each unsigned type.
fn unsigned() -> [bool; 12] {
    [
        lies(Value::from(u8::MIN), ValueType::U64, 5, 5),
        lies(Value::from(u8::MAX), ValueType::U64, 4, 5),
        lies(Value::from(u16::MIN), ValueType::U64, 5, 5),
        lies(Value::from(u16::MAX), ValueType::U64, 3, 4),
        lies(Value::from(u32::MIN), ValueType::U64, 5, 5),
        lies(Value::from(u32::MAX), ValueType::U64, 2, 3),
        lies(Value::from(u64::MIN), ValueType::U64, 5, 5),
        lies(Value::from(u64::MAX), ValueType::U64, 1, 2),
        lies(Value::from(u128::MIN), ValueType::U128, 5, 5),
        lies(Value::from(u128::MAX), ValueType::U128, 0, 1),
        lies(Value::from(usize::MIN), ValueType::U64, 5, 5),
        lies(Value::from(usize::MAX), ValueType::U64, 1, 2),
    ]
}

#[test]
fn numbers_lie_in_ranges(rt: HostRuntime) {
    assert_eq!(rt; signed(), [true; 10]);
    assert_eq!(rt; unsigned(), [true; 12]);
}

/// Whether it is a truth value, a null, a text, an array, an object, and owns its document.
fn kind(value: Value<'_, '_, '_>) -> [bool; 6] {
    [
        value.is_bool(),
        value.is_null(),
        value.is_str(),
        value.is_array(),
        value.is_object(),
        value.is_value(),
    ]
}

fn scalar_kinds() -> [[bool; 6]; 4] {
    [
        kind(Lazy::from(true)),
        kind(Lazy::from(())),
        kind(Lazy::from("bla")),
        kind(Lazy::from(42_u8)),
    ]
}

#[test]
fn values_tell_their_kind(rt: HostRuntime) -> Result<(), Fail> {
    let scalars = [
        [true, false, false, false, false, true],
        [false, true, false, false, false, true],
        [false, false, true, false, false, true],
        [false, false, false, false, false, true],
    ];
    assert_eq!(rt; scalar_kinds(), scalars);
    let containers = [
        kind(Lazy::array(rt.alloc())?),
        kind(Lazy::object(rt.alloc())?),
    ];
    let wanted = [
        [false, false, false, true, false, true],
        [false, false, false, false, true, true],
    ];
    assert_eq!(rt; containers, wanted);
    Ok(())
}

#[test]
fn nulls_are_one(rt: HostRuntime) {
    let null: Value<'_, '_, '_> = Lazy::from(StaticNode::Null);
    let told = [
        null.as_str().is_none(),
        null == Value::null(),
        null == Value::default(),
    ];
    assert_eq!(rt; told, [true; 3]);
}

#[test]
fn room_changes_nothing(rt: HostRuntime) -> Result<(), Fail> {
    let alloc = rt.alloc();
    let array: Value<'_, '_, '_> = Lazy::array(alloc)?;
    let object: Value<'_, '_, '_> = Lazy::object(alloc)?;
    let wide: Value<'_, '_, '_> = Lazy::array_with_capacity(alloc, 4)?;
    assert_eq!(rt; [wide == array, wide == object], [true, false]);
    let wide: Value<'_, '_, '_> = Lazy::object_with_capacity(alloc, 4)?;
    assert_eq!(rt; [wide == object, wide == array], [true, false]);
    Ok(())
}

fn kinds_sameness() -> [bool; 6] {
    let truth: Value<'_, '_, '_> = Lazy::from(true);
    let nothing: Value<'_, '_, '_> = Lazy::from(());
    let text: Value<'_, '_, '_> = Lazy::from("bla");
    [
        truth.same_as(&true),
        !truth.same_as(&false),
        nothing.same_as(&()),
        !nothing.same_as(&true),
        text.same_as(&"bla"),
        !text.same_as(&"blubb"),
    ]
}

fn numbers_sameness() -> [bool; 6] {
    let none: Value<'_, '_, '_> = Lazy::from(None::<u8>);
    let some: Value<'_, '_, '_> = Lazy::from(Some(42_u8));
    [
        none.same_as(&()),
        some.same_as(&42_u8),
        some.same_as(&42_i128),
        Value::from(i64::MIN).same_as(&i64::MIN),
        Value::from(u64::MAX).same_as(&u64::MAX),
        Value::from(usize::MAX).same_as(&usize::MAX),
    ]
}

#[test]
fn scalars_are_the_same_as_what_they_are_made_of(rt: HostRuntime) {
    assert_eq!(rt; [kinds_sameness(), numbers_sameness()], [[true; 6]; 2]);
}

#[test]
fn numbers_are_equal_across_carriers(rt: HostRuntime) {
    let one: Value<'_, '_, '_> = Lazy::from(1_u64);
    let told = [
        one == Lazy::from(1_i64),
        one == Lazy::from(1_u128),
        one == Lazy::from(1_i128),
        one != Lazy::from(2_u64),
    ];
    assert_eq!(rt; told, [true; 4]);
}

#[test]
fn strings_are_the_same_as_their_texts(rt: HostRuntime) -> Result<(), Fail> {
    let alloc = rt.alloc();
    let text: Value<'_, '_, '_> = Lazy::from("bla");
    let owned: Value<'_, '_, '_> = Lazy::from(String::from_str(alloc, "bla")?);
    assert!(rt; owned == text && owned.same_as(&String::from_str(alloc, "bla")?));
    Ok(())
}
