//! Reads, the same before and after the upgrade.

use super::{keys_of, members, prints};
use sj_lazy::{Array, Object, Value};
use sj_tape::to_tape;
use sj_text_core::{
    ExtendedValueType, TryTypeError, ValueAsScalar, ValueObjectAccessAsScalar, ValueType,
};
use std::test::Fail;

/// The signed reads of `TYPED`.
fn signed_reads(value: &Value) -> [bool; 6] {
    [
        value.get_i8("a") == Some(1),
        value.get_i8("b") == None,
        value.get_i16("b") == Some(-200),
        value.get_i32("b") == Some(-200),
        value.get_i64("b") == Some(-200),
        value.get_i128("b") == Some(-200),
    ]
}

/// Its unsigned reads.
fn unsigned_reads(value: &Value) -> [bool; 6] {
    [
        value.get_u8("h") == None,
        value.get_u16("h") == Some(300),
        value.get_u32("h") == Some(300),
        value.get_u64("b") == None,
        value.get_u128("h") == Some(300),
        value.get_usize("a") == Some(1),
    ]
}

/// How many items a member has.
fn items_at(value: &Value, key: &str) -> Option<usize> {
    Some(value.get_array(key)?.len())
}

/// How many members a member has.
fn members_at(value: &Value, key: &str) -> Option<usize> {
    Some(value.get_object(key)?.len())
}

/// Its other reads.
fn other_reads(value: &Value) -> [bool; 5] {
    [
        value.get_bool("d") == Some(true),
        value.get_str("c") == Some("x"),
        value.get_str("z") == None,
        items_at(value, "e") == Some(1),
        members_at(value, "f") == Some(1),
    ]
}

/// Its reads with faults.
fn tried_reads(value: &Value) -> [bool; 5] {
    let wide = TryTypeError {
        expected: ValueType::Extended(ExtendedValueType::U8),
        got: ValueType::U64,
    };
    let list = TryTypeError {
        expected: ValueType::String,
        got: ValueType::Array,
    };
    [
        value.try_get_u8("a") == Ok(Some(1)),
        value.try_get_u8("z") == Ok(None),
        value.try_get_u8("h") == Err(wide),
        value.try_get_str("c") == Ok(Some("x")),
        value.try_get_str("e") == Err(list),
    ]
}

const TYPED: &str = r#"{"a":1,"b":-200,"c":"x","d":true,"e":[5],"f":{"g":6},"h":300}"#;

#[test]
fn members_are_read_by_type(rt: HostRuntime) -> Result<(), Fail> {
    let alloc = rt.alloc();
    let mut text = TYPED.as_bytes().to_vec(alloc)?;
    let tape = to_tape(alloc, text.as_mut_slice())?;
    let mut value: Value<'_, '_, '_> = Value::from_tape(tape.as_value());
    for _ in 0..2 {
        let numbers = [signed_reads(&value), unsigned_reads(&value)];
        assert_eq!(rt; numbers, [[true; 6]; 2]);
        let others = [other_reads(&value), tried_reads(&value)];
        assert_eq!(rt; others, [[true; 5]; 2]);
        value.as_mut(alloc)?;
    }
    Ok(())
}

#[test]
fn reads_leave_a_tape(rt: HostRuntime) -> Result<(), Fail> {
    let alloc = rt.alloc();
    let mut text = *br#"{"a":1}"#;
    let tape = to_tape(alloc, &mut text)?;
    let value: Value<'_, '_, '_> = Value::from_tape(tape.as_value());
    let told = [
        value.get_u8("a") == Some(1),
        keys_of(alloc, &value)?.as_str() == "a ",
        prints(alloc, &value, r#"{"a":1}"#)?,
        value.is_tape(),
        !value.is_value(),
    ];
    assert_eq!(rt; told, [true; 5]);
    Ok(())
}

/// Whether the part is that number.
fn is(part: Option<Value<'_, '_, '_>>, number: u8) -> bool {
    match part {
        Some(part) => part.as_u8() == Some(number),
        None => false,
    }
}

/// Whether the members are `"snot":1,"badger":2`.
fn shows_pairs(object: &Object) -> Result<bool, Fail> {
    let mut members = object.iter();
    for (key, number) in [("snot", 1), ("badger", 2)] {
        let (name, member) = members.next().ok_or("a member")?;
        if name != key || member.as_u8() != Some(number) {
            return Ok(false);
        }
    }
    Ok(members.next().is_none())
}

/// Their keys and their values.
fn shows_keys(object: &Object) -> [bool; 3] {
    let mut keys = object.keys();
    [
        keys.next() == Some("snot"),
        keys.next() == Some("badger"),
        keys.next() == None,
    ]
}

fn shows_values(object: &Object) -> [bool; 3] {
    let mut values = object.values();
    [
        is(values.next(), 1),
        is(values.next(), 2),
        values.next().is_none(),
    ]
}

fn finds_values(object: &Object) -> [bool; 3] {
    [
        is(object.get("snot"), 1),
        is(object.get("badger"), 2),
        object.get("monster").is_none(),
    ]
}

/// The items of `[3,4]`.
fn shows_items(array: &Array) -> [bool; 5] {
    let mut items = array.iter();
    [
        !array.is_empty(),
        is(items.next(), 3),
        is(items.next(), 4),
        items.next().is_none(),
        array.get(2).is_none(),
    ]
}

/// All that is shown of the members.
fn shows_members(object: &Object) -> Result<[[bool; 3]; 4], Fail> {
    Ok([
        [shows_pairs(object)?; 3],
        shows_keys(object),
        shows_values(object),
        finds_values(object),
    ])
}

#[test]
fn iterators_give_each_part_once(rt: HostRuntime) -> Result<(), Fail> {
    let alloc = rt.alloc();
    let mut text = *br#"{"o":{"snot":1,"badger":2},"a":[3,4]}"#;
    let tape = to_tape(alloc, &mut text)?;
    let mut value: Value<'_, '_, '_> = Value::from_tape(tape.as_value());
    for _ in 0..2 {
        let members = shows_members(&value.get_object("o").ok_or("an object")?)?;
        assert_eq!(rt; members, [[true; 3]; 4]);
        let items = shows_items(&value.get_array("a").ok_or("an array")?);
        assert_eq!(rt; items, [true; 5]);
        value.as_mut(alloc)?;
    }
    Ok(())
}
