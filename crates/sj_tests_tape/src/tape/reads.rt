//! Reads of the parts of tapes that were read from texts.

use super::{has_items, has_members, lists_members, number_of};
use sj_tape::{
    Array, ErrorKind, ExtendedValueType, Object, Repeats, TryTypeError, Value, ValueAsScalar,
    ValueObjectAccessAsScalar, ValueType, Writable, to_tape,
};
use std::alloc::Global;
use std::test::Fail;

/// That a kind was expected where another is.
fn fault<T>(expected: ValueType, got: ValueType) -> Result<T, TryTypeError> {
    Err(TryTypeError { expected, got })
}

fn narrow(expected: ExtendedValueType) -> ValueType {
    ValueType::Extended(expected)
}

/// Whether the parts of {"the_answer":42} are found.
fn finds_the_answer(whole: Value<'_, '_>) -> [bool; 3] {
    [
        number_of(whole.get("the_answer")) == Some(42),
        matches!(whole.try_get("does_not_exist"), Ok(None)),
        whole.try_as_object().is_ok(),
    ]
}

/// Whether faults at an object name both kinds.
fn names_the_object(whole: Value<'_, '_>) -> [bool; 2] {
    let named = Some(TryTypeError {
        expected: ValueType::Array,
        got: ValueType::Object,
    });
    [
        whole.try_get_idx(0).err() == named,
        whole.try_as_array().err() == named,
    ]
}

/// Whether faults at a number and at null name both kinds.
fn names_the_number(number: Value<'_, '_>) -> [bool; 4] {
    let named = Some(TryTypeError {
        expected: ValueType::Object,
        got: ValueType::U64,
    });
    let null = Some(TryTypeError {
        expected: ValueType::Array,
        got: ValueType::Null,
    });
    [
        number.as_u64() == Some(42),
        number.try_get("k").err() == named,
        number.try_as_object().err() == named,
        Value::null().try_get_idx(0).err() == null,
    ]
}

#[test]
fn faults_name_both_kinds(rt: HostRuntime) -> Result<(), Fail> {
    let mut bytes = b"{\"the_answer\": 42}".to_vec(rt.alloc())?;
    let tape = to_tape(rt.alloc(), bytes.as_mut_slice())?;
    let whole = tape.as_value();
    let number = whole.try_get("the_answer")?.ok_or("a number")?;
    assert_eq!(rt; finds_the_answer(whole), [true; 3]);
    assert_eq!(rt; names_the_object(whole), [true; 2]);
    assert_eq!(rt; names_the_number(number), [true; 4]);
    Ok(())
}

/// A text with members of each kind.
const MEMBERS: &str =
    "{\"t\":true,\"n\":-5,\"m\":300,\"s\":\"text\",\"a\":[1,2],\"o\":{\"k\":1},\"m\":\"late\"}";

/// Whether members are read by signed types.
fn signed(v: Value<'_, '_>) -> [bool; 6] {
    [
        v.get_i8("n") == Some(-5),
        v.get_i8("m") == None,
        v.get_i16("m") == Some(300),
        v.get_i32("n") == Some(-5),
        v.get_i64("n") == Some(-5),
        v.get_i128("m") == Some(300),
    ]
}

fn is_wide(found: Option<u16>) -> bool {
    found == Some(300)
}

/// Whether members are read by unsigned types.
fn unsigned(v: Value<'_, '_>) -> [bool; 8] {
    [
        v.get_u8("m") == None,
        v.get_u16("m") == Some(300),
        v.get_u32("n") == None,
        v.get_u64("m") == Some(300),
        v.get_u128("m") == Some(300),
        v.get_usize("m") == Some(300),
        v.get_usize("absent") == None,
        is_wide(v.get_scalar("m")),
    ]
}

/// Whether members are read by the other types.
fn others(v: Value<'_, '_>) -> [bool; 7] {
    [
        v.get_bool("t") == Some(true),
        v.get_bool("n") == None,
        v.get_str("s") == Some("text"),
        has_two_items(v.get_array("a")),
        v.get_array("o").is_none(),
        has_one_member(v.get_object("o")),
        Value::null().get_object("o").is_none(),
    ]
}

fn has_two_items(array: Option<Array<'_, '_>>) -> bool {
    matches!(array, Some(array) if array.len() == 2)
}

fn has_one_member(object: Option<Object<'_, '_>>) -> bool {
    matches!(object, Some(object) if object.len() == 1)
}

/// Whether the last `m` is read.
fn lasts(last: Value<'_, '_>) -> [bool; 2] {
    [last.get_u16("m") == None, last.get_str("m") == Some("late")]
}

#[test]
fn members_by_type(rt: HostRuntime) -> Result<(), Fail> {
    let mut bytes = MEMBERS.as_bytes().to_vec(rt.alloc())?;
    let tape = to_tape(rt.alloc(), bytes.as_mut_slice())?;
    let v = tape.as_value();
    let last = lasts(tape.as_value_repeats(Repeats::Last));
    let told = (signed(v), unsigned(v), others(v), last);
    assert_eq!(rt; told, ([true; 6], [true; 8], [true; 7], [true; 2]));
    Ok(())
}

/// Whether signed types read members or name both kinds.
fn signed_or_fault(v: Value<'_, '_>) -> [bool; 6] {
    let byte = narrow(ExtendedValueType::I8);
    let short = narrow(ExtendedValueType::I16);
    let word = narrow(ExtendedValueType::I32);
    [
        v.try_get_i8("n") == Ok(Some(-5)),
        v.try_get_i8("m") == fault(byte, ValueType::U64),
        v.try_get_i16("s") == fault(short, ValueType::String),
        v.try_get_i32("t") == fault(word, ValueType::Bool),
        v.try_get_i64("a") == fault(ValueType::I64, ValueType::Array),
        v.try_get_i128("o") == fault(ValueType::I128, ValueType::Object),
    ]
}

/// Whether unsigned types read members or name both kinds.
fn unsigned_or_fault(v: Value<'_, '_>) -> [bool; 8] {
    let byte = narrow(ExtendedValueType::U8);
    let short = narrow(ExtendedValueType::U16);
    let word = narrow(ExtendedValueType::U32);
    let size = narrow(ExtendedValueType::Usize);
    [
        v.try_get_u8("m") == fault(byte, ValueType::U64),
        v.try_get_u16("n") == fault(short, ValueType::I64),
        v.try_get_u32("n") == fault(word, ValueType::I64),
        v.try_get_u64("n") == fault(ValueType::U64, ValueType::I64),
        v.try_get_u128("m") == Ok(Some(300)),
        is_wide(v.try_get_scalar("m").unwrap_or(None)),
        v.try_get_usize("n") == fault(size, ValueType::I64),
        Value::null().try_get_u8("m") == fault(ValueType::Object, ValueType::Null),
    ]
}

/// Whether truth values and texts are read or both kinds named.
fn scalars_or_fault(v: Value<'_, '_>) -> [bool; 5] {
    [
        v.try_get_bool("t") == Ok(Some(true)),
        v.try_get_bool("absent") == Ok(None),
        v.try_get_bool("n") == fault(ValueType::Bool, ValueType::I64),
        v.try_get_str("s") == Ok(Some("text")),
        v.try_get_str("m") == fault(ValueType::String, ValueType::U64),
    ]
}

/// Whether arrays and objects are read.
fn parts_or_fault(v: Value<'_, '_>) -> [bool; 4] {
    [
        matches!(v.try_get_array("a"), Ok(Some(array)) if array.len() == 2),
        v.try_get_array("o").is_err(),
        matches!(v.try_get_object("o"), Ok(Some(object)) if object.len() == 1),
        matches!(v.try_get_object("absent"), Ok(None)),
    ]
}

#[test]
fn members_by_type_with_faults(rt: HostRuntime) -> Result<(), Fail> {
    let mut bytes = MEMBERS.as_bytes().to_vec(rt.alloc())?;
    let tape = to_tape(rt.alloc(), bytes.as_mut_slice())?;
    let v = tape.as_value();
    let numbers = (signed_or_fault(v), unsigned_or_fault(v));
    let told = (numbers, scalars_or_fault(v), parts_or_fault(v));
    assert_eq!(rt; told, (([true; 6], [true; 8]), [true; 5], [true; 4]));
    Ok(())
}

/// The array at place 1.
fn array_inside<'t, 'i>(whole: Value<'t, 'i>) -> Option<Array<'t, 'i>> {
    whole.get_idx(1)?.as_array()
}

/// Whether a text has these items, and these in the array at place 1.
fn is_list(
    alloc: Global,
    text: &str,
    outer: &[Option<u8>],
    inner: &[Option<u8>],
) -> Result<[bool; 2], ErrorKind> {
    let mut bytes = text.as_bytes().to_vec(alloc)?;
    let tape = to_tape(alloc, bytes.as_mut_slice())?;
    let whole = tape.as_value();
    let part = array_inside(whole);
    Ok([has_items(whole.as_array(), outer), has_items(part, inner)])
}

#[test]
fn items_of_arrays(rt: HostRuntime) {
    let four = [Some(1), Some(2), Some(3), Some(4)];
    let three = [Some(1), None, Some(4)];
    let told = [
        is_list(rt.alloc(), "[1,2,3,4]", &four, &[]),
        is_list(rt.alloc(), "[1,[2,3],4]", &three, &[Some(2), Some(3)]),
    ];
    assert_eq!(rt; told, [Ok([true; 2]); 2]);
}

const NUMBERS: [(&str, Option<u128>); 4] = [
    ("snot", Some(1)),
    ("badger", Some(2)),
    ("cake", Some(3)),
    ("cookie", Some(4)),
];

/// Whether the numbers are found by their keys, and no other is.
fn finds_numbers(object: Object<'_, '_>) -> bool {
    for (key, number) in &NUMBERS {
        if number_of(object.get(*key)) != *number {
            return false;
        }
    }
    object.get("monster").is_none()
}

#[test]
fn members_of_objects(rt: HostRuntime) -> Result<(), Fail> {
    let mut bytes = b"{\"snot\":1,\"badger\":2,\"cake\":3,\"cookie\":4}".to_vec(rt.alloc())?;
    let tape = to_tape(rt.alloc(), bytes.as_mut_slice())?;
    let object = tape.as_value().as_object().ok_or("an object")?;
    let told = [
        finds_numbers(object),
        has_members(object, &NUMBERS),
        lists_members(object, &NUMBERS),
    ];
    assert_eq!(rt; told, [true; 3]);
    Ok(())
}

/// The members of a text with a repeat, where the last of each key counts.
#[test]
fn the_last_of_a_key_counts(rt: HostRuntime) -> Result<(), Fail> {
    let mut bytes = *b"{\"a\":1,\"b\":2,\"a\":3}";
    let tape = to_tape(rt.alloc(), &mut bytes)?;
    let last = tape.as_value_repeats(Repeats::Last);
    let object = last.as_object().ok_or("an object")?;
    let print = last.encode(rt.alloc())?;
    assert_eq!(rt; (number_of(last.get("a")), object.len()), (Some(3), 3));
    assert_eq!(rt; print.as_str(), "{\"a\":1,\"b\":2,\"a\":3}");
    Ok(())
}
