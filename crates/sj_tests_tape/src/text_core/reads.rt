//! Typed reads.

use sj_text_core::{
    ExtendedValueType, StaticNode, TryTypeError, TypedValue, ValueAsScalar, ValueType,
};

/// Numbers, each as a literal of 128 bits, signed and unsigned; None past these.
const NUMBERS: [(StaticNode, Option<i128>, Option<u128>); 18] = [
    (StaticNode::I64(-128), Some(-128), None),
    (StaticNode::I64(-129), Some(-129), None),
    (StaticNode::I64(127), Some(127), Some(127)),
    (StaticNode::I64(256), Some(256), Some(256)),
    (StaticNode::I64(-32768), Some(-32768), None),
    (StaticNode::I64(-2147483649), Some(-2147483649), None),
    (StaticNode::I64(i64::MIN), Some(-9223372036854775808), None),
    (
        StaticNode::I64(i64::MAX),
        Some(9223372036854775807),
        Some(9223372036854775807),
    ),
    (StaticNode::U64(5), Some(5), Some(5)),
    (StaticNode::U64(255), Some(255), Some(255)),
    (StaticNode::U64(65535), Some(65535), Some(65535)),
    (
        StaticNode::U64(4294967295),
        Some(4294967295),
        Some(4294967295),
    ),
    (
        StaticNode::U64(u64::MAX),
        Some(18446744073709551615),
        Some(18446744073709551615),
    ),
    (StaticNode::I128(-1), Some(-1), None),
    (
        StaticNode::I128(i128::MIN),
        Some(-170141183460469231731687303715884105728),
        None,
    ),
    (
        StaticNode::I128(i128::MAX),
        Some(170141183460469231731687303715884105727),
        Some(170141183460469231731687303715884105727),
    ),
    (StaticNode::U128(300), Some(300), Some(300)),
    (
        StaticNode::U128(u128::MAX),
        None,
        Some(340282366920938463463374607431768211455),
    ),
];

/// Whether a number fits a type, and is read so in both ways, exactly where that number is wanted.
fn agrees<T: PartialEq + Drop>(
    fits: bool,
    read: Option<T>,
    tried: Result<T, TryTypeError>,
    wanted: Option<T>,
) -> bool {
    fits == wanted.is_some() && tried.ok() == wanted && read == wanted
}

/// Whether each signed type reads the number where it lies in the type's range.
fn signed(v: StaticNode, n: Option<i128>) -> [bool; 5] {
    [
        agrees(
            v.is_i8(),
            v.as_i8(),
            v.try_as_i8(),
            n.and_then(|n| i8::try_from(n).ok()),
        ),
        agrees(
            v.is_i16(),
            v.as_i16(),
            v.try_as_i16(),
            n.and_then(|n| i16::try_from(n).ok()),
        ),
        agrees(
            v.is_i32(),
            v.as_i32(),
            v.try_as_i32(),
            n.and_then(|n| i32::try_from(n).ok()),
        ),
        agrees(
            v.is_i64(),
            v.as_i64(),
            v.try_as_i64(),
            n.and_then(|n| i64::try_from(n).ok()),
        ),
        agrees(v.is_i128(), v.as_i128(), v.try_as_i128(), n),
    ]
}

/// Whether each unsigned type does.
fn unsigned(v: StaticNode, n: Option<u128>) -> [bool; 6] {
    [
        agrees(
            v.is_u8(),
            v.as_u8(),
            v.try_as_u8(),
            n.and_then(|n| u8::try_from(n).ok()),
        ),
        agrees(
            v.is_u16(),
            v.as_u16(),
            v.try_as_u16(),
            n.and_then(|n| u16::try_from(n).ok()),
        ),
        agrees(
            v.is_u32(),
            v.as_u32(),
            v.try_as_u32(),
            n.and_then(|n| u32::try_from(n).ok()),
        ),
        agrees(
            v.is_u64(),
            v.as_u64(),
            v.try_as_u64(),
            n.and_then(|n| u64::try_from(n).ok()),
        ),
        agrees(v.is_u128(), v.as_u128(), v.try_as_u128(), n),
        agrees(
            v.is_usize(),
            v.as_usize(),
            v.try_as_usize(),
            n.and_then(|n| usize::try_from(n).ok()),
        ),
    ]
}

#[test]
fn numbers_are_read_by_their_ranges(rt: HostRuntime) {
    for &(v, less, more) in &NUMBERS {
        assert!(rt; signed(v, less) == [true; 5], "{v}");
        assert!(rt; unsigned(v, more) == [true; 6], "{v}");
    }
}

/// What each `try_` call expects of a value that it can't read.
fn expected(node: StaticNode) -> [Option<TryTypeError>; 14] {
    [
        node.try_as_null().err(),
        node.try_as_bool().err(),
        node.try_as_str().err(),
        node.try_as_i8().err(),
        node.try_as_i16().err(),
        node.try_as_i32().err(),
        node.try_as_i64().err(),
        node.try_as_i128().err(),
        node.try_as_u8().err(),
        node.try_as_u16().err(),
        node.try_as_u32().err(),
        node.try_as_u64().err(),
        node.try_as_u128().err(),
        node.try_as_usize().err(),
    ]
}

const EXPECTED: [ValueType; 14] = [
    ValueType::Null,
    ValueType::Bool,
    ValueType::String,
    ValueType::Extended(ExtendedValueType::I8),
    ValueType::Extended(ExtendedValueType::I16),
    ValueType::Extended(ExtendedValueType::I32),
    ValueType::I64,
    ValueType::I128,
    ValueType::Extended(ExtendedValueType::U8),
    ValueType::Extended(ExtendedValueType::U16),
    ValueType::Extended(ExtendedValueType::U32),
    ValueType::U64,
    ValueType::U128,
    ValueType::Extended(ExtendedValueType::Usize),
];

/// The place of the first call that does not name both kinds; at its own place it reads.
fn unnamed(node: StaticNode, got: ValueType, own: usize) -> Option<usize> {
    for (i, (fault, expected)) in expected(node).into_iter().zip(EXPECTED).enumerate() {
        let named = Some(TryTypeError { expected, got });
        if fault != if i == own { None } else { named } {
            return Some(i);
        }
    }
    None
}

#[test]
fn faults_name_both_kinds(rt: HostRuntime) {
    let told = [
        unnamed(StaticNode::Null, ValueType::Null, 0),
        unnamed(StaticNode::Bool(true), ValueType::Bool, 1),
    ];
    assert_eq!(rt; told, [None; 2]);
}

#[test]
fn other_scalars_are_read(rt: HostRuntime) {
    let five = StaticNode::U64(5);
    let told = [
        StaticNode::Null.as_null() == Some(()),
        StaticNode::Null.try_as_null() == Ok(()),
        StaticNode::Bool(true).as_bool() == Some(true),
        StaticNode::Bool(true).try_as_bool() == Ok(true),
        five.as_null() == None,
        five.as_bool() == None,
        five.as_str().is_none(),
    ];
    assert_eq!(rt; told, [true; 7]);
}

/// Whether the value is null, a truth value, or what no scalar is.
fn kinds(node: StaticNode) -> [bool; 5] {
    [
        node.is_null(),
        node.is_bool(),
        node.is_str(),
        node.is_array(),
        node.is_object(),
    ]
}

#[test]
fn kinds_are_told(rt: HostRuntime) {
    let (yes, no) = (true, false);
    for &(node, kind, told) in &[
        (StaticNode::Null, ValueType::Null, [yes, no, no, no, no]),
        (
            StaticNode::Bool(false),
            ValueType::Bool,
            [no, yes, no, no, no],
        ),
        (StaticNode::I64(1), ValueType::I64, [no; 5]),
        (StaticNode::U64(42), ValueType::U64, [no; 5]),
        (StaticNode::I128(1), ValueType::I128, [no; 5]),
        (StaticNode::U128(1), ValueType::U128, [no; 5]),
    ] {
        assert!(rt;
            node.value_type() == kind && kinds(node) == told,
            "{node:?}"
        );
    }
}
