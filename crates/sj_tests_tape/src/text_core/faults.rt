//! Texts of faults, and faults of memory.

use sj_text_core::{
    AccessError, BadTape, ErrorKind, ExtendedValueType, JsonError, PointerError, Refused,
    TryTypeError, ValueType, WriteError,
};
use std::alloc::{AllocError, AllocFailed, Global};
use std::test::Fail;

/// Kinds of refusals, and their texts.
const KINDS: [(ErrorKind, &str); 7] = [
    (ErrorKind::InvalidUtf8, "invalid UTF-8"),
    (ErrorKind::Syntax, "syntax error"),
    (ErrorKind::LoneSurrogate, "lone surrogate"),
    (ErrorKind::Float, "number with a fraction or an exponent"),
    (ErrorKind::NumberTooLarge, "number too large"),
    (ErrorKind::TooDeep, "nested too deep"),
    (ErrorKind::OutOfMemory, "out of memory"),
];

/// Kinds of values, as users read them: the words of JSON, and Rust's names of integer types.
const NAMES: [(ValueType, &str); 16] = [
    (ValueType::Null, "null"),
    (ValueType::Bool, "bool"),
    (ValueType::I64, "i64"),
    (ValueType::U64, "u64"),
    (ValueType::I128, "i128"),
    (ValueType::U128, "u128"),
    (ValueType::String, "string"),
    (ValueType::Array, "array"),
    (ValueType::Object, "object"),
    (ValueType::Extended(ExtendedValueType::I8), "i8"),
    (ValueType::Extended(ExtendedValueType::I16), "i16"),
    (ValueType::Extended(ExtendedValueType::I32), "i32"),
    (ValueType::Extended(ExtendedValueType::U8), "u8"),
    (ValueType::Extended(ExtendedValueType::U16), "u16"),
    (ValueType::Extended(ExtendedValueType::U32), "u32"),
    (ValueType::Extended(ExtendedValueType::Usize), "usize"),
];

/// Whether the kind is told so.
fn is_told(alloc: Global, kind: ErrorKind, wanted: &str) -> Result<bool, AllocError> {
    Ok(format!(in alloc; "{kind}")?.as_str() == wanted)
}

#[test]
fn kinds_of_refusals_are_told(rt: HostRuntime) {
    for &(kind, wanted) in &KINDS {
        assert!(rt; is_told(rt.alloc(), kind, wanted) == Ok(true), "{wanted}");
    }
}

#[test]
fn faults_are_told(rt: HostRuntime) -> Result<(), Fail> {
    let (object, array) = (AccessError::NotAnObject, AccessError::NotAnArray);
    let (access, write) = (AccessError::OutOfMemory, WriteError::OutOfMemory);
    let (long, bad) = (WriteError::TooLong, BadTape);
    let kind = TryTypeError {
        expected: ValueType::Extended(ExtendedValueType::U8),
        got: ValueType::Object,
    };
    let refused = Refused {
        why: array,
        value: 1_u8,
    };
    assert_eq!(rt;
        format!(in rt.alloc(); "{object}; {array}; {access}; {long}; {write}")?.as_str(),
        "not an object; not an array; out of memory; the output would be too long; out of memory"
    );
    assert_eq!(rt;
        format!(in rt.alloc(); "{bad}; {kind}; {refused:?}")?.as_str(),
        "the nodes are not those of one tree; expected u8, found object; Refused { why: NotAnArray, value: 1 }"
    );
    Ok(())
}

#[test]
fn kinds_of_values_are_told(rt: HostRuntime) -> Result<(), Fail> {
    for &(kind, wanted) in &NAMES {
        assert_eq!(rt; format!(in rt.alloc(); "{kind}")?.as_str(), wanted);
    }
    Ok(())
}

/// An array refused, with the value that it was to take.
fn no_array(value: u8) -> Refused<AccessError, u8> {
    Refused {
        why: AccessError::NotAnArray,
        value,
    }
}

#[test]
fn refusals_tell_their_reason(rt: HostRuntime) -> Result<(), Fail> {
    let refused = no_array(1).because(WriteError::TooLong);
    assert_eq!(rt;
        format!(in rt.alloc(); "{}; {refused}", no_array(1))?.as_str(),
        "not an array; the output would be too long"
    );
    assert_eq!(rt; refused.value, 1);
    Ok(())
}

#[test]
fn every_fault_is_one_error(rt: HostRuntime) -> Result<(), Fail> {
    let kind = TryTypeError {
        expected: ValueType::Object,
        got: ValueType::Null,
    };
    let told = [
        (JsonError::from(ErrorKind::Syntax), "not read: syntax error"),
        (
            JsonError::from(WriteError::TooLong),
            "not printed: the output would be too long",
        ),
        (
            JsonError::from(AccessError::NotAnObject),
            "not changed: not an object",
        ),
        (JsonError::from(no_array(1)), "not changed: not an array"),
        (JsonError::from(kind), "expected object, found null"),
        (
            JsonError::from(BadTape),
            "the nodes are not those of one tree",
        ),
        (
            JsonError::from(PointerError::NoSlash),
            "no pointer: no slash at the start",
        ),
        (JsonError::NotServed, "this form is not served in this way"),
    ];
    for (error, wanted) in told {
        assert_eq!(rt; format!(in rt.alloc(); "{error}")?.as_str(), wanted);
    }
    Ok(())
}

#[test]
fn want_of_memory_is_one_fault(rt: HostRuntime) {
    let refused = Refused {
        why: AllocError,
        value: 1_u8,
    };
    let told = [
        JsonError::from(AllocError),
        JsonError::from(AllocFailed { value: 1_u8 }),
        JsonError::from(refused),
        JsonError::from(no_array(1).because(AccessError::OutOfMemory)),
        JsonError::from(ErrorKind::OutOfMemory),
        JsonError::from(WriteError::OutOfMemory),
        JsonError::from(PointerError::OutOfMemory),
    ];
    assert_eq!(rt; told, [JsonError::OutOfMemory; 7]);
}

/// Whether the refusal goes by `?` into the fault of access.
fn passed<E: Drop>(why: E) -> Result<(), AccessError>
where
    AccessError: From<Refused<E, u8>>,
{
    Err(Refused { why, value: 1 })?;
    Ok(())
}

#[test]
fn refused_memory_is_a_fault(rt: HostRuntime) {
    let told = [
        ErrorKind::from(AllocError) == ErrorKind::OutOfMemory,
        ErrorKind::from(AllocFailed { value: 1_u8 }) == ErrorKind::OutOfMemory,
        WriteError::from(AllocError) == WriteError::OutOfMemory,
        WriteError::from(AllocFailed { value: 1_u8 }) == WriteError::OutOfMemory,
        AccessError::from(AllocError) == AccessError::OutOfMemory,
        AccessError::from(AllocFailed { value: 1_u8 }) == AccessError::OutOfMemory,
        PointerError::from(AllocError) == PointerError::OutOfMemory,
        PointerError::from(AllocFailed { value: 1_u8 }) == PointerError::OutOfMemory,
        passed(AllocError) == Err(AccessError::OutOfMemory),
        passed(AccessError::NotAnArray) == Err(AccessError::NotAnArray),
    ];
    assert_eq!(rt; told, [true; 10]);
}
