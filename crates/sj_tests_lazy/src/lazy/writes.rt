//! Writes, refused and not.

use super::{members, prints};
use sj_lazy::Value;
use sj_tape::to_tape;
use sj_text_core::{AccessError, ValueAsScalar, ValueObjectAccessAsScalar};
use std::test::Fail;

const REPEATED: &str = r#"{"a":1,"a":2}"#;

#[test]
fn repeats_are_gone_once_it_is_lent_for_writes(rt: HostRuntime) -> Result<(), Fail> {
    let alloc = rt.alloc();
    let mut text = REPEATED.as_bytes().to_vec(alloc)?;
    let tape = to_tape(alloc, text.as_mut_slice())?;
    let mut value: Value<'_, '_, '_> = Value::from_tape(tape.as_value());
    let is_first = value.get_u8("a") == Some(1);
    let is_printed = prints(alloc, &value, REPEATED)?;
    let is_lent = value.as_object_mut(alloc)?.is_some();
    let told = [
        is_first,
        is_printed,
        is_lent,
        value.get_u8("a") == Some(1),
        prints(alloc, &value, r#"{"a":1}"#)?,
    ];
    assert_eq!(rt; told, [true; 5]);
    Ok(())
}

#[test]
fn repeats_are_gone_once_one_is_removed(rt: HostRuntime) -> Result<(), Fail> {
    let alloc = rt.alloc();
    let mut text = REPEATED.as_bytes().to_vec(alloc)?;
    let tape = to_tape(alloc, text.as_mut_slice())?;
    let mut value: Value<'_, '_, '_> = Value::from_tape(tape.as_value());
    let gone = value.remove(alloc, "a")?.ok_or("a member")?;
    assert_eq!(rt; gone.as_u64(), Some(1));
    assert!(rt; prints(alloc, &value, "{}")?);
    Ok(())
}

/// A write that finds no array upgrades too.
#[test]
fn repeats_are_gone_once_a_write_is_refused(rt: HostRuntime) -> Result<(), Fail> {
    let alloc = rt.alloc();
    let mut text = REPEATED.as_bytes().to_vec(alloc)?;
    let tape = to_tape(alloc, text.as_mut_slice())?;
    let mut value: Value<'_, '_, '_> = Value::from_tape(tape.as_value());
    let told = [
        members(&value) == Some(2),
        matches!(value.pop(alloc), Err(AccessError::NotAnArray)),
        value.is_value(),
        prints(alloc, &value, r#"{"a":1}"#)?,
    ];
    assert_eq!(rt; told, [true; 4]);
    Ok(())
}
