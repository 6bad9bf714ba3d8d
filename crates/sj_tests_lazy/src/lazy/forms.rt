//! What each call makes of the form.

use super::{keys_of, prints};
use sj_document::Document;
use sj_lazy::{Shared, Value};
use sj_tape::to_tape;
use sj_text_core::{StaticNode, ValueAsScalar, ValueObjectAccessAsScalar};
use std::alloc::Global;
use std::borrow::CowStr;
use std::test::Fail;

fn number<'i>(n: u64) -> Document<CowStr<'i>> {
    Document::Static(StaticNode::U64(n))
}

#[test]
fn a_number_is_upgraded_by_a_write_that_finds_no_array(rt: HostRuntime) -> Result<(), Fail> {
    let alloc = rt.alloc();
    let mut text = *b"5";
    let tape = to_tape(alloc, &mut text)?;
    let mut value: Value<'_, '_, '_> = Value::from_tape(tape.as_value());
    let is_tape = value.is_tape();
    let is_none = value.as_array_mut(alloc)?.is_none();
    let told = [
        is_tape,
        is_none,
        value.is_value(),
        value.as_u64() == Some(5),
    ];
    assert_eq!(rt; told, [true; 4]);
    Ok(())
}

fn is_lent(value: &Value) -> bool {
    matches!(value, Value::Value(Shared::Borrowed(_)))
}

fn is_owned(value: &Value) -> bool {
    matches!(value, Value::Value(Shared::Owned(_)))
}

#[test]
fn a_part_is_copied_before_it_is_written(rt: HostRuntime) -> Result<(), Fail> {
    let alloc = rt.alloc();
    let mut text = *b"[1,[2]]";
    let tape = to_tape(alloc, &mut text)?;
    let mut value: Value<'_, '_, '_> = Value::from_tape(tape.as_value());
    value.as_mut(alloc)?;
    let mut part = value.get_idx(1).ok_or("an item")?;
    let was_lent = is_lent(&part);
    part.push(alloc, number(3))?;
    let told = [
        was_lent,
        is_owned(&part),
        prints(alloc, &part, "[2,3]")?,
        prints(alloc, &value, "[1,[2]]")?,
    ];
    assert_eq!(rt; told, [true; 4]);
    Ok(())
}

#[test]
fn copies_of_a_tape_are_tapes(rt: HostRuntime) -> Result<(), Fail> {
    let alloc = rt.alloc();
    let mut text = *br#"{"a":[1],"a":2}"#;
    let tape = to_tape(alloc, &mut text)?;
    let value: Value<'_, '_, '_> = Value::from_tape(tape.as_value());
    let null: Value<'_, '_, '_> = Value::null();
    let told = [
        value.clone()?.is_tape(),
        value.clone()?.into_owned(alloc)?.is_tape(),
        null.is_tape(),
        null.clone()?.is_tape(),
        null == Value::default(),
    ];
    assert_eq!(rt; told, [true; 5]);
    Ok(())
}

#[test]
fn the_first_write_upgrades(rt: HostRuntime) -> Result<(), Fail> {
    let alloc = rt.alloc();
    let mut text = *br#"{"key": "value", "snot": 42}"#;
    let tape = to_tape(alloc, &mut text)?;
    let mut value: Value<'_, '_, '_> = Value::from_tape(tape.as_value());
    let is_tape = value.get_str("key") == Some("value") && value.is_tape();
    let before = value.insert(alloc, CowStr::Borrowed("new"), number(42))?;
    let told = [
        is_tape,
        before.is_none(),
        value.is_value(),
        value.get_str("key") == Some("value"),
        keys_of(alloc, &value)?.as_str() == "key snot new ",
        value.get_i8("snot") == Some(42),
    ];
    assert_eq!(rt; told, [true; 6]);
    Ok(())
}

/// What an item is displayed as.
fn is_displayed(alloc: Global, value: &Value, place: usize, shown: &str) -> Result<bool, Fail> {
    let item = value.get_idx(place).ok_or("an item")?;
    Ok(format!(in alloc; "{item}")?.as_str() == shown)
}

#[test]
fn values_are_displayed(rt: HostRuntime) -> Result<(), Fail> {
    let alloc = rt.alloc();
    let mut text = *br#"[null,-5,"a\"b",{"k":[]}]"#;
    let tape = to_tape(alloc, &mut text)?;
    let mut value: Value<'_, '_, '_> = Value::from_tape(tape.as_value());
    for _ in 0..2 {
        let told = [
            is_displayed(alloc, &value, 0, "null")?,
            is_displayed(alloc, &value, 1, "-5")?,
            is_displayed(alloc, &value, 2, "a\"b")?,
            is_displayed(alloc, &value, 3, r#"{"k":[]}"#)?,
        ];
        assert_eq!(rt; told, [true; 4]);
        value.as_mut(alloc)?;
    }
    Ok(())
}
