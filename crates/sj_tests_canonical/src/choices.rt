//! Repeats of a key, what is appended to, and deep values.

use super::owned;
use sj_canonical::Canonical;
use sj_document::OwnedValue;
use sj_lazy::Value;
use sj_owned::to_value;
use sj_tape::to_tape;
use sj_text_core::{Repeats, TryMake};
use std::test::Fail;

#[test]
fn the_member_that_counts_is_printed(rt: HostRuntime) -> Result<(), Fail> {
    let alloc = rt.alloc();
    let mut text = *br#"{"b":{"y":1,"x":2,"y":3},"a":4,"b":[{"c":5,"c":6}],"a":7}"#;
    let tape = to_tape(alloc, &mut text)?;
    let first = tape.as_value_repeats(Repeats::First);
    let last = tape.as_value_repeats(Repeats::Last);
    let lazy: Value<'_, '_, '_> = Value::from_tape(last);
    let by_first = r#"{"a":4,"b":{"x":2,"y":1}}"#;
    let by_last = r#"{"a":7,"b":[{"c":6}]}"#;
    assert!(rt; first.canonical(alloc)?.as_str() == by_first);
    assert!(rt; last.canonical(alloc)?.as_str() == by_last);
    assert!(rt; lazy.canonical(alloc)?.as_str() == by_last);
    assert!(rt; lazy.into_owned(alloc)?.canonical(alloc)?.as_str() == by_last);
    Ok(())
}

#[test]
fn prints_are_appended(rt: HostRuntime) -> Result<(), Fail> {
    let alloc = rt.alloc();
    let mut text = *br#"{"b":1,"a":[null,true]}"#;
    let tape = to_tape(alloc, &mut text)?;
    let part = tape.as_value();
    let lazy: Value<'_, '_, '_> = Value::from_tape(part);
    let mut out = b"> ".to_vec(alloc)?;
    part.write_canonical(&mut out)?;
    lazy.write_canonical(&mut out)?;
    owned(alloc, r#"{"d":{},"c":-1}"#)?.write_canonical(&mut out)?;
    let wanted: &[u8] = br#"> {"a":[null,true],"b":1}{"a":[null,true],"b":1}{"c":-1,"d":{}}"#;
    assert!(rt; out.as_slice() == wanted);
    Ok(())
}

#[test]
fn the_example_is_printed(rt: HostRuntime) -> Result<(), Fail> {
    let alloc = rt.alloc();
    let mut text = br#"{"b":[2,{"d":4,"c":3}],"a":1}"#.to_vec(alloc)?;
    let value = to_value(alloc, &mut text)?;
    let print = value.canonical(alloc)?;
    assert!(rt; print.as_str() == r#"{"a":1,"b":[2,{"c":3,"d":4}]}"#);
    Ok(())
}

#[test]
fn depth_takes_no_stack(rt: HostRuntime) -> Result<(), Fail> {
    let alloc = rt.alloc();
    let mut value = OwnedValue::null();
    for _ in 0..30_000 {
        let mut outer = OwnedValue::array(alloc)?;
        outer.push(value)?;
        let mut object = OwnedValue::object(alloc)?;
        object.insert(String::from_str(alloc, "b")?, outer)?;
        object.insert(String::from_str(alloc, "a")?, OwnedValue::null())?;
        value = object;
    }
    let print = value.canonical(alloc)?;
    assert_eq!(rt; print.len(), 30_000 * 17 + 4);
    Ok(())
}
