//! Comparisons of lazy values, by what they mean and not by their form.

use sj_document::{OwnedValue, owned_from_tape};
use sj_lazy::Value;
use sj_tape::to_tape;
use sj_text_core::{Repeats, SameAs};
use std::alloc::Global;
use std::collections::HashMap;
use std::test::Fail;

/// Two texts, and whether they mean one document.
const ROWS: [(&str, &str, bool); 9] = [
    (r#"{"a":1,"b":2}"#, r#"{"b":2,"a":1}"#, true),
    (r#"{"a":1,"a":2}"#, r#"{"a":1}"#, true),
    (r#"{"a":[{"b":1,"b":2}],"a":0}"#, r#"{"a":[{"b":1}]}"#, true),
    (
        r#"{"a":[{"b":1,"b":2}],"a":0}"#,
        r#"{"a":[{"b":2}]}"#,
        false,
    ),
    (r#"{"a":1,"a":1}"#, r#"{"a":1,"b":1}"#, false),
    ("[1,2]", "[2,1]", false),
    (r#"{"a":1}"#, r#"{"b":1}"#, false),
    ("[]", "{}", false),
    (r#""a""#, r#""\u0061""#, true),
];

/// Whether the values are the same, the second in each form.
fn is_same(alloc: Global, first: &Value, second: &Value) -> Result<[bool; 4], Fail> {
    let mut written = second.clone()?;
    written.as_mut(alloc)?;
    let borrowed = second.clone()?.into_value(alloc)?;
    Ok([
        first.same_as(second),
        first.same_as(&written),
        written.same_as(first),
        first.same_as(&borrowed),
    ])
}

/// The same with the first in each form.
fn compared(alloc: Global, first: &Value, second: &Value) -> Result<[[bool; 4]; 2], Fail> {
    let mut upgraded = first.clone()?;
    upgraded.as_mut(alloc)?;
    Ok([
        is_same(alloc, first, second)?,
        is_same(alloc, &upgraded, second)?,
    ])
}

/// Whether it is the same as an owned document, before and after its upgrade.
fn is_owned(
    alloc: Global,
    value: &mut Value<'_, '_, '_>,
    owned: &OwnedValue,
) -> Result<[bool; 2], Fail> {
    let before = value.same_as(owned);
    value.as_mut(alloc)?;
    Ok([before, value.same_as(owned)])
}

#[test]
fn forms_are_compared(rt: HostRuntime) -> Result<(), Fail> {
    let alloc = rt.alloc();
    for &(left, right, same) in &ROWS {
        let mut left = left.as_bytes().to_vec(alloc)?;
        let mut right = right.as_bytes().to_vec(alloc)?;
        let left = to_tape(alloc, left.as_mut_slice())?;
        let right = to_tape(alloc, right.as_mut_slice())?;
        let owned = owned_from_tape(alloc, right.as_value_repeats(Repeats::First))?;
        let mut first: Value<'_, '_, '_> = Value::from_tape(left.as_value());
        let second: Value<'_, '_, '_> = Value::from_tape(right.as_value());
        assert_eq!(rt; compared(alloc, &first, &second)?, [[same; 4]; 2]);
        assert_eq!(rt; is_owned(alloc, &mut first, &owned)?, [same; 2]);
    }
    Ok(())
}

/// The map with these entries.
fn map_of(alloc: Global, entries: &[(&str, u8)]) -> Result<HashMap<String, u8>, Fail> {
    let mut map = HashMap::new(alloc);
    for (key, value) in entries {
        map.insert(String::from_str(alloc, key)?, *value)?;
    }
    Ok(map)
}

type Map = HashMap<String, u8>;

/// Whether a text is the same as each map, before and after its upgrade.
fn is_map(alloc: Global, text: &str, one: &Map, two: &Map) -> Result<[[bool; 2]; 2], Fail> {
    let mut bytes = text.as_bytes().to_vec(alloc)?;
    let tape = to_tape(alloc, bytes.as_mut_slice())?;
    let mut value: Value<'_, '_, '_> = Value::from_tape(tape.as_value());
    let before = [value.same_as(one), value.same_as(two)];
    value.as_mut(alloc)?;
    Ok([before, [value.same_as(one), value.same_as(two)]])
}

#[test]
fn maps_are_compared_key_by_key(rt: HostRuntime) -> Result<(), Fail> {
    let alloc = rt.alloc();
    let one = map_of(alloc, &[("a", 1)])?;
    let two = map_of(alloc, &[("a", 1), ("b", 2)])?;
    for (text, same_as_one, same_as_two) in [
        (r#"{"a":1,"a":2}"#, true, false),
        (r#"{"a":1}"#, true, false),
        (r#"{"b":2,"a":1}"#, false, true),
        (r#"{"b":2,"a":1,"c":3}"#, false, false),
        (r#"{"a":2}"#, false, false),
        ("{}", false, false),
        ("[1]", false, false),
    ] {
        let told = is_map(alloc, text, &one, &two)?;
        assert_eq!(rt; told, [[same_as_one, same_as_two]; 2], "{text}");
    }
    Ok(())
}

#[test]
fn maps_are_compared_by_the_choice(rt: HostRuntime) -> Result<(), Fail> {
    let alloc = rt.alloc();
    let one = map_of(alloc, &[("a", 1)])?;
    let last = map_of(alloc, &[("a", 2)])?;
    let mut text = *br#"{"a":1,"a":2}"#;
    let tape = to_tape(alloc, &mut text)?;
    let value: Value<'_, '_, '_> = Value::from_tape(tape.as_value_repeats(Repeats::Last));
    assert_eq!(rt; [value.same_as(&last), value.same_as(&one)], [true, false]);
    Ok(())
}
