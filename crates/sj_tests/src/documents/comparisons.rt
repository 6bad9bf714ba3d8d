//! Comparisons of documents with tapes, one another and other types.

use super::owned;
use sj_document::{BorrowedValue, Document, OwnedValue};
use sj_object::{KeyMade, deserialize};
use sj_tape::{Value, to_tape};
use sj_text_core::{ErrorKind, Repeats, SameAs, StaticNode};
use std::alloc::Global;
use std::borrow::CowStr;
use std::test::Fail;

/// A tape's text, and what it is compared with.
const ROWS: [(&str, &str, bool); 13] = [
    ("{\"a\":1,\"b\":2}", "{\"b\":2,\"a\":1}", true),
    ("{\"a\":1,\"a\":2}", "{\"a\":1}", true),
    ("[1,2]", "[2,1]", false),
    ("{\"a\":1}", "{\"b\":1}", false),
    (
        "{\"a\":[{\"b\":1,\"b\":2}],\"a\":0}",
        "{\"a\":[{\"b\":1}]}",
        true,
    ),
    (
        "{\"a\":[{\"b\":1,\"b\":2}],\"a\":0}",
        "{\"a\":[{\"b\":2}]}",
        false,
    ),
    ("{\"a\":1,\"a\":1}", "{\"a\":1,\"b\":1}", false),
    ("{\"a\":1,\"b\":1}", "{\"a\":1,\"a\":1}", false),
    ("{\"a\":1,\"b\":2}", "{\"b\":2,\"c\":3,\"a\":1}", false),
    ("{\"b\":2,\"c\":3,\"a\":1}", "{\"a\":1,\"b\":2}", false),
    (
        "{\"b\":2,\"a\":1,\"b\":3}",
        "{\"a\":1,\"b\":2,\"a\":7}",
        true,
    ),
    ("[]", "{}", false),
    ("[1,\"1\",-0]", "[1,\"\\u0031\",0]", true),
];

/// Whether a tape's value means the document, asked both ways.
fn same_tape(value: Value<'_, '_>, other: &OwnedValue) -> [bool; 2] {
    [value.same_as(other), other.same_as(&value)]
}

/// Whether a borrowed document means the other, asked both ways.
fn same_borrowed(value: &BorrowedValue<'_>, other: &OwnedValue) -> [bool; 2] {
    [value.same_as(other), other.same_as(value)]
}

/// Whether the tape of a text means the document.
fn with_tape(alloc: Global, text: &str, other: &OwnedValue) -> Result<[bool; 2], ErrorKind> {
    let mut bytes = text.as_bytes().to_vec(alloc)?;
    let tape = to_tape(alloc, bytes.as_mut_slice())?;
    Ok(same_tape(tape.as_value(), other))
}

/// Whether the borrowed document of a text means the document.
fn with_borrowed(alloc: Global, text: &str, other: &OwnedValue) -> Result<[bool; 2], ErrorKind> {
    let mut bytes = text.as_bytes().to_vec(alloc)?;
    let borrowed = deserialize::<BorrowedValue, CowStr>(alloc, bytes.as_mut_slice())?;
    Ok(same_borrowed(&borrowed, other))
}

/// Whether the borrowed document of a text means the text's tape.
fn forms_agree(alloc: Global, text: &str) -> Result<bool, ErrorKind> {
    let mut first = text.as_bytes().to_vec(alloc)?;
    let mut lent = text.as_bytes().to_vec(alloc)?;
    let tape = to_tape(alloc, first.as_mut_slice())?;
    let borrowed = deserialize::<BorrowedValue, CowStr>(alloc, lent.as_mut_slice())?;
    Ok(borrowed.same_as(&tape.as_value()))
}

/// Whether all forms of a text mean the owned document of another, which means itself.
fn compared(alloc: Global, text: &str, other: &str) -> Result<([[bool; 2]; 2], bool), ErrorKind> {
    let other = owned(alloc, other)?;
    let forms = [
        with_tape(alloc, text, &other)?,
        with_borrowed(alloc, text, &other)?,
    ];
    Ok((forms, other.same_as(&other)))
}

#[test]
fn forms_are_compared(rt: HostRuntime) {
    for &(left, right, same) in &ROWS {
        let told = compared(rt.alloc(), left, right);
        assert!(rt; told == Ok(([[same; 2]; 2], true)), "{left} and {right}");
        assert!(rt; forms_agree(rt.alloc(), left) == Ok(true), "{left}");
    }
}

/// Whether documents of one number in two carriers are the same.
fn five_is_five<K: KeyMade>() -> [bool; 2] {
    let (signed, unsigned): (Document<K>, Document<K>) = (
        Document::from(5_i64),
        Document::from(5_u64),
    );
    [signed == unsigned, unsigned.same_as(&signed)]
}

#[test]
fn carriers_are_not_compared(rt: HostRuntime) {
    let told = [five_is_five::<String>(), five_is_five::<CowStr<'static>>()];
    assert_eq!(rt; told, [[true; 2]; 2]);
}

/// Whether a document of the number 5 is 5, however it is given.
fn is_five(five: &OwnedValue) -> [bool; 6] {
    let n = 5_u64;
    [
        five.same_as(&n),
        five.same_as(&&n),
        five.same_as(&&&n),
        *five == *five,
        five.same_as(five),
        five.same_as(&five),
    ]
}

/// Whether the document is another number, a text, or a list of nothing.
fn is_another(five: &OwnedValue) -> [bool; 3] {
    let none: [u8; 0] = [];
    [
        five.same_as(&6_u8),
        five.same_as(&"5"),
        five.same_as(&&none[..]),
    ]
}

/// Whether the list is that of the first two numbers alone.
fn is_the_first_two(list: &OwnedValue) -> [bool; 3] {
    let numbers: [u8; 3] = [1, 2, 3];
    [
        list.same_as(&&numbers[..2]),
        !list.same_as(&&numbers[..1]),
        !list.same_as(&&numbers[..]),
    ]
}

#[test]
fn other_types_are_compared(rt: HostRuntime) -> Result<(), Fail> {
    let five: OwnedValue = Document::Static(StaticNode::I64(5));
    let list = owned(rt.alloc(), "[1,2]")?;
    assert_eq!(rt;
        (is_five(&five), is_another(&five)),
        ([true; 6], [false; 3])
    );
    assert_eq!(rt; (is_the_first_two(&list), list != five), ([true; 3], true));
    Ok(())
}

#[test]
fn maps_are_compared(rt: HostRuntime) -> Result<(), Fail> {
    let object = owned(rt.alloc(), "{\"a\":1,\"a\":2}")?;
    let list = owned(rt.alloc(), "[1,2]")?;
    let mut map = std::collections::HashMap::new(rt.alloc());
    map.insert("a", 1_i64)?;
    let before = object.same_as(&map);
    map.insert("b", 2)?;
    let after = [object.same_as(&map), list.same_as(&map)];
    assert_eq!(rt; (before, after), (true, [false; 2]));
    Ok(())
}

/// Whether a tape means a document by the choice, and by the other.
fn by_choice(
    alloc: Global,
    kept: &str,
    choice: Repeats,
    other: Repeats,
) -> Result<[[bool; 2]; 2], ErrorKind> {
    let kept = owned(alloc, kept)?;
    let mut text = b"{\"a\":1,\"b\":[{\"c\":0,\"c\":\"x\"}],\"a\":2}".to_vec(alloc)?;
    let tape = to_tape(alloc, text.as_mut_slice())?;
    Ok([
        same_tape(tape.as_value_repeats(choice), &kept),
        same_tape(tape.as_value_repeats(other), &kept),
    ])
}

#[test]
fn parts_are_compared_by_choice(rt: HostRuntime) {
    let (first, last) = (Repeats::First, Repeats::Last);
    let told = [
        by_choice(rt.alloc(), "{\"b\":[{\"c\":\"x\"}],\"a\":2}", last, first),
        by_choice(rt.alloc(), "{\"b\":[{\"c\":0}],\"a\":1}", first, last),
    ];
    assert_eq!(rt; told, [Ok([[true; 2], [false; 2]]); 2]);
}
