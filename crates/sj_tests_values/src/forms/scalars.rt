//! Kinds, and what documents are the same as.

use crate::{borrowed, owned};
use sj_document::Document;
use sj_object::KeyMade;
use sj_text_core::{SameAs, TryMake, TypedValue, ValueAsScalar};
use std::borrow::CowStr;
use std::collections::HashMap;
use std::test::Fail;

/// Whether it is a truth value, a null, a text, an array, an object.
fn kind<K: KeyMade>(value: &Document<K>) -> [bool; 5] {
    [
        value.is_bool(),
        value.is_null(),
        value.is_str(),
        value.is_array(),
        value.is_object(),
    ]
}

/// The kinds of a truth value, of a null, of these three and of a number.
fn kinds<K: KeyMade>(
    text: &Document<K>,
    list: &Document<K>,
    object: &Document<K>,
) -> [[bool; 5]; 6] {
    let truth: Document<K> = Document::from(true);
    let nothing: Document<K> = Document::from(());
    let number: Document<K> = Document::from(42_i64);
    [
        kind(&truth),
        kind(&nothing),
        kind(text),
        kind(list),
        kind(object),
        kind(&number),
    ]
}

const KINDS: [[bool; 5]; 6] = [
    [true, false, false, false, false],
    [false, true, false, false, false],
    [false, false, true, false, false],
    [false, false, false, true, false],
    [false, false, false, false, true],
    [false; 5],
];

#[test]
fn owned_kinds(rt: HostRuntime) -> Result<(), Fail> {
    let alloc = rt.alloc();
    let text = owned::Value::try_make(alloc, "bla")?;
    let list = owned::parsed(alloc, "[true]")?;
    let object = Document::object(alloc)?;
    assert_eq!(rt; kinds(&text, &list, &object), KINDS);
    Ok(())
}

#[test]
fn borrowed_kinds(rt: HostRuntime) -> Result<(), Fail> {
    let alloc = rt.alloc();
    let mut bytes = b"[true]".to_vec(alloc)?;
    let list = borrowed::parsed(&mut bytes)?;
    let object = Document::object(alloc)?;
    assert_eq!(rt; kinds(&Document::from("bla"), &list, &object), KINDS);
    Ok(())
}

/// Whether the document is the same as that.
fn same<K: KeyMade, X: Drop>(value: Document<K>, other: X) -> bool
where
    Document<K>: SameAs<X>,
{
    value.same_as(&other)
}

fn sameness<K: KeyMade>() -> [bool; 7] {
    let nothing: Option<u32> = None;
    [
        Document::<K>::default() == Document::null(),
        same::<K, _>(Document::from(nothing), ()),
        same::<K, _>(Document::from(Some(42_u32)), 42_u32),
        same::<K, _>(Document::from(()), ()),
        same::<K, _>(Document::from(false), false),
        same::<K, _>(Document::from(true), true),
        same::<K, _>(Document::from(-3_i8), -3_i128),
    ]
}

/// Whether documents of a number of each type are the same as that number.
fn numbers<K: KeyMade>() -> [bool; 11] {
    [
        same::<K, _>(Document::from(-3_i8), -3_i8),
        same::<K, _>(Document::from(i16::MIN), i16::MIN),
        same::<K, _>(Document::from(i32::MIN), i32::MIN),
        same::<K, _>(Document::from(i64::MIN), i64::MIN),
        same::<K, _>(Document::from(i128::MIN), i128::MIN),
        same::<K, _>(Document::from(3_u8), 3_u8),
        same::<K, _>(Document::from(u16::MAX), u16::MAX),
        same::<K, _>(Document::from(u32::MAX), u32::MAX),
        same::<K, _>(Document::from(u64::MAX), u64::MAX),
        same::<K, _>(Document::from(u128::MAX), u128::MAX),
        same::<K, _>(Document::from(usize::MAX), usize::MAX),
    ]
}

#[test]
fn scalars(rt: HostRuntime) {
    let owned = (sameness::<String>(), numbers::<String>());
    let borrowed = (sameness::<CowStr<'static>>(), numbers::<CowStr<'static>>());
    assert_eq!(rt; [owned, borrowed], [([true; 7], [true; 11]); 2]);
}

#[test]
fn owned_texts(rt: HostRuntime) -> Result<(), Fail> {
    let alloc = rt.alloc();
    let text = owned::Value::try_make(alloc, "bla")?;
    let string = owned::owned(alloc, "bla")?;
    let told = [
        text.same_as(&"bla"),
        owned::Value::try_make(alloc, CowStr::Borrowed("bla"))? == text,
        owned::Value::try_make(alloc, &string)? == text,
        text.same_as(&string),
        owned::Value::from(string) == text,
    ];
    assert_eq!(rt; told, [true; 5]);
    Ok(())
}

#[test]
fn borrowed_texts(rt: HostRuntime) -> Result<(), Fail> {
    let text = borrowed::Value::from("bla");
    let string = String::from_str(rt.alloc(), "bla")?;
    let told = [
        text.same_as(&"bla"),
        text.same_as(&string),
        borrowed::Value::from(string) == text,
        borrowed::Value::from(CowStr::Borrowed("bla")) == text,
    ];
    assert_eq!(rt; told, [true; 4]);
    Ok(())
}

/// Whether the member `list` is `["a","b"]`, and `map` that map.
fn has_slice_and_map<K: KeyMade>(value: &Document<K>, map: &HashMap<&str, i64>) -> [bool; 2] {
    let pair: [&str; 2] = ["a", "b"];
    [
        value
            .get("list")
            .is_some_and(|list| list.same_as(&&pair[..])),
        value.get("map").is_some_and(|found| found.same_as(map)),
    ]
}

#[test]
fn slices_and_maps(rt: HostRuntime) -> Result<(), Fail> {
    let alloc = rt.alloc();
    let text = "{\"list\":[\"a\",\"b\"],\"map\":{\"a\":1}}";
    let mut bytes = text.as_bytes().to_vec(alloc)?;
    let mut map = HashMap::new(alloc);
    map.insert("a", 1)?;
    let told = [
        has_slice_and_map(&owned::parsed(alloc, text)?, &map),
        has_slice_and_map(&borrowed::parsed(&mut bytes)?, &map),
    ];
    assert_eq!(rt; told, [[true; 2]; 2]);
    Ok(())
}
