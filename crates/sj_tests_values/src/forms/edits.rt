//! Edits of objects, of arrays and of what is neither.

use sj_document::Document;
use sj_object::{KeyMade, KeyOf};
use sj_text_core::{
    AccessError, Refused, TryMake, ValueAsScalar, ValueObjectAccessAsScalar, Writable,
};
use std::alloc::Global;
use std::borrow::CowStr;
use std::fmt::Debug;
use std::test::Fail;

/// The number's document, where there is one.
fn document<K: KeyMade>(number: Option<u8>) -> Option<Document<K>> {
    match number {
        Some(number) => Some(Document::from(number)),
        None => None,
    }
}

/// Whether an insert of the number answers what stood there before.
fn puts<'k, K: KeyOf<'k> + Debug>(
    alloc: Global,
    value: &mut Document<K>,
    number: u8,
    before: Option<u8>,
) -> Result<bool, Fail> {
    let answer = value.insert(K::of(alloc, "key")?, Document::from(number))?;
    Ok(answer == document(before))
}

/// Whether `try_insert` of a number answers that none stood there.
fn tries<'k, K: KeyOf<'k> + Debug>(
    alloc: Global,
    value: &mut Document<K>,
    key: &'k str,
    number: u8,
) -> Result<bool, Fail> {
    let answer = value.try_insert(K::of(alloc, key)?, Document::from(number))?;
    Ok(answer == None)
}

/// Whether the removal answers this.
fn removes<K: KeyMade>(value: &mut Document<K>, key: &str, gone: Option<u8>) -> bool {
    value.remove(key) == Ok(document(gone))
}

/// Whether the last item is taken off, or none.
fn pops<K: KeyMade>(value: &mut Document<K>, gone: Option<u8>) -> bool {
    value.pop() == Ok(document(gone))
}

/// Pushes a number.
fn pushes<K: KeyMade + Debug>(value: &mut Document<K>, number: u8) -> Result<(), Fail> {
    Ok(value.push(Document::from(number))?)
}

fn object_answers<'k, K: KeyOf<'k> + Debug>(alloc: Global) -> Result<[bool; 8], Fail> {
    let mut value: Document<K> = Document::object(alloc)?;
    let is_new = puts(alloc, &mut value, 1, None)?;
    let is_replaced = puts(alloc, &mut value, 2, Some(1))?;
    let is_there = value.contains_key("key");
    if is_there {
        value["key"] = Document::from(3_u8);
    }
    let is_read = value.get_u8("key") == Some(3);
    let is_tried = tries(alloc, &mut value, "more", 4)?;
    Ok([
        is_new,
        is_replaced,
        is_there,
        is_read,
        is_tried,
        removes(&mut value, "more", Some(4)),
        removes(&mut value, "key", Some(3)),
        removes(&mut value, "key", None),
    ])
}

#[test]
fn objects(rt: HostRuntime) -> Result<(), Fail> {
    assert_eq!(rt; object_answers::<String>(rt.alloc())?, [true; 8]);
    assert_eq!(rt; object_answers::<CowStr<'static>>(rt.alloc())?, [true; 8]);
    Ok(())
}

fn array_answers<K: KeyMade + Debug>(alloc: Global) -> Result<[bool; 6], Fail> {
    let mut value: Document<K> = Document::array_with_capacity(alloc, 2)?;
    pushes(&mut value, 1)?;
    pushes(&mut value, 2)?;
    let is_there = value.get_idx(0).is_some();
    if is_there {
        value[0] = Document::from(0_u8);
    }
    let is_next = value.get_idx(1).is_some();
    if is_next {
        value[1] = Document::from(1_u8);
    }
    let is_lent = value
        .get_idx_mut(1)
        .is_some_and(|item| *item == Document::from(1_u8));
    Ok([
        is_there,
        is_next,
        is_lent,
        pops(&mut value, Some(1)),
        pops(&mut value, Some(0)),
        pops(&mut value, None),
    ])
}

#[test]
fn arrays(rt: HostRuntime) -> Result<(), Fail> {
    assert_eq!(rt; array_answers::<String>(rt.alloc())?, [true; 6]);
    assert_eq!(rt; array_answers::<CowStr<'static>>(rt.alloc())?, [true; 6]);
    Ok(())
}

/// Whether the answer is that refusal, with the number 1.
fn hands_back<K: KeyMade, O: Drop>(
    answer: Result<O, Refused<AccessError, Document<K>>>,
    why: AccessError,
) -> bool {
    match answer {
        Ok(_) => false,
        Err(refused) => refused.why == why && refused.value == Document::from(1_u8),
    }
}

fn null_answers<'k, K: KeyOf<'k> + Debug>(alloc: Global) -> Result<[bool; 7], Fail> {
    let mut value: Document<K> = Document::null();
    let key = K::of(alloc, "key")?;
    Ok([
        hands_back(
            value.insert(key, Document::from(1_u8)),
            AccessError::NotAnObject,
        ),
        hands_back(value.push(Document::from(1_u8)), AccessError::NotAnArray),
        tries(alloc, &mut value, "key", 1)?,
        value.remove("key") == Err(AccessError::NotAnObject),
        value.pop() == Err(AccessError::NotAnArray),
        value == Document::default(),
        value.is_null(),
    ])
}

#[test]
fn null_is_refused(rt: HostRuntime) -> Result<(), Fail> {
    assert_eq!(rt; null_answers::<String>(rt.alloc())?, [true; 7]);
    assert_eq!(rt; null_answers::<CowStr<'static>>(rt.alloc())?, [true; 7]);
    Ok(())
}

/// `{"key":[{}]}`, written from the outside in.
fn outer<'k, K: KeyOf<'k> + Debug>(alloc: Global) -> Result<Document<K>, Fail> {
    let mut value: Document<K> = Document::object_with_capacity(alloc, 1)?;
    let items = Document::array(alloc)?;
    value.insert(K::of(alloc, "key")?, items)?;
    let items = value.get_mut("key").ok_or("no such key")?;
    items.push(Document::object(alloc)?)?;
    Ok(value)
}

/// Whether the first item under `key` has the member `other`.
fn has_other<K: KeyMade>(value: &Document<K>) -> bool {
    if !value.contains_key("key") {
        return false;
    }
    let items = &value["key"];
    items.get_idx(0).is_some() && items[0].get_str("other") == Some("value")
}

/// Its print with `{"other":..}` inside, put there and found by indexing.
fn nested<'k, K: KeyOf<'k> + Debug>(
    alloc: Global,
    text: Document<K>,
) -> Result<(bool, String), Fail> {
    let mut value: Document<K> = outer(alloc)?;
    value.get("key").ok_or("no such key")?;
    let items = &mut value["key"];
    items.get_idx(0).ok_or("no such item")?;
    items[0].insert(K::of(alloc, "other")?, text)?;
    Ok((has_other(&value), value.encode(alloc)?))
}

#[test]
fn nested_writes(rt: HostRuntime) -> Result<(), Fail> {
    let alloc = rt.alloc();
    let told = [
        nested::<String>(alloc, Document::try_make(alloc, "value")?)?,
        nested::<CowStr<'static>>(alloc, Document::from("value"))?,
    ];
    for (is_found, print) in told {
        assert!(rt; is_found);
        assert_eq!(rt; print.as_str(), "{\"key\":[{\"other\":\"value\"}]}");
    }
    Ok(())
}

/// Pushes the text and then 1, and pops both.
fn array_of_two<K: KeyMade + Debug>(
    alloc: Global,
    text: Document<K>,
    same: Document<K>,
) -> Result<[bool; 3], Fail> {
    let mut value: Document<K> = Document::array(alloc)?;
    value.push(text)?;
    pushes(&mut value, 1)?;
    Ok([
        value.pop() == Ok(Some(Document::from(1_u64))),
        value.pop() == Ok(Some(same)),
        pops(&mut value, None),
    ])
}

#[test]
fn texts_are_pushed(rt: HostRuntime) -> Result<(), Fail> {
    let alloc = rt.alloc();
    let owned = array_of_two::<String>(
        alloc,
        Document::try_make(alloc, "zero")?,
        Document::try_make(alloc, "zero")?,
    )?;
    let borrowed = array_of_two::<CowStr<'static>>(
        alloc,
        Document::from("zero"),
        Document::from("zero"),
    )?;
    assert_eq!(rt; [owned, borrowed], [[true; 3]; 2]);
    Ok(())
}
