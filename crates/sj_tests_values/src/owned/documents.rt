use super::{owned, parsed};
use crate::forms::DOCUMENTS;
use sj_document::{BorrowedValue, Document};
use sj_object::KeyMade;
use sj_owned::*;
use std::alloc::Global;
use std::collections;
use std::test::Fail;

/// Whether the document is made to a borrowed one that is the same, and back.
fn goes_round(alloc: Global, text: &str) -> Result<[bool; 3], Fail> {
    let value = parsed(alloc, text)?;
    let borrowed = BorrowedValue::try_make(alloc, value.clone()?)?;
    Ok([
        value.same_as(&borrowed),
        borrowed.same_as(&value),
        Value::try_make(alloc, borrowed)? == value,
    ])
}

/// Whether both prints are read as the same document.
fn reads_back(alloc: Global, text: &str) -> Result<[bool; 2], Fail> {
    let value = parsed(alloc, text)?;
    let compact = value.encode(alloc)?;
    let pretty = value.encode_pp(alloc)?;
    Ok([
        parsed(alloc, compact.as_str())? == value,
        parsed(alloc, pretty.as_str())? == value,
    ])
}

#[test]
fn owned_and_borrowed_are_made_of_each_other(rt: HostRuntime) -> Result<(), Fail> {
    for text in DOCUMENTS {
        assert_eq!(rt; goes_round(rt.alloc(), text)?, [true; 3], "{text}");
    }
    Ok(())
}

/// The kinds of the first two items.
fn carriers<K: KeyMade>(pair: &Document<K>) -> [Option<ValueType>; 2] {
    [
        pair.get_idx(0).map(|item| item.value_type()),
        pair.get_idx(1).map(|item| item.value_type()),
    ]
}

#[test]
fn carriers_are_kept(rt: HostRuntime) -> Result<(), Fail> {
    let alloc = rt.alloc();
    let mut bytes = *b"[-5,5]";
    let before = sj_borrowed::to_value(alloc, &mut bytes)?;
    let owned = Value::try_make(alloc, before.clone()?)?;
    let back = BorrowedValue::try_make(alloc, owned.clone()?)?;
    let told = [carriers(&before), carriers(&owned), carriers(&back)];
    assert_eq!(rt; told, [[Some(ValueType::I64), Some(ValueType::U64)]; 3]);
    Ok(())
}

#[test]
fn encodings_read_back(rt: HostRuntime) -> Result<(), Fail> {
    for text in DOCUMENTS {
        assert_eq!(rt; reads_back(rt.alloc(), text)?, [true; 2], "{text}");
    }
    Ok(())
}

/// So many arrays inside one another.
fn nested(alloc: Global, count: usize) -> Result<Value, Fail> {
    let mut value = Value::array(alloc)?;
    for _ in 1..count {
        let mut outer = Value::array(alloc)?;
        outer.push(value)?;
        value = outer;
    }
    Ok(value)
}

/// An array of 1025 arrays inside one another is printed, and its text is not read.
#[test]
fn deeper_than_the_reader(rt: HostRuntime) -> Result<(), Fail> {
    let alloc = rt.alloc();
    let mut text = nested(alloc, 1025)?.encode(alloc)?.into_bytes();
    assert_eq!(rt; text.len(), 2050);
    let refused = to_value(alloc, text.as_mut_slice());
    assert!(rt; matches!(refused, Err(ErrorKind::TooDeep)));
    Ok(())
}

#[test]
fn made_of_lists(rt: HostRuntime) -> Result<(), Fail> {
    let alloc = rt.alloc();
    let value = Value::try_make(alloc, vec![in alloc; true]?)?;
    assert_eq!(rt; value.encode(alloc)?.as_str(), "[true]");
    assert_eq!(rt; value.value_type(), ValueType::Array);
    let numbers = vec![in alloc; Some(1_u8), None, Some(3)]?;
    let value = Value::try_make(alloc, numbers)?;
    assert_eq!(rt; value.encode(alloc)?.as_str(), "[1,null,3]");
    Ok(())
}

#[test]
fn made_of_maps(rt: HostRuntime) -> Result<(), Fail> {
    let alloc = rt.alloc();
    let mut map = collections::HashMap::new(alloc);
    for (key, number) in [("b", 1_u8), ("a", 2), ("", 3), ("\u{e9}", 4), ("aa", 5)] {
        map.insert(owned(alloc, key)?, Value::from(number))?;
    }
    let value = Value::try_make(alloc, map)?;
    assert_eq!(rt;
        value.encode(alloc)?.as_str(),
        "{\"\":3,\"a\":2,\"aa\":5,\"b\":1,\"\u{e9}\":4}"
    );
    Ok(())
}
