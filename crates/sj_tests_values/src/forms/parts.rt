//! Documents that are taken apart and put together.

use sj_document::Document;
use sj_object::KeyOf;
use sj_text_core::Writable;
use std::alloc::Global;
use std::borrow::CowStr;
use std::fmt::Debug;
use std::test::Fail;

/// The prints of three pairs put in turn, and of two items.
fn put_in_turn<'k, K: KeyOf<'k> + Debug>(alloc: Global) -> Result<[String; 2], Fail> {
    let mut pairs = Vec::new(alloc);
    for (key, number) in [("a", 1_u8), ("b", 2), ("a", 3)] {
        pairs.push((K::of(alloc, key)?, Document::from(number)))?;
    }
    let mut items: Vec<Document<K>> = Vec::new(alloc);
    items.push(Document::from(true))?;
    items.push(Document::null())?;
    Ok([
        Document::try_from_pairs(alloc, pairs.into_iter())?.encode(alloc)?,
        Document::try_from_items(alloc, items.into_iter())?.encode(alloc)?,
    ])
}

#[test]
fn pairs_and_items_are_put_in_turn(rt: HostRuntime) -> Result<(), Fail> {
    let alloc = rt.alloc();
    for [pairs, items] in [
        put_in_turn::<String>(alloc)?,
        put_in_turn::<CowStr<'static>>(alloc)?,
    ] {
        assert_eq!(rt; pairs.as_str(), "{\"a\":3,\"b\":2}");
        assert_eq!(rt; items.as_str(), "[true,null]");
    }
    Ok(())
}
