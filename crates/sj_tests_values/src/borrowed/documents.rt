use super::parsed;
use crate::forms::DOCUMENTS;
use sj_borrowed::*;
use sj_document::OwnedValue;
use std::alloc::Global;
use std::borrow::CowStr;
use std::test::Fail;

/// Whether a copy, an owned document and a static copy are the same.
fn copies(alloc: Global, value: &Value<'_>) -> Result<[bool; 3], Fail> {
    let owned = OwnedValue::try_make(alloc, value.clone()?)?;
    Ok([
        value.clone()? == *value,
        owned.same_as(value),
        value.clone_static(alloc)?.same_as(value),
    ])
}

/// Whether a document that is made static is the same as the owned one, with one print, and the
/// one that is made of the owned one too.
fn is_made_static(alloc: Global, value: Value<'_>) -> Result<[bool; 3], Fail> {
    let owned = OwnedValue::try_make(alloc, value.clone()?)?;
    let print = value.encode(alloc)?;
    let kept = value.into_static(alloc)?;
    Ok([
        kept.same_as(&owned),
        kept.encode(alloc)? == print,
        Value::try_make(alloc, owned)?.same_as(&kept),
    ])
}

/// The copies of the document of a text, and what it is made to.
fn kept(alloc: Global, text: &str) -> Result<[[bool; 3]; 2], Fail> {
    let mut bytes = text.as_bytes().to_vec(alloc)?;
    let value = parsed(&mut bytes)?;
    Ok([copies(alloc, &value)?, is_made_static(alloc, value)?])
}

#[test]
fn copies_keep_the_document(rt: HostRuntime) -> Result<(), Fail> {
    for text in DOCUMENTS {
        assert_eq!(rt; kept(rt.alloc(), text)?, [[true; 3]; 2], "{text}");
    }
    Ok(())
}

/// Whether a print is read as the same document.
fn is_read_back(print: String, value: &Value<'_>) -> Result<bool, Fail> {
    let mut bytes = print.into_bytes();
    Ok(parsed(&mut bytes)?.same_as(value))
}

/// Whether both prints of a text's document are.
fn reads_back(alloc: Global, text: &str) -> Result<[bool; 2], Fail> {
    let mut bytes = text.as_bytes().to_vec(alloc)?;
    let value = parsed(&mut bytes)?;
    Ok([
        is_read_back(value.encode(alloc)?, &value)?,
        is_read_back(value.encode_pp(alloc)?, &value)?,
    ])
}

#[test]
fn encodings_read_back(rt: HostRuntime) -> Result<(), Fail> {
    for text in DOCUMENTS {
        assert_eq!(rt; reads_back(rt.alloc(), text)?, [true; 2], "{text}");
    }
    Ok(())
}

/// The one member.
fn one_member<'a, 'v>(value: &'a Value<'v>) -> Option<(&'a CowStr<'v>, &'a Value<'v>)> {
    let mut members = value.as_object()?.iter();
    let first = members.next();
    if members.next().is_some() {
        return None;
    }
    first
}

/// Whether the one member is `q"k` with `a/bA`, both lent or both owned.
fn has_one_member(value: &Value<'_>, is_lent: bool) -> bool {
    match (one_member(value), is_lent) {
        (Some((CowStr::Borrowed(key), Value::String(CowStr::Borrowed(text)))), true) => {
            *key == "q\"k" && *text == "a/bA"
        }
        (Some((CowStr::Owned(key), Value::String(CowStr::Owned(text)))), false) => {
            key.as_str() == "q\"k" && text.as_str() == "a/bA"
        }
        _ => false,
    }
}

#[test]
fn texts_are_lent_until_they_are_made_static(rt: HostRuntime) -> Result<(), Fail> {
    let alloc = rt.alloc();
    let mut bytes = b"{\"q\\\"k\":\"a\\/b\\u0041\"}".to_vec(alloc)?;
    let value = parsed(&mut bytes)?;
    let is_lent = has_one_member(&value, true) && has_one_member(&value.clone()?, true);
    let is_copied = has_one_member(&value.clone_static(alloc)?, false);
    let kept = value.into_static(alloc)?;
    assert_eq!(rt;
        [is_lent, is_copied, has_one_member(&kept, false)],
        [true; 3]
    );
    assert_eq!(rt; kept.encode(alloc)?.as_str(), "{\"q\\\"k\":\"a/bA\"}");
    Ok(())
}
