//! What values and keys are made from without memory.

use crate::scalars::{is_nothing, is_seven, is_text, is_true};
use refusals_common::{Fault, say, say_call};
use sj_borrowed::KnownKey;
use sj_document::{BorrowedValue, Document, OwnedValue};
use sj_lazy::Value;
use sj_object::{KeyHasher, KeyMade, KeyOf, KeyText, ObjectHasher};
use sj_text_core::{SameAs, StaticNode, TypedValue};
use std::alloc::{AllocError, Global};
use std::borrow::CowStr;

/// Whether the values that are made of the scalars of each type are these.
macro_rules! made_of_scalars {
    ($($of:tt)+) => {
        is_seven(&$($of)+::from(7_u8))
            && is_seven(&$($of)+::from(7_u16))
            && is_seven(&$($of)+::from(7_u32))
            && is_seven(&$($of)+::from(7_u64))
            && is_seven(&$($of)+::from(7_usize))
            && is_seven(&$($of)+::from(StaticNode::U64(7)))
            && $($of)+::from(7_i8).same_as(&7_u8)
            && $($of)+::from(7_i16).same_as(&7_u8)
            && $($of)+::from(7_i32).same_as(&7_u8)
            && $($of)+::from(7_i64).same_as(&7_u8)
            && $($of)+::from(7_i128).same_as(&7_u8)
            && $($of)+::from(7_u128).same_as(&7_u8)
            && is_true(&$($of)+::from(true))
            && is_true(&$($of)+::from(Some(true)))
            && is_nothing(&$($of)+::from(()))
            && is_nothing(&$($of)+::null())
            && is_nothing(&$($of)+::default())
    };
}

fn is_document_made<K: KeyMade + Drop>() -> bool {
    made_of_scalars!(Document::<K>)
}

type Lazy = Value<'static, 'static, 'static>;

fn is_lazy_made() -> bool {
    made_of_scalars!(Lazy)
}

/// Texts that own their bytes.
#[derive(Drop)]
struct Texts {
    kept: String,
    first: String,
    second: String,
    third: String,
    fourth: String,
}

/// Whether values are made of texts, and documents become lazy values.
fn is_text_made(alloc: Global, texts: Texts) -> bool {
    let Texts {
        kept,
        first,
        second,
        third,
        fourth,
    } = texts;
    is_text(&OwnedValue::from(first), &kept)
        && is_text(&BorrowedValue::from(second), &kept)
        && is_text(&BorrowedValue::from("s"), &kept)
        && is_text(&BorrowedValue::from(CowStr::Borrowed("s")), &kept)
        && is_text(&Lazy::from(third), &kept)
        && is_text(&Lazy::from("s"), &kept)
        && is_text(&Lazy::from(CowStr::Borrowed("s")), &kept)
        && Lazy::from(BorrowedValue::null()).is_value()
        && is_key_made(alloc, &kept, fourth)
}

/// Whether a key was made of the text `s`.
fn is_key<K: KeyText + Drop>(made: Result<K, AllocError>) -> bool {
    match made {
        Ok(key) => key.text() == "s",
        Err(AllocError) => false,
    }
}

/// Whether keys are made of each kind of text.
fn is_key_made(alloc: Global, kept: &String, given: String) -> bool {
    let plain: Result<&'static str, AllocError> = KeyOf::of(alloc, "s");
    let lent: Result<CowStr<'static>, AllocError> = KeyOf::of(alloc, "s");
    let key = KnownKey::from(kept);
    key == KnownKey::from("s")
        && key == KnownKey::from(CowStr::Borrowed("s"))
        && key == KnownKey::from(given)
        && key.key().text() == "s"
        && key.clone().is_ok()
        && is_key(plain)
        && is_key(lent)
        && ObjectHasher::default().hash_text("Aa") == 2112
}

/// Makes a value or a key of each type between the first two writes.
pub fn make(rt: &(impl Print + AllocGlobal), of: &str) -> Result<(), Fault> {
    let alloc = rt.alloc();
    let texts = Texts {
        kept: String::from_str(alloc, "s")?,
        first: String::from_str(alloc, "s")?,
        second: String::from_str(alloc, "s")?,
        third: String::from_str(alloc, "s")?,
        fourth: String::from_str(alloc, "s")?,
    };
    say_call(rt)?;
    let is_made = match of {
        "owned" => is_document_made::<String>(),
        "borrowed" => is_document_made::<CowStr<'static>>(),
        "lazy" => is_lazy_made(),
        "texts" => is_text_made(alloc, texts),
        _ => return Err(Fault::Usage),
    };
    say(rt, if is_made { "made\n" } else { "NOT MADE\n" })
}

/// Copies a key that owns its text twice, the first time between the first two writes.
pub fn copy_key(rt: &(impl Print + AllocGlobal)) -> Result<(), Fault> {
    let key = KnownKey::from(String::from_str(rt.alloc(), "s")?);
    say_call(rt)?;
    say_copy(rt, &key)?;
    say(rt, "again ")?;
    say_copy(rt, &key)
}

fn say_copy(rt: &impl Print, key: &KnownKey<'_>) -> Result<(), Fault> {
    match key.clone() {
        Ok(copy) if copy == *key => say(rt, "copied\n"),
        Ok(_) => say(rt, "ANOTHER KEY\n"),
        Err(AllocError) => say(rt, "AllocError\n"),
    }
}
