//! Prints, and what is displayed.

use crate::{borrowed, owned};
use sj_document::Document;
use sj_object::KeyMade;
use sj_text_core::{TryMake, Writable};
use std::alloc::Global;
use std::borrow::CowStr;
use std::test::Fail;

/// Texts and their prints.
const TEXTS: [(&str, &str); 5] = [
    ("foo", "\"foo\""),
    ("\"", "\"\\\"\""),
    ("\"\"", "\"\\\"\\\"\""),
    (r#"a \"long\" test"#, r#""a \\\"long\\\" test""#),
    (
        "a text of more than thirty-two bytes \u{1}\n",
        "\"a text of more than thirty-two bytes \\u0001\\n\"",
    ),
];

/// Whether the value is printed and displayed so.
fn shows<K: KeyMade>(
    alloc: Global,
    value: &Document<K>,
    print: &str,
    shown: &str,
) -> Result<bool, Fail> {
    let is_printed = value.encode(alloc)?.as_str() == print;
    Ok(is_printed && format!(in alloc; "{value}")?.as_str() == shown)
}

/// Whether the value is, and is let go.
fn is_shown<K: KeyMade>(
    alloc: Global,
    value: Document<K>,
    print: &str,
    shown: &str,
) -> Result<bool, Fail> {
    shows(alloc, &value, print, shown)
}

#[test]
fn texts(rt: HostRuntime) -> Result<(), Fail> {
    for &(text, print) in &TEXTS {
        let owned: Document<String> = Document::try_make(rt.alloc(), text)?;
        let borrowed: Document<CowStr<'static>> = Document::from(text);
        let told = [
            is_shown(rt.alloc(), owned, print, text)?,
            is_shown(rt.alloc(), borrowed, print, text)?,
        ];
        assert_eq!(rt; told, [true; 2], "{text}");
    }
    Ok(())
}

fn scalar_prints<K: KeyMade>(alloc: Global) -> Result<[bool; 4], Fail> {
    Ok([
        is_shown::<K>(alloc, Document::null(), "null", "null")?,
        is_shown::<K>(alloc, Document::from(true), "true", "true")?,
        is_shown::<K>(alloc, Document::from(false), "false", "false")?,
        is_shown::<K>(alloc, Document::from(-0_i8), "0", "0")?,
    ])
}

#[test]
fn scalars(rt: HostRuntime) -> Result<(), Fail> {
    let owned = scalar_prints::<String>(rt.alloc())?;
    let borrowed = scalar_prints::<CowStr<'static>>(rt.alloc())?;
    assert_eq!(rt; [owned, borrowed], [[true; 4]; 2]);
    Ok(())
}

const SPACES: &str = " { \"k\" : null } ";

/// A text with a value of each variant, and what `Debug` shows of its document.
const VARIANTS: (&str, &str) = (
    r#"{"a":[null,-1,1,"q\"k"]}"#,
    r#"Object({"a": Array([Static(Null), Static(I64(-1)), Static(U64(1)), String("q\"k")])})"#,
);

#[test]
fn spaces_are_not_printed(rt: HostRuntime) -> Result<(), Fail> {
    let alloc = rt.alloc();
    let mut bytes = SPACES.as_bytes().to_vec(alloc)?;
    let print = "{\"k\":null}";
    let told = [
        is_shown(alloc, owned::parsed(alloc, SPACES)?, print, print)?,
        is_shown(alloc, borrowed::parsed(&mut bytes)?, print, print)?,
    ];
    assert_eq!(rt; told, [true; 2]);
    Ok(())
}

#[test]
fn variants_are_shown(rt: HostRuntime) -> Result<(), Fail> {
    let alloc = rt.alloc();
    let (text, shown) = VARIANTS;
    let mut bytes = text.as_bytes().to_vec(alloc)?;
    let owned = owned::parsed(alloc, text)?;
    let borrowed = borrowed::parsed(&mut bytes)?;
    assert_eq!(rt; format!(in alloc; "{owned:?}")?.as_str(), shown);
    assert_eq!(rt; format!(in alloc; "{borrowed:?}")?.as_str(), shown);
    Ok(())
}
