//! Documents of many levels: printed, displayed and let go.

use sj_document::{Document, OwnedValue};
use sj_text_core::{StaticNode, Writable};
use std::alloc::{AllocError, Global};
use std::test::Fail;

/// The value in an array of two items.
fn in_array(alloc: Global, value: OwnedValue) -> Result<OwnedValue, Fail> {
    let mut outer = Document::array(alloc)?;
    outer.push(value)?;
    outer.push(Document::Static(StaticNode::Null))?;
    Ok(outer)
}

/// The value in an object of two members.
fn in_object(alloc: Global, value: OwnedValue) -> Result<OwnedValue, Fail> {
    let mut outer = Document::object(alloc)?;
    outer.insert(String::from_str(alloc, "a")?, value)?;
    let null = Document::Static(StaticNode::Null);
    outer.insert(String::from_str(alloc, "b")?, null)?;
    Ok(outer)
}

/// So many arrays and objects in turns, each in the one behind it; the outermost is an object.
fn chain(alloc: Global, pairs: u16) -> Result<OwnedValue, Fail> {
    let mut value = Document::Static(StaticNode::U64(1));
    for _ in 0..pairs {
        value = in_object(alloc, in_array(alloc, value)?)?;
    }
    Ok(value)
}

/// A line feed and two spaces for each level.
fn line(text: &mut String, level: usize) -> Result<(), AllocError> {
    text.push('\n')?;
    for _ in 0..level {
        text.push_str("  ")?;
    }
    Ok(())
}

/// The print of the chain (RFC 8259), written from its front to its end.
fn compact(alloc: Global, pairs: u16) -> Result<String, AllocError> {
    let mut text = String::new(alloc);
    for _ in 0..pairs {
        text.push_str("{\"a\":[")?;
    }
    text.push('1')?;
    for _ in 0..pairs {
        text.push_str(",null],\"b\":null}")?;
    }
    Ok(text)
}

/// The same with lines, as Python's `json.dumps(value, indent=2)` writes it.
fn pretty(alloc: Global, pairs: u16) -> Result<String, AllocError> {
    let mut text = String::new(alloc);
    for pair in 0..pairs {
        let level = 2 * usize::from(pair);
        text.push('{')?;
        line(&mut text, level + 1)?;
        text.push_str("\"a\": [")?;
        line(&mut text, level + 2)?;
    }
    text.push('1')?;
    for pair in (0..pairs).rev() {
        let level = 2 * usize::from(pair);
        text.push(',')?;
        line(&mut text, level + 2)?;
        text.push_str("null")?;
        line(&mut text, level + 1)?;
        text.push_str("],")?;
        line(&mut text, level + 1)?;
        text.push_str("\"b\": null")?;
        line(&mut text, level)?;
        text.push('}')?;
    }
    Ok(text)
}

#[test]
fn prints_at_every_depth(rt: HostRuntime) -> Result<(), Fail> {
    let alloc = rt.alloc();
    for pairs in [1, 63, 64, 65, 128, 700] {
        let value = chain(alloc, pairs)?;
        let print = compact(alloc, pairs)?;
        assert!(rt; value.encode(alloc)?.as_str() == print.as_str(), "{pairs}");
        assert!(rt;
            format!(in alloc; "{value}")?.as_str() == print.as_str(),
            "{pairs}"
        );
        assert!(rt;
            value.encode_pp(alloc)?.as_str() == pretty(alloc, pairs)?.as_str(),
            "{pairs}"
        );
    }
    Ok(())
}
