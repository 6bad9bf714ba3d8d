//! The documents, and the texts of their patches.

use sj_owned::{Value, from_str};
use std::alloc::{AllocError, Global};

const RECORDS: usize = 4000;

/// Ten operations, one of each kind among them.
pub const THERE: &str =
    r#"[{"op":"test","path":"/records/100/name","value":"record 100"},{"op":"replace","path":"/records/200/place/x","value":7},{"op":"add","path":"/records/300/tags/-","value":"new"},{"op":"remove","path":"/records/400/name"},{"op":"add","path":"/records/500/seen","value":true},{"op":"copy","from":"/records/600/place","path":"/records/601/home"},{"op":"move","from":"/records/700/name","path":"/records/700/title"},{"op":"add","path":"/records/800","value":{"id":-1}},{"op":"remove","path":"/records/800"},{"op":"replace","path":"/records/900/tags","value":["other"]}]"#;

/// What takes them back.
pub const BACK: &str =
    r#"[{"op":"replace","path":"/records/200/place/x","value":200},{"op":"remove","path":"/records/300/tags/2"},{"op":"add","path":"/records/400/name","value":"record 400"},{"op":"remove","path":"/records/500/seen"},{"op":"remove","path":"/records/601/home"},{"op":"move","from":"/records/700/title","path":"/records/700/name"},{"op":"replace","path":"/records/900/tags","value":["first","second"]},{"op":"test","path":"/records/1000/id","value":1000},{"op":"add","path":"/records/1100/id","value":1100},{"op":"test","path":"/size","value":4000}]"#;

/// One that fails behind the others.
pub const FAILING: &str = r#"{"op":"test","path":"/size","value":0}"#;

/// Ten members, and what takes them out.
pub const MERGE: &str =
    r#"{"a":1,"b":2,"c":{"d":3},"e":[4],"f":"five","g":6,"h":7,"i":8,"j":9,"k":10}"#;

pub const UNMERGE: &str =
    r#"{"a":null,"b":null,"c":null,"e":null,"f":null,"g":null,"h":null,"i":null,"j":null,"k":null}"#;

/// The record with that number.
fn push_record(alloc: Global, text: &mut String, number: usize) -> Result<(), AllocError> {
    let record = format!(in alloc;
        "{{\"id\":{number},\"name\":\"record {number}\",\"tags\":[\"first\",\"second\"],\"place\":{{\"x\":{number},\"y\":-3}},\"note\":\"a text of some length, as it stands in records of a log or of a list of things, with no word that counts\",\"is_open\":true,\"owner\":null}}"
    )?;
    text.push_str(record.as_str())
}

/// The text of a document of 4,000 records, 1 MB.
pub fn text(alloc: Global) -> Result<String, AllocError> {
    let mut text = String::with_capacity(alloc, 1 << 20)?;
    text.push_str("{\"records\":[")?;
    for number in 0..RECORDS {
        if number > 0 {
            text.push_str(",")?;
        }
        push_record(alloc, &mut text, number)?;
    }
    text.push_str("],\"size\":4000}")?;
    Ok(text)
}

/// The document that the text spells.
pub fn document(alloc: Global, text: &str) -> anyhow::Result<Value> {
    Ok(from_str(alloc, text)?)
}
