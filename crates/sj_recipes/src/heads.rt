//! The examples at the heads of the libraries.

use sj_lazy::to_tape;
use sj_lines::Lines;
use sj_object::HashMap;
use sj_owned::OwnedValue;
use sj_owned::prelude::*;
use sj_path::{pointer, position};
use sj_pieces::Pieces;
use sj_print::{BaseGenerator, DumpGenerator};
use sj_stream::{LineReader, Stream};
use sj_text_core::{Repeats, StaticNode};
use std::borrow::CowStr;
use std::io::BufReader;

/// Of `sj_text_core` and `sj_print`.
pub fn scalars(rt: &(impl Print + AllocGlobal)) -> anyhow::Result<()> {
    let alloc = rt.alloc();
    let number = StaticNode::U64(300);
    println!(rt; "{:?} {:?}", number.as_u16(), number.as_u8())?;
    println!(rt; "{}", number == StaticNode::I64(300))?;
    let mut dump = DumpGenerator::new(alloc);
    dump.write("[")?;
    dump.write_string("a\n")?;
    dump.write_min(", ", ",")?;
    dump.write_static(StaticNode::I64(-1))?;
    dump.write("]")?;
    println!(rt; "{}", dump.consume())?;
    Ok(())
}

/// Of `sj_tape`.
pub fn tapes(rt: &(impl Print + AllocGlobal)) -> anyhow::Result<()> {
    let alloc = rt.alloc();
    let mut text = br#"{"the_answer": 42, "texts": ["a", "b"]}"#.to_vec(alloc)?;
    let bytes = text.as_mut_slice();
    let tape = to_tape(alloc, bytes)?;
    let value = tape.as_value();
    println!(rt; "{:?}", value.get_u64("the_answer"))?;
    println!(rt; "{}", value.try_get("does_not_exist")?.is_none())?;
    match value.try_get_str("the_answer") {
        Ok(_) => println!(rt; "a text")?,
        Err(fault) => println!(rt; "{fault}")?,
    }
    let text = value.get("texts").and_then(|v| v.get_idx(1));
    println!(rt; "{}", text.is_some_and(|v| v.is_str()))?;
    println!(rt; "{}", value.encode(alloc)?)?;
    Ok(())
}

/// Of `sj_object`.
pub fn maps(rt: &(impl Print + AllocGlobal)) -> anyhow::Result<()> {
    let alloc = rt.alloc();
    let mut map = HashMap::new(alloc);
    map.insert(String::from_str(alloc, "a")?, 1)?;
    map.insert(String::from_str(alloc, "b")?, 2)?;
    println!(rt; "{:?}", map.insert(String::from_str(alloc, "a")?, 3)?)?;
    println!(rt; "{:?} {map:?}", map.remove("a"))?;
    Ok(())
}

/// Of `sj_owned`.
pub fn owned_documents(rt: &(impl Print + AllocGlobal)) -> anyhow::Result<()> {
    use sj_owned::Value;
    let alloc = rt.alloc();
    let mut bytes = b"{\"some\":[\"key\",\"value\",2],\"some\":3}".to_vec(alloc)?;
    let mut value = sj_owned::to_value(alloc, bytes.as_mut_slice())?;
    println!(rt; "{:?}", value.get("some").and_then(|some| some.get_idx(2)))?;
    value.insert(String::from_str(alloc, "n")?, Value::from(true))?;
    if let Some(some) = value.get_mut("some") {
        some.push(Value::null())?;
    }
    println!(rt; "{}", value.remove("n")? == Some(Value::from(true)))?;
    println!(rt; "{value}")?;
    Ok(())
}

/// Of `sj_document`.
pub fn documents(rt: &(impl Print + AllocGlobal)) -> anyhow::Result<()> {
    let alloc = rt.alloc();
    let mut value = OwnedValue::object(alloc)?;
    value.insert(String::from_str(alloc, "n")?, OwnedValue::from(1_u8))?;
    println!(rt; "{:?}", value.get_u8("n"))?;
    match value.push(OwnedValue::null()) {
        Ok(()) => println!(rt; "pushed")?,
        Err(refused) => println!(rt; "{refused}: {}", refused.value)?,
    }
    Ok(())
}

/// Of `sj_borrowed`.
pub fn borrowed_documents(rt: &(impl Print + AllocGlobal)) -> anyhow::Result<()> {
    use sj_borrowed::Value;
    let alloc = rt.alloc();
    let mut bytes = b"{\"some\":[\"key\",\"value\",2],\"some\":3}".to_vec(alloc)?;
    let mut value = sj_borrowed::to_value(alloc, bytes.as_mut_slice())?;
    value.insert(CowStr::Borrowed("n"), Value::from("lent"))?;
    println!(rt; "{}", value.contains_key("some"))?;
    if let Some(lent) = value.get_str("n") {
        println!(rt; "{lent}")?;
    }
    let copy = value.clone_static(alloc)?;
    match value.pop() {
        Ok(_) => println!(rt; "an item")?,
        Err(fault) => println!(rt; "{fault}")?,
    }
    println!(rt; "{copy}")?;
    Ok(())
}

/// Of `sj_lazy`.
pub fn lazy_values(rt: &(impl Print + AllocGlobal)) -> anyhow::Result<()> {
    use sj_lazy::{BorrowedValue, Value};
    let alloc = rt.alloc();
    let mut text = br#"{"key": "value", "snot": 42}"#.to_vec(alloc)?;
    let tape = to_tape(alloc, text.as_mut_slice())?;
    let mut value = Value::from_tape(tape.as_value());
    println!(rt; "{:?}", value.get_str("key"))?;
    value.insert(alloc, CowStr::Borrowed("new"), BorrowedValue::from(42_u8))?;
    println!(rt; "{}", value.encode(alloc)?)?;
    Ok(())
}

/// Of `sj_pointer` and `sj_path`.
pub fn pointers(rt: &(impl Print + AllocGlobal)) -> anyhow::Result<()> {
    use sj_path::owned;
    let alloc = rt.alloc();
    let key = pointer(alloc, "/a~1b")?;
    println!(rt; "{:?} {:?}", key.tokens(), position("90"))?;
    println!(rt; "{key}")?;
    println!(rt; "{:?} {:?}", position("01"), pointer(alloc, "/a~2").err())?;
    let mut bytes = b"{\"foo\":[\"bar\",\"baz\"],\"m~n\":8}".to_vec(alloc)?;
    let mut value = sj_owned::to_value(alloc, bytes.as_mut_slice())?;
    let item = pointer(alloc, "/foo/1")?;
    println!(rt;
        "{}",
        owned::find(&value, &item).is_some_and(|found| found.is_str())
    )?;
    let key = pointer(alloc, "/m~0n")?;
    println!(rt;
        "{}",
        owned::replace(&mut value, &key, owned::Value::from(9_u8)).is_ok()
    )?;
    println!(rt; "{value}")?;
    Ok(())
}

/// Of `sj_lines`.
pub fn lines(rt: &(impl Print + AllocGlobal)) -> anyhow::Result<()> {
    let alloc = rt.alloc();
    let mut input = b"[1]\r\n\n[2]".to_vec(alloc)?;
    for line in Lines::new(&mut input) {
        println!(rt; "line {}: {} bytes", line.number, line.text.len())?;
    }
    Ok(())
}

/// Of `sj_stream`.
pub fn streams(rt: &(impl Print + AllocGlobal)) -> anyhow::Result<()> {
    let alloc = rt.alloc();
    let mut input = b"{\"id\":1}\n{\"id\":}\n{\"id\":3}\n".to_vec(alloc)?;
    let mut stream = Stream::new(alloc, &mut input);
    while let Some(step) = stream.advance() {
        match step {
            Ok(line) => {
                let id = stream
                    .value(Repeats::First)
                    .and_then(|document| document.get_u64("id"));
                println!(rt; "{line}: {id:?}")?;
            }
            Err(unread) => println!(rt; "{unread}")?,
        }
    }
    Ok(())
}

/// Of `sj_stream::LineReader`.
pub fn line_readers(rt: &(impl Print + AllocGlobal)) -> anyhow::Result<()> {
    let alloc = rt.alloc();
    let mut input = b"{\"id\":1}\n{\"id\":}\n{\"id\":3}\n".to_vec(alloc)?;
    let mut reader = LineReader::new(alloc).with_places();
    for line in Lines::new(&mut input) {
        match reader.read(line) {
            Ok(number) => {
                let id = reader
                    .value(Repeats::First)
                    .and_then(|document| document.get_u64("id"));
                println!(rt; "{number}: {id:?}")?;
            }
            Err(unread) => println!(rt; "{unread}")?,
        }
    }
    Ok(())
}

/// Of `sj_pieces`. Behind a recipe that reads the same input to its end, it prints nothing.
pub fn pieces(rt: &(impl Input + Print + AllocGlobal)) -> anyhow::Result<()> {
    let alloc = rt.alloc();
    let mut pieces = Pieces::new(BufReader::new(alloc, rt.reader())?);
    let mut piece = Vec::new(alloc);
    for _ in 0..u64::MAX {
        if !pieces.next_piece(&mut piece)? {
            break;
        }
        for line in pieces.lines(&mut piece) {
            println!(rt; "line {}: {} bytes", line.number, line.text.len())?;
        }
    }
    Ok(())
}
