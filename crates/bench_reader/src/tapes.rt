//! Times of look-ups, of a walk and of a print on tapes, beside the toolchain's `json` tape.

use crate::records::records_of;
use json::{Element, Node, Scratch, Tape, Writer, is_number};
use sj_tape::to_tape;
use sj_text_core::Writable;
use std::alloc::{AllocError, Global};
use std::time::{CpuClock, Duration};
use std::{io, str};

const MEMBERS: u64 = 1000;

const TASKS: [&str; 4] = ["get, a key", "get_idx", "walk", "print"];

fn nanos(before: Duration, after: Duration) -> u64 {
    u64::try_from(after.saturating_sub(before).as_nanos()).unwrap_or(u64::MAX)
}

/// The key of a member.
fn key_of(alloc: Global, number: u64) -> Result<String, AllocError> {
    format!(in alloc; "member number {number}")
}

/// An object of `MEMBERS` members.
fn wide_object(alloc: Global) -> Result<Vec<u8>, AllocError> {
    let mut out = Vec::new(alloc);
    for number in 0..MEMBERS {
        let begin = if number == 0 { "{" } else { "," };
        let member = format!(in alloc; "{begin}\"member number {number}\":{number}")?;
        out.extend_from_slice(member.as_str().as_bytes())?;
    }
    out.push(b'}')?;
    Ok(out)
}

/// The keys in an order without a pattern.
fn keys(alloc: Global) -> Result<Vec<String>, AllocError> {
    let mut keys = Vec::new(alloc);
    for i in 0..MEMBERS {
        keys.push(key_of(alloc, (i * 617) % MEMBERS)?)?;
    }
    Ok(keys)
}

/// The bytes of a part that is a text, or of the texts in an array.
fn text_bytes(part: sj_tape::Value<'_, '_>) -> usize {
    if let Some(text) = part.into_string() {
        return text.len();
    }
    let mut seen = 0usize;
    if let Some(items) = part.as_array() {
        for item in items.iter() {
            if let Some(text) = item.into_string() {
                seen = seen.wrapping_add(text.len());
            }
        }
    }
    seen
}

/// The bytes of the keys and texts that a walk over all parts of the records sees.
fn walk(value: sj_tape::Value<'_, '_>) -> usize {
    let mut seen = 0usize;
    if let Some(records) = value.as_array() {
        for record in records.iter() {
            if let Some(members) = record.as_object() {
                for (key, member) in members.iter() {
                    seen = seen.wrapping_add(key.len());
                    seen = seen.wrapping_add(text_bytes(member));
                }
            }
        }
    }
    seen
}

/// The bytes of a part of the other tape that is a text, or of the texts in an array.
fn text_bytes_json(part: &Element<'_, '_>, len: usize) -> usize {
    if let Some(text) = part.as_str() {
        return text.len();
    }
    let Some(mut items) = part.items() else {
        return 0;
    };
    let mut seen = 0usize;
    for _ in 0..len {
        let Some(item) = items.next() else {
            break;
        };
        if let Some(text) = item.as_str() {
            seen = seen.wrapping_add(text.len());
        }
    }
    seen
}

/// The same on the other tape.
fn walk_json(tape: &Tape<'_>) -> usize {
    let mut seen = 0usize;
    let Some(mut records) = tape.root().items() else {
        return 0;
    };
    for _ in 0..tape.len() {
        let Some(record) = records.next() else {
            break;
        };
        let Some(mut members) = record.members() else {
            break;
        };
        for _ in 0..tape.len() {
            let Some((key, member)) = members.next() else {
                break;
            };
            seen = seen.wrapping_add(key.len());
            seen = seen.wrapping_add(text_bytes_json(&member, tape.len()));
        }
    }
    seen
}

/// The compact print of the other tape.
fn print_json(alloc: Global, tape: &Tape<'_>) -> Result<Vec<u8>, AllocError> {
    let mut writer = Writer::new(Vec::new(alloc));
    for node in tape.nodes() {
        match *node {
            Node::Object(_) => writer.begin_object()?,
            Node::EndObject => writer.end_object()?,
            Node::Array(_) => writer.begin_array()?,
            Node::EndArray => writer.end_array()?,
            Node::Key(key) => writer.key(key)?,
            Node::String(text) => writer.string(text)?,
            Node::Number(text) => {
                if is_number(text) {
                    writer.number(text)?;
                }
            }
            Node::Bool(truth) => writer.boolean(truth)?,
            Node::Null => writer.null()?,
        }
    }
    Ok(writer.into_inner())
}

/// The times of look-ups by each key and at each place, of a walk and of a print; None where a
/// reading was refused or an answer is missing.
fn ours(
    rt: &HostRuntime,
    wide: &Vec<u8>,
    records: &Vec<u8>,
    keys: &Vec<String>,
) -> io::Result<Option<[u64; 4]>> {
    let alloc = rt.alloc();
    let mut wide = wide.clone()?;
    let mut records = records.clone()?;
    let Ok(object) = to_tape(alloc, wide.as_mut_slice()) else {
        return Ok(None);
    };
    let Ok(array) = to_tape(alloc, records.as_mut_slice()) else {
        return Ok(None);
    };
    let (members, items) = (object.as_value(), array.as_value());
    let mut found = 0usize;
    let start = rt.thread_cpu_time()?;
    for key in keys {
        if members.get(key.as_str()).is_some() {
            found = found.wrapping_add(1);
        }
    }
    let by_key = rt.thread_cpu_time()?;
    for place in 0..keys.len() {
        if let Some(record) = items.get_idx(place) {
            found = found.wrapping_add(usize::from(record.as_object().is_some()));
        }
    }
    let by_place = rt.thread_cpu_time()?;
    let seen = walk(items);
    let walked = rt.thread_cpu_time()?;
    let is_printed = items.encode(alloc).is_ok();
    let printed = rt.thread_cpu_time()?;
    if found != keys.len().wrapping_mul(2) || seen == 0 || !is_printed {
        return Ok(None);
    }
    Ok(Some([
        nanos(start, by_key),
        nanos(by_key, by_place),
        nanos(by_place, walked),
        nanos(walked, printed),
    ]))
}

/// The same on the other tape.
fn by_json(
    rt: &HostRuntime,
    wide: &Vec<u8>,
    records: &Vec<u8>,
    keys: &Vec<String>,
) -> io::Result<Option<[u64; 4]>> {
    let alloc = rt.alloc();
    let (Ok(wide), Ok(records)) = (str::from_utf8(wide), str::from_utf8(records)) else {
        return Ok(None);
    };
    let mut first = Scratch::new(alloc);
    let mut second = Scratch::new(alloc);
    let Ok(object) = Tape::parse(wide, &mut first, Vec::new(alloc)) else {
        return Ok(None);
    };
    let Ok(array) = Tape::parse(records, &mut second, Vec::new(alloc)) else {
        return Ok(None);
    };
    let mut found = 0usize;
    let start = rt.thread_cpu_time()?;
    for key in keys {
        if object.root().get(key.as_str()).is_some() {
            found = found.wrapping_add(1);
        }
    }
    let by_key = rt.thread_cpu_time()?;
    for place in 0..keys.len() {
        if let Some(record) = array.root().at(place) {
            found = found.wrapping_add(usize::from(record.members().is_some()));
        }
    }
    let by_place = rt.thread_cpu_time()?;
    let seen = walk_json(&array);
    let walked = rt.thread_cpu_time()?;
    let is_printed = print_json(alloc, &array).is_ok();
    let printed = rt.thread_cpu_time()?;
    if found != keys.len().wrapping_mul(2) || seen == 0 || !is_printed {
        return Ok(None);
    }
    Ok(Some([
        nanos(start, by_key),
        nanos(by_key, by_place),
        nanos(by_place, walked),
        nanos(walked, printed),
    ]))
}

/// Prints the least times of so many rounds: look-ups one by one, of 1,000 members and at the first
/// 1,000 places, the others of records of that size.
pub fn report(rt: &HostRuntime, rounds: u32, size: usize) -> io::Result<()> {
    let alloc = rt.alloc();
    let wide = wide_object(alloc)?;
    let records = records_of(alloc, size, false)?;
    let keys = keys(alloc)?;
    let mut best = [[u64::MAX; 4]; 2];
    for _ in 0..rounds {
        let times = [
            ours(rt, &wide, &records, &keys)?,
            by_json(rt, &wide, &records, &keys)?,
        ];
        for way in 0..2usize {
            if let Some(times) = times[way] {
                for task in 0..4usize {
                    best[way][task] = best[way][task].min(times[task]);
                }
            }
        }
    }
    for task in 0..4usize {
        let (what, ours, theirs) = (TASKS[task], best[0][task], best[1][task]);
        let parts = if task < 2 { MEMBERS } else { 1000 };
        let unit = if task < 2 { "ns" } else { "us" };
        let (ours, theirs) = (ours / parts, theirs / parts);
        println!(rt; "{what:>12} tape {ours:>6} {unit}, json {theirs:>6} {unit}")?;
    }
    Ok(())
}
