//! Times of comparing two equal documents, in one order and with each object turned round, and of
//! looking at each of their entries once, beside the time to read one.

use crate::records::records_of;
use sj_document::Document;
use sj_object::KeyText;
use sj_text_core::SameAs;
use std::alloc::Global;
use std::io;
use std::time::{CpuClock, Duration};

const TASKS: [&str; 4] = ["read", "in one order", "turned round", "looked at"];

fn micros(before: Duration, after: Duration) -> u64 {
    u64::try_from(after.saturating_sub(before).as_micros()).unwrap_or(u64::MAX)
}

/// How long a value is, as far as it is told without looking at its texts' bytes.
fn value_len<T: KeyText>(value: &Document<T>) -> usize {
    match value {
        Document::Static(_) => 1,
        Document::String(text) => text.text().len(),
        Document::Array(items) => items.len(),
        Document::Object(members) => members.len(),
    }
}

/// Looks at each entry of all records, at its key and its value, and at no text: a comparison can't
/// do with less.
fn look_at<T: KeyText>(records: &Document<T>) -> usize {
    let mut seen = 0usize;
    if let Some(records) = records.as_array() {
        for record in records {
            if let Some(members) = record.as_object() {
                for (key, value) in members.iter() {
                    seen = seen.wrapping_add(key.text().len());
                    seen = seen.wrapping_add(value_len(value));
                }
            }
        }
    }
    seen
}

/// The time that the first took to be read, and the times to compare it with the others and to
/// look at the first two; None where an answer was no.
fn times<T: KeyText, U: KeyText, V: KeyText>(
    rt: &HostRuntime,
    read: u64,
    first: &Document<T>,
    equal: &Document<U>,
    turned: &Document<V>,
) -> io::Result<Option<[u64; 4]>> {
    let before = rt.thread_cpu_time()?;
    let is_same = first.same_as(equal);
    let compared = rt.thread_cpu_time()?;
    let is_turned_same = first.same_as(turned);
    let after = rt.thread_cpu_time()?;
    let seen = look_at(first).wrapping_add(look_at(equal));
    let looked = rt.thread_cpu_time()?;
    if !is_same || !is_turned_same || seen == 0 {
        return Ok(None);
    }
    Ok(Some([
        read,
        micros(before, compared),
        micros(compared, after),
        micros(after, looked),
    ]))
}

/// The times by borrowed documents; None where a reading was refused or the answer was no.
fn borrowed(rt: &HostRuntime, alloc: Global, texts: [&Vec<u8>; 2]) -> io::Result<Option<[u64; 4]>> {
    let mut first = texts[0].clone()?;
    let mut second = texts[0].clone()?;
    let mut turned = texts[1].clone()?;
    let start = rt.thread_cpu_time()?;
    let Ok(a) = sj_borrowed::to_value(alloc, first.as_mut_slice()) else {
        return Ok(None);
    };
    let read = rt.thread_cpu_time()?;
    let Ok(b) = sj_borrowed::to_value(alloc, second.as_mut_slice()) else {
        return Ok(None);
    };
    let Ok(c) = sj_borrowed::to_value(alloc, turned.as_mut_slice()) else {
        return Ok(None);
    };
    times(rt, micros(start, read), &a, &b, &c)
}

/// The same by owned documents.
fn owned(rt: &HostRuntime, alloc: Global, texts: [&Vec<u8>; 2]) -> io::Result<Option<[u64; 4]>> {
    let mut first = texts[0].clone()?;
    let mut second = texts[0].clone()?;
    let mut turned = texts[1].clone()?;
    let start = rt.thread_cpu_time()?;
    let Ok(a) = sj_owned::to_value(alloc, first.as_mut_slice()) else {
        return Ok(None);
    };
    let read = rt.thread_cpu_time()?;
    let Ok(b) = sj_owned::to_value(alloc, second.as_mut_slice()) else {
        return Ok(None);
    };
    let Ok(c) = sj_owned::to_value(alloc, turned.as_mut_slice()) else {
        return Ok(None);
    };
    times(rt, micros(start, read), &a, &b, &c)
}

/// Prints the least times of so many rounds on records of that size.
pub fn report(rt: &HostRuntime, rounds: u32, size: usize) -> io::Result<()> {
    let alloc = rt.alloc();
    let text = records_of(alloc, size, false)?;
    let turned = records_of(alloc, size, true)?;
    let mut best = [[u64::MAX; 4]; 2];
    for _ in 0..rounds {
        for form in 0..2usize {
            let times = if form == 0 {
                borrowed(rt, alloc, [&text, &turned])?
            } else {
                owned(rt, alloc, [&text, &turned])?
            };
            if let Some(times) = times {
                for task in 0..TASKS.len() {
                    best[form][task] = best[form][task].min(times[task]);
                }
            }
        }
    }
    let forms = ["borrowed", "owned"];
    for form in 0..2usize {
        for task in 0..TASKS.len() {
            let (name, what, time) = (forms[form], TASKS[task], best[form][task]);
            println!(rt; "{name:>10} {what:>14} {time:>8} us")?;
        }
    }
    Ok(())
}
