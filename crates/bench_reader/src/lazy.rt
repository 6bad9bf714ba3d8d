//! Times of ten reads at depth 3, and of one write and a print, on lazy, borrowed and owned
//! documents.

use crate::records::records_of;
use sj_borrowed::BorrowedValue;
use sj_document::Document;
use sj_object::KeyText;
use sj_owned::OwnedValue;
use sj_tape::to_tape;
use sj_text_core::{StaticNode, Writable};
use std::alloc::{AllocError, Global};
use std::borrow::CowStr;
use std::io;
use std::time::{CpuClock, Duration};

const FORMS: [&str; 3] = ["lazy", "borrowed", "owned"];

fn micros(before: Duration, after: Duration) -> u64 {
    u64::try_from(after.saturating_sub(before).as_micros()).unwrap_or(u64::MAX)
}

/// An object whose one member has records of about that many bytes.
fn text_of(alloc: Global, size: usize) -> Result<Vec<u8>, AllocError> {
    let records = records_of(alloc, size, false)?;
    let mut out = b"{\"records\":".to_vec(alloc)?;
    out.extend_from_slice(&records)?;
    out.push(b'}')?;
    Ok(out)
}

/// How many of ten names are found.
fn reads_lazy(value: &sj_lazy::Value<'_, '_, '_>) -> usize {
    let mut found = 0usize;
    for i in 0..10usize {
        if let Some(records) = value.get("records") {
            if let Some(record) = records.get_idx(i * 100) {
                if record.get("name").is_some() {
                    found = found.wrapping_add(1);
                }
            }
        }
    }
    found
}

/// The same of a document.
fn reads<T: KeyText>(value: &Document<T>) -> usize {
    let mut found = 0usize;
    for i in 0..10usize {
        if let Some(records) = value.get("records") {
            if let Some(record) = records.get_idx(i * 100) {
                if record.get("name").is_some() {
                    found = found.wrapping_add(1);
                }
            }
        }
    }
    found
}

/// The times of a reading with ten reads, and of a write with a print; None where one was refused.
fn lazy(rt: &HostRuntime, bytes: &mut [u8]) -> io::Result<Option<[u64; 2]>> {
    let alloc = rt.alloc();
    let start = rt.thread_cpu_time()?;
    let Ok(tape) = to_tape(alloc, bytes) else {
        return Ok(None);
    };
    let mut value: sj_lazy::Value<'_, '_, '_> = sj_lazy::Value::from_tape(tape.as_value());
    let found = reads_lazy(&value);
    let read = rt.thread_cpu_time()?;
    let truth: BorrowedValue<'_> = Document::Static(StaticNode::Bool(true));
    let is_written = value.insert(alloc, CowStr::Borrowed("seen"), truth).is_ok();
    let is_printed = value.encode(alloc).is_ok();
    let end = rt.thread_cpu_time()?;
    if found != 10 || !is_written || !is_printed {
        return Ok(None);
    }
    Ok(Some([micros(start, read), micros(read, end)]))
}

/// The same by a borrowed document.
fn borrowed(rt: &HostRuntime, bytes: &mut [u8]) -> io::Result<Option<[u64; 2]>> {
    let alloc = rt.alloc();
    let start = rt.thread_cpu_time()?;
    let Ok(mut value) = sj_borrowed::to_value(alloc, bytes) else {
        return Ok(None);
    };
    let found = reads(&value);
    let read = rt.thread_cpu_time()?;
    let truth: BorrowedValue<'_> = Document::Static(StaticNode::Bool(true));
    let is_written = value.insert(CowStr::Borrowed("seen"), truth).is_ok();
    let is_printed = value.encode(alloc).is_ok();
    let end = rt.thread_cpu_time()?;
    if found != 10 || !is_written || !is_printed {
        return Ok(None);
    }
    Ok(Some([micros(start, read), micros(read, end)]))
}

/// The same by an owned document.
fn owned(rt: &HostRuntime, bytes: &mut [u8]) -> io::Result<Option<[u64; 2]>> {
    let alloc = rt.alloc();
    let key = String::from_str(alloc, "seen")?;
    let start = rt.thread_cpu_time()?;
    let Ok(mut value) = sj_owned::to_value(alloc, bytes) else {
        return Ok(None);
    };
    let found = reads(&value);
    let read = rt.thread_cpu_time()?;
    let truth: OwnedValue = Document::Static(StaticNode::Bool(true));
    let is_written = value.insert(key, truth).is_ok();
    let is_printed = value.encode(alloc).is_ok();
    let end = rt.thread_cpu_time()?;
    if found != 10 || !is_written || !is_printed {
        return Ok(None);
    }
    Ok(Some([micros(start, read), micros(read, end)]))
}

/// Prints the least times of so many rounds on records of that size.
pub fn report(rt: &HostRuntime, rounds: u32, size: usize) -> io::Result<()> {
    let text = text_of(rt.alloc(), size)?;
    let mut best = [[u64::MAX; 2]; 3];
    for _ in 0..rounds {
        for form in 0..3usize {
            let mut bytes = text.clone()?;
            let times = match form {
                0 => lazy(rt, bytes.as_mut_slice())?,
                1 => borrowed(rt, bytes.as_mut_slice())?,
                _ => owned(rt, bytes.as_mut_slice())?,
            };
            if let Some(times) = times {
                for task in 0..2usize {
                    best[form][task] = best[form][task].min(times[task]);
                }
            }
        }
    }
    for form in 0..3usize {
        let (name, read, written) = (FORMS[form], best[form][0], best[form][1]);
        println!(rt;
            "{name:>10} read with ten reads {read:>8} us, write and print {written:>8} us"
        )?;
    }
    Ok(())
}
