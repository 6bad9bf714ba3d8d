//! Readings of texts, to tapes and to documents of both forms, by the choice of a member too.

use refusals_common::{Fault, say, say_bytes, say_call, say_made, text_of};
use sj_document::{BorrowedValue, Document, OwnedValue};
use sj_object::{KeyText, deserialize, deserialize_repeats, deserialize_with_buffers};
use sj_tape::{Buffers, Tape, to_tape, to_tape_with_buffers};
use sj_text_core::{ErrorKind, Repeats, Writable};
use std::borrow::CowStr;

/// A call that reads a document.
#[derive(Clone, Copy, Debug)]
enum Reader {
    Deserialize,
    DeserializeWithBuffers,
    DeserializeRepeats,
    ToValue,
    ToValueWithBuffers,
    ToValueRepeats,
    ToNamedValue,
    ToNamedValueWithBuffers,
    FromSlice,
    FromStr,
}

impl Reader {
    fn of(word: &str) -> Result<Reader, Fault> {
        match word {
            "deserialize" => Ok(Reader::Deserialize),
            "deserialize_with_buffers" => Ok(Reader::DeserializeWithBuffers),
            "deserialize_repeats" => Ok(Reader::DeserializeRepeats),
            "to_value" => Ok(Reader::ToValue),
            "to_value_with_buffers" => Ok(Reader::ToValueWithBuffers),
            "to_value_repeats" => Ok(Reader::ToValueRepeats),
            "to_owned_value" | "to_borrowed_value" => Ok(Reader::ToNamedValue),
            "to_owned_value_with_buffers" | "to_borrowed_value_with_buffers" => {
                Ok(Reader::ToNamedValueWithBuffers)
            }
            "from_slice" => Ok(Reader::FromSlice),
            "from_str" => Ok(Reader::FromStr),
            _ => Err(Fault::Usage),
        }
    }
}

/// Reads the text of that name twice by that call of the form, each time from a fresh copy: between
/// the first two writes, and once more.
pub fn read(
    rt: &(impl Print + AllocGlobal),
    form: &str,
    call: &str,
    text: &str,
) -> Result<(), Fault> {
    let mut bytes = text_of(rt.alloc(), text)?;
    let mut copy = text_of(rt.alloc(), text)?;
    let mut buffers = Buffers::new(rt.alloc(), 0)?;
    say_call(rt)?;
    read_once(rt, form, call, bytes.as_mut_slice(), &mut buffers)?;
    say(rt, "again ")?;
    read_once(rt, form, call, copy.as_mut_slice(), &mut buffers)
}

fn read_once(
    rt: &(impl Print + AllocGlobal),
    form: &str,
    call: &str,
    bytes: &mut [u8],
    buffers: &mut Buffers,
) -> Result<(), Fault> {
    match form {
        "tape" => read_tape(rt, call, bytes, buffers),
        "owned" => read_owned(rt, Reader::of(call)?, bytes, buffers),
        "borrowed" => read_borrowed(rt, Reader::of(call)?, bytes, buffers),
        _ => Err(Fault::Usage),
    }
}

fn read_tape(
    rt: &(impl Print + AllocGlobal),
    call: &str,
    bytes: &mut [u8],
    buffers: &mut Buffers,
) -> Result<(), Fault> {
    let alloc = rt.alloc();
    match call {
        "to_tape" => tell_tape(rt, to_tape(alloc, bytes)),
        "to_tape_with_buffers" => tell_tape(rt, to_tape_with_buffers(alloc, bytes, buffers)),
        _ => Err(Fault::Usage),
    }
}

fn read_owned(
    rt: &(impl Print + AllocGlobal),
    reader: Reader,
    bytes: &mut [u8],
    buffers: &mut Buffers,
) -> Result<(), Fault> {
    let alloc = rt.alloc();
    let read = match reader {
        Reader::Deserialize => deserialize::<OwnedValue, String>(alloc, bytes),
        Reader::DeserializeWithBuffers => {
            deserialize_with_buffers::<OwnedValue, String>(alloc, bytes, buffers)
        }
        Reader::DeserializeRepeats => {
            deserialize_repeats::<OwnedValue, String>(alloc, bytes, Repeats::Last)
        }
        Reader::ToValue => sj_owned::to_value(alloc, bytes),
        Reader::ToValueWithBuffers => sj_owned::to_value_with_buffers(alloc, bytes, buffers),
        Reader::ToValueRepeats => sj_owned::to_value_repeats(alloc, bytes, Repeats::Last),
        Reader::ToNamedValue => sj_owned::to_owned_value(alloc, bytes),
        Reader::ToNamedValueWithBuffers => {
            sj_owned::to_owned_value_with_buffers(alloc, bytes, buffers)
        }
        Reader::FromSlice => sj_owned::from_slice(alloc, bytes),
        Reader::FromStr => sj_owned::from_str(alloc, text_in(bytes)?),
    };
    tell_document(rt, read)
}

fn read_borrowed(
    rt: &(impl Print + AllocGlobal),
    reader: Reader,
    bytes: &mut [u8],
    buffers: &mut Buffers,
) -> Result<(), Fault> {
    let alloc = rt.alloc();
    let read = match reader {
        Reader::FromSlice | Reader::FromStr => return read_copied(rt, reader, bytes),
        Reader::Deserialize => deserialize::<BorrowedValue<'_>, CowStr<'_>>(alloc, bytes),
        Reader::DeserializeWithBuffers => {
            deserialize_with_buffers::<BorrowedValue<'_>, CowStr<'_>>(alloc, bytes, buffers)
        }
        Reader::DeserializeRepeats => {
            deserialize_repeats::<BorrowedValue<'_>, CowStr<'_>>(alloc, bytes, Repeats::Last)
        }
        Reader::ToValue => sj_borrowed::to_value(alloc, bytes),
        Reader::ToValueWithBuffers => sj_borrowed::to_value_with_buffers(alloc, bytes, buffers),
        Reader::ToValueRepeats => sj_borrowed::to_value_repeats(alloc, bytes, Repeats::Last),
        Reader::ToNamedValue => sj_borrowed::to_borrowed_value(alloc, bytes),
        Reader::ToNamedValueWithBuffers => {
            sj_borrowed::to_borrowed_value_with_buffers(alloc, bytes, buffers)
        }
    };
    tell_document(rt, read)
}

/// Reads a copy of the bytes to a borrowed document.
fn read_copied(rt: &(impl Print + AllocGlobal), reader: Reader, bytes: &[u8]) -> Result<(), Fault> {
    let alloc = rt.alloc();
    let mut room = Vec::new(alloc);
    let lent = &mut room;
    let read = match reader {
        Reader::FromStr => sj_borrowed::from_str(alloc, text_in(bytes)?, lent),
        _ => sj_borrowed::from_slice(alloc, bytes, lent),
    };
    tell_document(rt, read)
}

/// The bytes as a text.
fn text_in(bytes: &[u8]) -> Result<&str, Fault> {
    match str::from_utf8(bytes) {
        Ok(text) => Ok(text),
        Err(_) => Err(Fault::Usage),
    }
}

/// Tells how many nodes the tape has.
fn tell_tape(
    rt: &(impl Print + AllocGlobal),
    read: Result<Tape<'_>, ErrorKind>,
) -> Result<(), Fault> {
    match read {
        Ok(tape) => {
            say(rt, "read, ")?;
            let count = tape.as_value().nodes().len();
            say(rt, format!(in rt.alloc(); "{count} nodes\n")?.as_str())
        }
        Err(kind) => tell_kind(rt, kind),
    }
}

/// Tells the print of the document.
fn tell_document<T: KeyText + Drop>(
    rt: &(impl Print + AllocGlobal),
    read: Result<Document<T>, ErrorKind>,
) -> Result<(), Fault> {
    match read {
        Ok(value) => {
            say(rt, "read, ")?;
            let mut out = Vec::new(rt.alloc());
            value.write(&mut out)?;
            say_bytes(rt, out.as_slice())?;
            say(rt, "\n")
        }
        Err(kind) => tell_kind(rt, kind),
    }
}

fn tell_kind(rt: &(impl Print + AllocGlobal), kind: ErrorKind) -> Result<(), Fault> {
    let is_memory = kind == ErrorKind::OutOfMemory;
    say(
        rt,
        if is_memory {
            "OutOfMemory\n"
        } else {
            "ANOTHER FAULT\n"
        },
    )
}

/// Makes buffers for a text of 1000 bytes, twice.
pub fn buffers(rt: &(impl Print + AllocGlobal)) -> Result<(), Fault> {
    say_call(rt)?;
    say_made(rt, Buffers::new(rt.alloc(), 1000).is_ok())?;
    say(rt, "again ")?;
    say_made(rt, Buffers::new(rt.alloc(), 1000).is_ok())
}
