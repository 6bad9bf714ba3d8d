//! Files, read whole, as documents.

use crate::fault::Fault;
use sj_fault::fault_at;
use sj_owned::{ErrorKind, Value, to_value};
use std::fs;
use std::io::{self, Read};
use std::rt::Files;

/// All bytes of the file of that path; `-` is standard input.
fn read<R: Files + Input + AllocGlobal>(rt: &R, path: &str) -> io::Result<Vec<u8>> {
    if path == "-" {
        let mut bytes = Vec::new(rt.alloc());
        rt.reader().read_to_end(&mut bytes)?;
        Ok(bytes)
    } else {
        fs::read(rt, path)
    }
}

/// The document of the file of that path; `-` is standard input.
pub fn document<R: Files + Input + AllocGlobal>(rt: &R, path: &str) -> Result<Value, Fault> {
    let alloc = rt.alloc();
    let mut bytes = match read(rt, path) {
        Ok(bytes) => bytes,
        Err(error) => return Err(Fault::unread(alloc, path, error)?),
    };
    let text = bytes.clone()?;
    match to_value(alloc, bytes.as_mut_slice()) {
        Ok(value) => Ok(value),
        Err(ErrorKind::OutOfMemory) => Err(Fault::OutOfMemory),
        Err(why) => Err(Fault::no_json(alloc, path, fault_at(&text), why)?),
    }
}
