//! Files, read whole, as documents.

ghost use Rattle.std.specs.Prelude.{IfOk, string_bytes};
ghost use Rattle.sj_text_core.specs.Keep.{keep};
ghost use Rattle.sj_text_core.specs.Readings.{IsReadAs};
ghost use Rattle.sj_document.specs.Document.{document_tree};

use crate::fault::Fault;
use sj_fault::fault_at;
use sj_owned::{ErrorKind, Value, to_value};
use std::alloc::Global;
use std::fs;
use std::io::{self, Read};
use std::rt::Files;

/// A file by its path, and its text.
#[derive(Debug, Drop)]
pub struct Layer<'w> {
    pub path: &'w str,
    pub text: Vec<u8>,
}

/// All bytes of the file of that path; `-` is standard input.
fn read<R: Files + Input + AllocGlobal>(rt: &R, path: &str) -> io::Result<Vec<u8>> {
    if path == "-" {
        let mut bytes = Vec::new(rt.alloc());
        rt.reader().read_to_end(&mut bytes)?;
        Ok(bytes)
    } else {
        fs::read(rt, path)
    }
}

/// The file of that path; `-` is standard input.
pub fn read_layer<'w, R: Files + Input + AllocGlobal>(
    rt: &R,
    path: &'w str,
) -> Result<Layer<'w>, Fault> {
    match read(rt, path) {
        Ok(text) => Ok(Layer { path, text }),
        Err(error) => Err(Fault::unread(rt.alloc(), path, error)?),
    }
}

/// The document of a file; of repeated keys the first counts.
pub fn document(alloc: Global, layer: &Layer<'_>) -> Result<Value, Fault>
    ensures { IfOk result (λ v. IsReadAs keep layer.now.text.items (document_tree string_bytes v)) }
{
    let mut bytes = layer.text.clone()?;
    match to_value(alloc, bytes.as_mut_slice()) {
        Ok(value) => Ok(value),
        Err(ErrorKind::OutOfMemory) => Err(Fault::OutOfMemory),
        Err(why) => Err(Fault::no_json(alloc, layer.path, fault_at(&layer.text), why)?),
    }
}
