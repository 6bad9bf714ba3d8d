//! Results, written whole.

use crate::fault::Fault;
use crate::words::Target;
use sj_canonical::Canonical;
use sj_document::Document;
use sj_object::KeyText;
use sj_text_core::Writable;
use std::fs::{self, OpenFile, OpenOptions};
use std::io::{self, Write};
use std::rt::Files;

/// Writes the document and a line feed to standard output, or into the file of that path.
pub fn write<T: KeyText>(
    rt: &(impl Files + Print + AllocGlobal),
    document: &Document<T>,
    target: Target,
    path: &str,
) -> Result<(), Fault> {
    let mut text = Vec::new(rt.alloc());
    if target.pretty {
        document.write_pp(&mut text)?;
    } else {
        document.write(&mut text)?;
    }
    text.push(b'\n')?;
    write_bytes(rt, text.as_slice(), target.in_place, path)
}

/// Writes the document's canonical print, without a line feed.
pub fn write_canonical<T: KeyText>(
    rt: &(impl Files + Print + AllocGlobal),
    document: &Document<T>,
    in_place: bool,
    path: &str,
) -> Result<(), Fault> {
    let text = document.canonical(rt.alloc())?;
    write_bytes(rt, text.as_bytes(), in_place, path)
}

/// Writes the bytes to standard output, or into the file of that path.
fn write_bytes(
    rt: &(impl Files + Print + AllocGlobal),
    bytes: &[u8],
    in_place: bool,
    path: &str,
) -> Result<(), Fault> {
    let (path, written) = if in_place {
        (path, replace(rt, path, bytes))
    } else {
        ("standard output", io::writer(rt).write_all(bytes))
    };
    match written {
        Ok(()) => Ok(()),
        Err(error) => Err(Fault::unwritten(rt.alloc(), path, error)?),
    }
}

/// Gives the file of that path the bytes: they are written to a new file beside it, of the same
/// permissions, which then takes the name. At each moment the path has what it had, or all of the
/// bytes; where that fails, it has what it had. A link stays one: the file that it leads to is replaced.
fn replace(rt: &(impl Files + AllocGlobal), path: &str, bytes: &[u8]) -> io::Result<()> {
    let path = fs::canonicalize(rt, path)?;
    let path = path.as_path().as_str();
    let beside = format!(in rt.alloc(); "{path}.sjpatch")?;
    let permissions = fs::metadata(rt, path)?.permissions();
    let mut file = OpenOptions::new()
        .write(true)
        .create_new(true)
        .open(rt, beside.as_str())?;
    let written = match write_whole(&mut file, permissions, bytes) {
        Ok(()) => fs::rename(rt, beside.as_str(), path),
        Err(error) => Err(error),
    };
    if written.is_err() {
        let _ = fs::remove_file(rt, beside.as_str());
    }
    written
}

fn write_whole<F: OpenFile + Write>(
    file: &mut F,
    permissions: fs::Permissions,
    bytes: &[u8],
) -> io::Result<()> {
    file.set_permissions(permissions)?;
    file.write_all(bytes)?;
    file.sync_all()
}
