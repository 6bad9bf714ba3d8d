//! Which files the names of the rules stand for.

use crate::fault::Fault;
use crate::flaw::Flaw;
use crate::routing::Route;
use std::fs;
use std::io::ErrorKind;
use std::path::Path;
use std::rt::Files;

// Why so: docs/REFUSED.md, "The toolchain's files have no number".
/// The file that a name stands for, by a name that is the same for all of its names: without links,
/// dots and doubled slashes. None where no file is meant, but a device or a pipe. A file that is not
/// there yet has the name that it would be made by.
fn file_of<R: Files + AllocGlobal>(rt: &R, name: &str) -> Result<Option<String>, Fault> {
    match fs::canonicalize(rt, name) {
        Ok(path) if path.as_path().is_file(rt) => Ok(Some(path.into_string())),
        Ok(_) => Ok(None),
        Err(error) if error.kind() == ErrorKind::OutOfMemory => Err(Fault::OutOfMemory),
        Err(_) => new_file(rt, Path::new(name)),
    }
}

/// The name that a file would be made by: that of its folder, and its own behind it.
fn new_file<R: Files + AllocGlobal>(rt: &R, path: Path<'_>) -> Result<Option<String>, Fault> {
    let (Some(folder), Some(name)) = (path.parent(), path.file_name()) else {
        return Ok(None);
    };
    let folder = match folder.as_str() {
        "" => ".",
        folder => folder,
    };
    match fs::canonicalize(rt, folder) {
        Ok(mut file) => {
            file.push(name)?;
            Ok(Some(file.into_string()))
        }
        Err(error) if error.kind() == ErrorKind::OutOfMemory => Err(Fault::OutOfMemory),
        Err(_) => Ok(None),
    }
}

/// The first route whose output is the file of rules, standard input's or that of a route before it,
/// where names tell. Nothing is opened.
pub fn taken_output<R: Files + AllocGlobal>(
    rt: &R,
    rules: &str,
    routes: &[Route],
) -> Result<Option<(usize, Flaw)>, Fault> {
    let rules = file_of(rt, rules)?;
    let input = file_of(rt, "/dev/stdin")?;
    let mut before = Vec::new(rt.alloc());
    for (index, route) in routes.iter().enumerate() {
        let name = match route.output.as_str() {
            "-" => "/dev/stdout",
            name => name,
        };
        let output = file_of(rt, name)?;
        if output.is_none() {
            continue;
        }
        let flaw = if output == rules {
            Flaw::IsRules
        } else if output == input {
            Flaw::IsInput
        } else if before.contains(&output) {
            Flaw::IsOutput
        } else {
            before.push(output)?;
            continue;
        };
        return Ok(Some((index, flaw)));
    }
    Ok(None)
}
