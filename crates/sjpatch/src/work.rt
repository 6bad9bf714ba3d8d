//! What the program does.

use crate::fault::Fault;
use crate::input::document;
use crate::output::{write, write_canonical};
use crate::words::{Target, Task};
use sj_patch::{diff, document_of, merge, operations_of, patch};
use std::rt::Files;

fn apply(
    rt: &(impl Files + Input + Print + AllocGlobal),
    patch_file: &str,
    file: &str,
    target: Target,
) -> Result<(), Fault> {
    let alloc = rt.alloc();
    let operations = match operations_of(alloc, document(rt, patch_file)?) {
        Ok(operations) => operations,
        Err(refused) => return Err(Fault::no_patch(alloc, patch_file, refused.why)?),
    };
    let mut changed = document(rt, file)?;
    patch(alloc, &mut changed, operations.as_slice())?;
    write(rt, &changed, target, file)
}

fn merge_in(
    rt: &(impl Files + Input + Print + AllocGlobal),
    patch: &str,
    file: &str,
    target: Target,
) -> Result<(), Fault> {
    let given = document(rt, patch)?;
    let mut changed = document(rt, file)?;
    merge(rt.alloc(), &mut changed, given)?;
    write(rt, &changed, target, file)
}

fn tell_difference(
    rt: &(impl Files + Input + Print + AllocGlobal),
    from: &str,
    to: &str,
    target: Target,
) -> Result<(), Fault> {
    let alloc = rt.alloc();
    let operations = diff(alloc, &document(rt, from)?, &document(rt, to)?)?;
    write(rt, &document_of(alloc, operations.as_slice())?, target, to)
}

/// Does what is asked for. The status is 0, or 1 where two documents were compared and differ.
pub fn work(rt: &(impl Files + Input + Print + AllocGlobal), task: Task<'_>) -> Result<u8, Fault> {
    task.check()?;
    match task {
        Task::Apply {
            patch,
            file,
            target,
        } => apply(rt, patch, file, target)?,
        Task::Merge {
            patch,
            file,
            target,
        } => merge_in(rt, patch, file, target)?,
        Task::Diff { from, to, target } => tell_difference(rt, from, to, target)?,
        Task::Canon { file, in_place } => {
            write_canonical(rt, &document(rt, file)?, in_place, file)?
        }
        Task::Same { one, other } => {
            return Ok(if document(rt, one)? == document(rt, other)? {
                0
            } else {
                1
            });
        }
    }
    Ok(0)
}
