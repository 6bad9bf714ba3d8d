//! What is measured.

use crate::documents::{BACK, FAILING, MERGE, THERE, UNMERGE, document, text};
use sj_owned::Value;
use sj_patch::{Operation, PatchReadFault, diff, merge, operations_of, patch};
use std::alloc::{AllocError, Global};

#[derive(Clone, Copy, Debug, PartialEq, Eq)]
pub enum Case {
    Patch,
    Failing,
    Diff,
    Same,
    Merge,
}

pub const CASES: [Case; 5] = [
    Case::Patch,
    Case::Failing,
    Case::Diff,
    Case::Same,
    Case::Merge,
];

impl Case {
    pub fn name(self) -> &'static str {
        match self {
            Case::Patch => "patch",
            Case::Failing => "failing",
            Case::Diff => "diff",
            Case::Same => "same",
            Case::Merge => "merge",
        }
    }
}

/// What the cases are given, read beforehand.
#[derive(Drop)]
pub struct Given {
    document: Value,
    /// The same document.
    copy: Value,
    /// The document as `there` makes it.
    changed: Value,
    there: Vec<Operation<String>>,
    back: Vec<Operation<String>>,
    failing: Vec<Operation<String>>,
    merge: Value,
    unmerge: Value,
}

fn operations(alloc: Global, text: &str) -> anyhow::Result<Vec<Operation<String>>> {
    Ok(operations_of(alloc, document(alloc, text)?).map_err(PatchReadFault::from)?)
}

impl Given {
    pub fn new(alloc: Global) -> anyhow::Result<Given> {
        let text = text(alloc)?;
        let there = operations(alloc, THERE)?;
        let mut changed = document(alloc, text.as_str())?;
        patch(alloc, &mut changed, there.as_slice())?;
        let failing = format!(in alloc; "{},{FAILING}]", THERE.strip_suffix("]").unwrap_or(THERE))?;
        Ok(Given {
            document: document(alloc, text.as_str())?,
            copy: document(alloc, text.as_str())?,
            changed,
            there,
            back: operations(alloc, BACK)?,
            failing: operations(alloc, failing.as_str())?,
            merge: document(alloc, MERGE)?,
            unmerge: document(alloc, UNMERGE)?,
        })
    }

    /// A round of the case; whether it went well.
    pub fn round(&mut self, alloc: Global, case: Case) -> Result<bool, AllocError> {
        match case {
            Case::Patch => Ok(
                patch(alloc, &mut self.document, &self.there).is_ok()
                    && patch(alloc, &mut self.document, &self.back).is_ok(),
            ),
            Case::Failing => Ok(patch(alloc, &mut self.document, &self.failing).is_err()),
            Case::Diff => Ok(diff(alloc, &self.document, &self.changed)?.len() > 8),
            Case::Same => Ok(self.document == self.copy),
            Case::Merge => {
                let (given, back) = (self.merge.clone()?, self.unmerge.clone()?);
                merge(alloc, &mut self.document, given)?;
                merge(alloc, &mut self.document, back)?;
                Ok(true)
            }
        }
    }
}
