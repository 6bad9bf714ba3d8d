//! Canonical prints, by their public calls.
#![tactic(auto)]

#[cfg(test)]
mod choices;
#[cfg(test)]
mod forms;

use sj_document::{BorrowedValue, OwnedValue};
use std::alloc::Global;
use std::test::Fail;

/// The document of a text, with texts of its own.
#[cfg(test)]
fn owned(alloc: Global, text: &str) -> Result<OwnedValue, Fail> {
    let mut bytes = text.as_bytes().to_vec(alloc)?;
    Ok(sj_owned::to_value(alloc, bytes.as_mut_slice())?)
}

/// The same in the form that borrows.
#[cfg(test)]
fn borrowed(alloc: Global, text: &str) -> Result<BorrowedValue<'static>, Fail> {
    let mut bytes = text.as_bytes().to_vec(alloc)?;
    let value = sj_borrowed::to_value(alloc, bytes.as_mut_slice())?;
    Ok(value.into_static(alloc)?)
}
