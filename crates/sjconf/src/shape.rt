//! The demands of a shape file.

use crate::demand::{Demand, Limits};
use crate::expected::kind_named;
use crate::flaw::Flaw;
use sj_kinds::Kind;
use sj_owned::Value;
use sj_owned::prelude::*;
use sj_pointer::Pointer;
use std::alloc::{AllocError, AllocFailed};

/// Why a document is no shape: what stands at a member of a demand, or at the demand itself where none
/// is named, is not what it has to be.
#[derive(Debug, Drop)]
pub enum Wrong {
    Demand(Flaw),
    /// A member of that name, which no demand has.
    Unknown(String),
    Member(&'static str, Flaw),
    OutOfMemory,
}

impl From<AllocError> for Wrong {
    fn from(_error: AllocError) -> Wrong {
        Wrong::OutOfMemory
    }
}

impl<T: Drop> From<AllocFailed<T>> for Wrong {
    fn from(_error: AllocFailed<T>) -> Wrong {
        Wrong::OutOfMemory
    }
}

/// The members that a demand may have.
const MEMBERS: [&str; 8] = [
    "kind",
    "required",
    "min",
    "max",
    "min_length",
    "max_length",
    "one_of",
    "other_keys",
];

/// The demand of what the item says of a place; what it says of other keys is left.
pub fn demand_of(place: Pointer, item: &Value) -> Result<Demand, Wrong> {
    check_members(item)?;
    let is_required = truth_of(item, "required")?.unwrap_or(false);
    truth_of(item, "other_keys")?;
    let limits = limits_of(item)?;
    Ok(Demand {
        place,
        is_required,
        limits,
        choices: choices_of(item)?,
        keys: None,
    })
}

/// Whether the item leaves an object no other keys.
pub fn is_closed(item: &Value) -> bool {
    item.get("other_keys").and_then(|truth| truth.as_bool()) == Some(false)
}

/// Whether the item is an object of no other members than a demand may have.
fn check_members(item: &Value) -> Result<(), Wrong> {
    let Some(members) = item.as_object() else {
        return Err(Wrong::Demand(Flaw::NoObject));
    };
    for name in members.keys() {
        if !MEMBERS.contains(&name.as_str()) {
            return Err(Wrong::Unknown(name.clone()?));
        }
    }
    Ok(())
}

fn truth_of(item: &Value, name: &'static str) -> Result<Option<bool>, Wrong> {
    match item.get(name) {
        Some(truth) => match truth.as_bool() {
            Some(truth) => Ok(Some(truth)),
            None => Err(Wrong::Member(name, Flaw::NoTruth)),
        },
        None => Ok(None),
    }
}

fn kind_of(item: &Value) -> Result<Option<Kind>, Wrong> {
    match item.get("kind") {
        Some(name) => match name.as_str().and_then(kind_named) {
            Some(kind) => Ok(Some(kind)),
            None => Err(Wrong::Member("kind", Flaw::NoKind)),
        },
        None => Ok(None),
    }
}

fn number_of(item: &Value, name: &'static str) -> Result<Option<i128>, Wrong> {
    match item.get(name) {
        Some(number) => match number.as_i128() {
            Some(number) => Ok(Some(number)),
            None => Err(Wrong::Member(name, Flaw::NoNumber)),
        },
        None => Ok(None),
    }
}

fn count_of(item: &Value, name: &'static str) -> Result<Option<usize>, Wrong> {
    match item.get(name) {
        Some(count) => match count.as_usize() {
            Some(count) => Ok(Some(count)),
            None => Err(Wrong::Member(name, Flaw::NoLength)),
        },
        None => Ok(None),
    }
}

fn choices_of(item: &Value) -> Result<Option<Vec<Value>>, Wrong> {
    match item.get("one_of") {
        Some(choices) => match choices.as_array() {
            Some(choices) => Ok(Some(choices.clone()?)),
            None => Err(Wrong::Member("one_of", Flaw::NoChoices)),
        },
        None => Ok(None),
    }
}

/// The limits that the item asks for, between whose ends something lies.
fn limits_of(item: &Value) -> Result<Limits, Wrong> {
    let limits = Limits {
        kind: kind_of(item)?,
        least: number_of(item, "min")?,
        most: number_of(item, "max")?,
        shortest: count_of(item, "min_length")?,
        longest: count_of(item, "max_length")?,
    };
    if let (Some(least), Some(most)) = (limits.least, limits.most) {
        if most < least {
            return Err(Wrong::Member("max", Flaw::BelowMin));
        }
    }
    if let (Some(shortest), Some(longest)) = (limits.shortest, limits.longest) {
        if longest < shortest {
            return Err(Wrong::Member("max_length", Flaw::BelowMinLength));
        }
    }
    Ok(limits)
}
