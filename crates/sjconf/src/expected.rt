//! What is expected of a value, and what was found, in words.

use crate::demand::{Demand, Limits};
use sj_kinds::Kind;
use sj_owned::prelude::*;
use sj_owned::{Value, WriteError};
use std::alloc::{AllocError, Global};
use std::fmt;

/// The name of a kind, as shapes have it. Numbers are whole.
pub fn kind_name(kind: Kind) -> &'static str {
    match kind {
        Kind::Null => "null",
        Kind::Bool => "boolean",
        Kind::Number => "integer",
        Kind::String => "string",
        Kind::Array => "array",
        Kind::Object => "object",
    }
}

/// The kind of that name, as shapes have it.
pub fn kind_named(name: &str) -> Option<Kind> {
    match name {
        "null" => Some(Kind::Null),
        "boolean" => Some(Kind::Bool),
        "integer" => Some(Kind::Number),
        "string" => Some(Kind::String),
        "array" => Some(Kind::Array),
        "object" => Some(Kind::Object),
        _ => None,
    }
}

/// A kind with its article.
fn article(kind: Kind) -> &'static str {
    match kind {
        Kind::Null => "",
        Kind::Bool | Kind::String => "a ",
        Kind::Number | Kind::Array | Kind::Object => "an ",
    }
}

/// Puts which numbers are asked for, where ends are.
fn push_range<N: fmt::Display>(
    alloc: Global,
    text: &mut String,
    least: &Option<N>,
    most: &Option<N>,
) -> Result<(), AllocError> {
    let range = match (least, most) {
        (Some(least), Some(most)) => format!(in alloc; " from {least} to {most}")?,
        (Some(least), None) => format!(in alloc; " of at least {least}")?,
        (None, Some(most)) => format!(in alloc; " of at most {most}")?,
        (None, None) => return Ok(()),
    };
    text.push_str(&range)
}

/// Puts the values as JSON, with a comma between each two.
fn push_choices(alloc: Global, text: &mut String, choices: &[Value]) -> Result<(), WriteError> {
    let mut gap = ", one of ";
    for choice in choices {
        text.push_str(gap)?;
        text.push_str(&choice.encode(alloc)?)?;
        gap = ", ";
    }
    Ok(())
}

impl Limits {
    /// The kind that is asked for, or that of what has a range.
    fn wanted_kind(&self) -> Option<Kind> {
        match self.kind {
            Some(kind) => Some(kind),
            None if self.least.is_some() || self.most.is_some() => Some(Kind::Number),
            None => None,
        }
    }
}

/// What is asked for of the value itself, as `an integer from 1 to 65535`.
pub fn expected_text(alloc: Global, demand: &Demand) -> Result<String, WriteError> {
    let mut text = limits_text(alloc, &demand.limits)?;
    if let Some(choices) = &demand.choices {
        push_choices(alloc, &mut text, choices)?;
    }
    Ok(text)
}

/// Which values the limits admit, in words.
fn limits_text(alloc: Global, limits: &Limits) -> Result<String, AllocError> {
    let mut text = match limits.wanted_kind() {
        Some(kind) => format!(in alloc; "{}{}", article(kind), kind_name(kind))?,
        None => String::from_str(alloc, "a value")?,
    };
    push_range(alloc, &mut text, &limits.least, &limits.most)?;
    if limits.shortest.is_some() || limits.longest.is_some() {
        text.push_str(" with a length")?;
        push_range(alloc, &mut text, &limits.shortest, &limits.longest)?;
    }
    Ok(text)
}

/// What was found: a scalar as JSON, of an array how many items it has.
pub fn found_text(alloc: Global, value: &Value) -> Result<String, WriteError> {
    if value.is_object() {
        return Ok(String::from_str(alloc, "an object")?);
    }
    match value.as_array() {
        Some(items) => Ok(format!(in alloc; "an array of length {}", items.len())?),
        None => value.encode(alloc),
    }
}
