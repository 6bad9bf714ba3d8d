//! What of a shape is not met, a line each.

use crate::demand::{Demand, is_key_of};
use crate::expected::{expected_text, found_text};
use crate::fault::{Fault, file_name, one_line};
use crate::input::Layer;
use crate::origin::{Origin, origin_of, reached};
use crate::setting::Setting;
use sj_fault::{column, line};
use sj_owned::prelude::*;
use sj_owned::{Value, WriteError};
use sj_path::owned::find;
use sj_pointer::Pointer;
use std::alloc::Global;

/// What was merged and set, and what it made.
#[derive(Clone, Copy)]
pub struct Made<'m, 'w> {
    pub layers: &'m [Layer<'w>],
    pub settings: &'m [Setting<'w>],
    pub whole: &'m Value,
}

/// The place, as it is told.
pub fn pointed(alloc: Global, place: &Pointer) -> Result<String, WriteError> {
    if place.tokens().is_empty() {
        return Ok(String::from_str(alloc, "at the top")?);
    }
    let pointer = one_line(alloc, &format!(in alloc; "{place}")?)?;
    Ok(format!(in alloc; "at {pointer}")?)
}

/// Where in a file's text so many bytes lead, as it is told.
pub fn located(alloc: Global, layer: &Layer<'_>, at: usize) -> Result<String, WriteError> {
    let begin = &layer.text[..at.min(layer.text.len())];
    let (line, column) = (line(begin), column(begin));
    let name = file_name(alloc, layer.path)?;
    Ok(format!(in alloc; "{name}: line {line}, column {column}")?)
}

/// Where the value comes from that the tokens lead to, as it is told.
fn source(alloc: Global, made: Made<'_, '_>, tokens: &[String]) -> Result<String, WriteError> {
    match origin_of(alloc, made.layers, made.settings, tokens)? {
        Origin::File(index, at) => match made.layers.get(index) {
            Some(layer) => located(alloc, layer, at),
            None => Ok(String::from_str(alloc, "the files")?),
        },
        Origin::Setting(index) => match made.settings.get(index) {
            Some(setting) => {
                let word = one_line(alloc, setting.word)?;
                Ok(format!(in alloc; "--set {word}")?)
            }
            None => Ok(String::from_str(alloc, "the settings")?),
        },
        Origin::Unknown => Ok(String::from_str(alloc, "the files")?),
    }
}

/// Puts a line behind the others.
fn push_line(
    alloc: Global,
    lines: &mut String,
    source: &str,
    place: &Pointer,
    expected: &str,
    found: &str,
) -> Result<(), WriteError> {
    if !lines.is_empty() {
        lines.push_str("\nsjconf: ")?;
    }
    let place = pointed(alloc, place)?;
    lines.push_str(&format!(in alloc; "{source}: {place}: expected {expected}, found {found}")?)?;
    Ok(())
}

/// What keys are asked for, in words and as JSON.
fn keys_text(alloc: Global, keys: &[String]) -> Result<String, WriteError> {
    let mut text = String::from_str(alloc, "no key")?;
    let mut gap = " but";
    for key in keys {
        let key = Value::from(key.clone()?).encode(alloc)?;
        text.push_str(&format!(in alloc; "{gap} {key}")?)?;
        gap = ",";
    }
    Ok(text)
}

/// Puts a line for each key of the object at the place that is none of those.
fn push_other_keys(
    alloc: Global,
    lines: &mut String,
    made: Made<'_, '_>,
    demand: &Demand,
    value: &Value,
) -> Result<(), Fault> {
    let (Some(keys), Some(members)) = (&demand.keys, value.as_object()) else {
        return Ok(());
    };
    let expected = keys_text(alloc, keys)?;
    for (key, value) in members.iter() {
        if !is_key_of(key.as_str(), keys) {
            let mut place = demand.place.clone()?;
            place.push(key.clone()?)?;
            let source = source(alloc, made, place.tokens())?;
            let found = found_text(alloc, value)?;
            push_line(alloc, lines, &source, &place, &expected, &found)?;
        }
    }
    Ok(())
}

/// Puts the lines of a demand that is not met. What is missing is told where the last stands that leads
/// to it.
fn push_unmet(
    alloc: Global,
    lines: &mut String,
    made: Made<'_, '_>,
    demand: &Demand,
) -> Result<(), Fault> {
    let expected = expected_text(alloc, demand)?;
    let tokens = demand.place.tokens();
    let Some(value) = find(made.whole, &demand.place) else {
        let source = source(alloc, made, &tokens[..reached(made.whole, tokens)])?;
        return Ok(push_line(alloc, lines, &source, &demand.place, &expected, "nothing")?);
    };
    if !demand.is_wanted(value) {
        let source = source(alloc, made, tokens)?;
        let found = found_text(alloc, value)?;
        push_line(alloc, lines, &source, &demand.place, &expected, &found)?;
    }
    push_other_keys(alloc, lines, made, demand, value)
}

/// A line for each demand that is not met, with a line feed between each two.
pub fn report(
    alloc: Global,
    made: Made<'_, '_>,
    demands: &[Demand],
    verdicts: &[bool],
) -> Result<String, Fault> {
    let mut lines = String::new(alloc);
    for (demand, is_met) in demands.iter().zip(verdicts) {
        if !*is_met {
            push_unmet(alloc, &mut lines, made, demand)?;
        }
    }
    Ok(lines)
}
