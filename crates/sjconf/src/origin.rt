//! Which file or setting gave the value at a place.

ghost use Rattle.std.specs.Prelude.{◌≤◌, length};

use crate::input::Layer;
use crate::said::{Said, said_of};
use crate::setting::Setting;
use sj_owned::Value;
use sj_owned::prelude::*;
use sj_pointer::position;
use std::alloc::{AllocError, Global};

/// Where a value comes from.
#[derive(Clone, Copy, Debug, PartialEq, Eq)]
pub enum Origin {
    /// Nothing gave it, or what gave it was taken out again.
    Unknown,
    /// The file of that index, behind so many of its bytes.
    File(usize, usize),
    /// The setting of that index.
    Setting(usize),
}

/// Where the value at the place that the tokens lead to comes from: the last that gave it, of the
/// files in turn and then of the settings.
pub fn origin_of(
    alloc: Global,
    layers: &[Layer<'_>],
    settings: &[Setting<'_>],
    tokens: &[String],
) -> Result<Origin, AllocError> {
    let mut origin = origin_in_files(alloc, layers, tokens)?;
    for (index, setting) in settings.iter().enumerate() {
        origin = origin_behind(origin, index, setting, tokens);
    }
    Ok(origin)
}

/// The last of the files that gave the value.
fn origin_in_files(
    alloc: Global,
    layers: &[Layer<'_>],
    tokens: &[String],
) -> Result<Origin, AllocError> {
    let mut origin = Origin::Unknown;
    // How many of the tokens lead to the array that the value stands in, where it stands in one.
    let mut array: Option<usize> = None;
    for (index, layer) in layers.iter().enumerate() {
        (origin, array) = match said_of(alloc, &layer.text, tokens)? {
            Said::Value(at) => (Origin::File(index, at), None),
            Said::Item(at, depth) => (Origin::File(index, at), Some(depth)),
            // The first file is merged over nothing, so its nulls stay.
            Said::Null(at) if index == 0 => (Origin::File(index, at), None),
            // An object takes the place of an array on the way.
            Said::Nothing(depth) if array.is_none_or(|array| depth < array) => (origin, array),
            Said::Null(_) | Said::Else | Said::Nothing(_) => (Origin::Unknown, None),
        };
    }
    Ok(origin)
}

/// Where the value comes from behind one more setting. One that goes further makes the objects on its
/// way that nothing gave before.
fn origin_behind(origin: Origin, index: usize, setting: &Setting<'_>, tokens: &[String]) -> Origin {
    let keys = setting.place.tokens();
    if tokens.starts_with(keys) {
        let rest = &tokens[keys.len()..];
        if reached(&setting.value, rest) == rest.len() {
            Origin::Setting(index)
        } else {
            Origin::Unknown
        }
    } else if keys.starts_with(tokens) && origin == Origin::Unknown {
        Origin::Setting(index)
    } else {
        origin
    }
}

/// How many of the tokens lead to something, one inside another, in the value.
pub fn reached(value: &Value, tokens: &[String]) -> usize
    ensures { result ≤ length tokens.now }
{
    let mut at = value;
    for (index, token) in tokens.iter().enumerate() {
        let found = if at.is_array() {
            position(token.as_str()).and_then(|index| at.get_idx(index))
        } else {
            at.get(token.as_str())
        };
        match found {
            Some(part) => at = part,
            None => return index,
        }
    }
    tokens.len()
}
