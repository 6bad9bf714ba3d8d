//! The demands that a shape file lists.

ghost use Rattle.std.specs.Prelude.{◌≡◌, ◌||◌, ℕ, List, IfOk, OnOk, bytes_eq, map, option_map, string_bytes};
ghost use Rattle.sjconf.specs.Demands.{is_named, is_one_of, next_of};

use crate::demand::{Demand, is_key_of};
use crate::fault::Fault;
use crate::flaw::Flaw;
use crate::input::{Layer, document};
use crate::key::pointer_of;
use crate::report::{located, pointed};
use crate::said::{Said, said_of};
use crate::shape::{Wrong, demand_of, is_closed};
use sj_owned::prelude::*;
use sj_owned::{Object, WriteError};
use sj_pointer::{Pointer, PointerError};
use std::alloc::{AllocError, Global};

/// The demands of a file, in order. A file that is no shape is told by line and column, pointer and what
/// was expected there.
pub fn demands_of(alloc: Global, layer: &Layer<'_>) -> Result<Vec<Demand>, Fault> {
    let shape = document(alloc, layer)?;
    let Some(members) = shape.as_object() else {
        return Err(no_shape(alloc, layer, Vec::new(alloc), Flaw::NoObject)?);
    };
    let places = places_of(alloc, layer, members)?;
    let mut demands = Vec::new(alloc);
    for ((key, item), place) in members.iter().zip(&places) {
        let demand = match demand_of(place.clone()?, item) {
            Ok(demand) => demand,
            Err(wrong) => return Err(wrong_at(alloc, layer, key, wrong)?),
        };
        demands.push(closed(alloc, demand, is_closed(item), &places)?)?;
    }
    Ok(demands)
}

/// The places that the keys name.
fn places_of(alloc: Global, layer: &Layer<'_>, members: &Object) -> Result<Vec<Pointer>, Fault> {
    let mut places = Vec::new(alloc);
    for key in members.keys() {
        match pointer_of(alloc, key.as_str()) {
            Ok(place) => places.push(place)?,
            Err(PointerError::OutOfMemory) => return Err(Fault::OutOfMemory),
            Err(PointerError::NoSlash | PointerError::BadTilde) => {
                return Err(wrong_at(alloc, layer, key, Wrong::Demand(Flaw::BadTilde))?);
            }
        }
    }
    Ok(places)
}

/// The demand, which leaves an object no keys but those that the places name, if it is to be closed.
fn closed(
    alloc: Global,
    mut demand: Demand,
    is_closed: bool,
    places: &[Pointer],
) -> Result<Demand, AllocError> {
    if is_closed {
        demand.keys = Some(keys_below(alloc, &demand.place, places)?);
    }
    Ok(demand)
}

/// The tokens behind a place with which one of the places goes on, each once.
fn keys_below(alloc: Global, place: &Pointer, places: &[Pointer]) -> Result<Vec<String>, AllocError>
    ensures { IfOk result (λ v. (k : List ℕ) → is_one_of k (map string_bytes v.items) ≡ is_named k place.now places.now) }
{
    let mut keys = Vec::new(alloc);
    for other in places {
        if let Some(key) = next_token(place.tokens(), other.tokens()) {
            push_new(&mut keys, key)?;
        }
    }
    Ok(keys)
}

/// Puts a copy of the key behind the others, unless it is among them.
fn push_new(keys: &mut Vec<String>, key: &String) -> Result<(), AllocError>
    ensures { OnOk result ((k : List ℕ) → is_one_of k (map string_bytes keys.new.items) ≡ (is_one_of k (map string_bytes keys.old.items) || bytes_eq (string_bytes key.now) k)) }
{
    if !is_key_of(key.as_str(), keys) {
        keys.push(key.clone()?)?;
    }
    Ok(())
}

/// The token with which the tokens go on behind those of a place; None where they do not begin so.
fn next_token<'p>(place: &[String], tokens: &'p [String]) -> Option<&'p String>
    ensures { option_map (λ s. string_bytes s.now) result ≡ next_of (map string_bytes place.now) (map string_bytes tokens.now) }
{
    let mut front = place;
    let mut rest = tokens;
    while let [first, behind @ ..] = front {
        match rest {
            [token, tail @ ..] if token == first => {
                front = behind;
                rest = tail;
            }
            _ => return None,
        }
    }
    rest.first()
}

/// The fault of the demand of that key.
fn wrong_at(
    alloc: Global,
    layer: &Layer<'_>,
    key: &String,
    wrong: Wrong,
) -> Result<Fault, WriteError> {
    let mut tokens = Vec::new(alloc);
    tokens.push(key.clone()?)?;
    let flaw = match wrong {
        Wrong::OutOfMemory => return Ok(Fault::OutOfMemory),
        Wrong::Demand(flaw) => flaw,
        Wrong::Unknown(name) => {
            tokens.push(name)?;
            Flaw::Unknown
        }
        Wrong::Member(name, flaw) => {
            tokens.push(String::from_str(alloc, name)?)?;
            flaw
        }
    };
    no_shape(alloc, layer, tokens, flaw)
}

/// The fault of what stands at those tokens of a shape file.
fn no_shape(
    alloc: Global,
    layer: &Layer<'_>,
    tokens: Vec<String>,
    flaw: Flaw,
) -> Result<Fault, WriteError> {
    let at = match said_of(alloc, &layer.text, &tokens)? {
        Said::Value(at) | Said::Item(at, _) | Said::Null(at) => at,
        Said::Else | Said::Nothing(_) => 0,
    };
    let source = located(alloc, layer, at)?;
    let place = pointed(alloc, &Pointer::from_tokens(tokens))?;
    Ok(Fault::NoShape(format!(in alloc; "{source}: {place}: expected {flaw}")?))
}
