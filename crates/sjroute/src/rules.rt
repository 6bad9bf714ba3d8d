//! The routes of a file of rules.

use crate::flaw::{Flaw, RuleFault};
use crate::routing::{Route, Takes};
use crate::rule::{Rule, Test};
use sj_kinds::Kind;
use sj_owned::Value;
use sj_owned::prelude::*;
use sj_pointer::{Pointer, PointerError, pointer};
use std::alloc::{AllocError, AllocFailed, Global};

/// Why an item is no route.
#[derive(Drop)]
enum Wrong<'m> {
    Route(Flaw),
    /// For its member of that name.
    Member(&'m str, Flaw),
    OutOfMemory,
}

impl Wrong<'_> {
    /// The fault of the item at that place.
    fn at(self, alloc: Global, index: usize) -> RuleFault {
        match self {
            Wrong::Route(flaw) => RuleFault::Route(index, flaw),
            Wrong::Member(name, flaw) => match pointer_to(alloc, name) {
                Ok(place) => RuleFault::Member(index, place, flaw),
                Err(_) => RuleFault::OutOfMemory,
            },
            Wrong::OutOfMemory => RuleFault::OutOfMemory,
        }
    }
}

impl From<AllocError> for Wrong<'_> {
    fn from(_error: AllocError) -> Self {
        Wrong::OutOfMemory
    }
}

impl<T: Drop> From<AllocFailed<T>> for Wrong<'_> {
    fn from(_error: AllocFailed<T>) -> Self {
        Wrong::OutOfMemory
    }
}

/// The members that a route may have.
const MEMBERS: [&str; 7] = [
    "output", "pointer", "key", "value", "kind", "merge", "takes",
];

/// Those that are of a rule.
const OF_RULES: [&str; 4] = ["pointer", "key", "value", "kind"];

/// The routes that the document lists, in order.
pub fn routes_of(alloc: Global, document: &Value) -> Result<Vec<Route>, RuleFault> {
    let Some(items) = document.as_array() else {
        return Err(RuleFault::NoRoutes);
    };
    let mut routes = Vec::new(alloc);
    for (index, item) in items.iter().enumerate() {
        match route_of(alloc, item, &routes) {
            Ok(route) => {
                if routes.push(route).is_err() {
                    return Err(RuleFault::OutOfMemory);
                }
            }
            Err(wrong) => return Err(wrong.at(alloc, index)),
        }
    }
    Ok(routes)
}

/// The route of an item behind those.
fn route_of<'m>(alloc: Global, item: &'m Value, before: &[Route]) -> Result<Route, Wrong<'m>> {
    let Some(members) = item.as_object() else {
        return Err(Wrong::Route(Flaw::NoObject));
    };
    for key in members.keys() {
        if !MEMBERS.contains(&key.as_str()) {
            return Err(Wrong::Member(key.as_str(), Flaw::Unknown));
        }
    }
    let output = output_of(item, before)?;
    let merge = match item.get("merge") {
        Some(patch) => Some(patch.clone()?),
        None => None,
    };
    Ok(Route {
        output: String::from_str(alloc, output)?,
        takes: takes_of(alloc, item)?,
        merge,
        waiting: Vec::new(alloc),
        count: 0,
    })
}

/// The item's output, which no route before it has.
fn output_of<'m>(item: &'m Value, before: &[Route]) -> Result<&'m str, Wrong<'m>> {
    let Some(output) = item.get("output") else {
        return Err(Wrong::Route(Flaw::NoOutput));
    };
    let Some(output) = output.as_str() else {
        return Err(Wrong::Member("output", Flaw::NoString));
    };
    if before.iter().any(|route| route.output.as_str() == output) {
        return Err(Wrong::Member("output", Flaw::IsOutput));
    }
    Ok(output)
}

/// Which lines the item's output takes.
fn takes_of<'m>(alloc: Global, item: &'m Value) -> Result<Takes, Wrong<'m>> {
    let Some(takes) = item.get("takes") else {
        return Ok(Takes::Met(Rule {
            place: pointer_of(alloc, item)?,
            test: test_of(item)?,
        }));
    };
    for member in OF_RULES {
        if item.contains_key(member) {
            return Err(Wrong::Member("takes", Flaw::Beside(member)));
        }
    }
    match takes.as_str() {
        Some("unmet") => Ok(Takes::Unmet),
        Some("unread") if item.contains_key("merge") => {
            Err(Wrong::Member("merge", Flaw::MergeUnread))
        }
        Some("unread") => Ok(Takes::Unread),
        _ => Err(Wrong::Member("takes", Flaw::NoTakes)),
    }
}

/// The pointer to what the item's rule asks about: the whole message where it names none.
fn pointer_of<'m>(alloc: Global, item: &'m Value) -> Result<Pointer, Wrong<'m>> {
    match (item.get("pointer"), item.get("key")) {
        (None, None) => read_pointer(alloc, ""),
        (Some(text), None) => match text.as_str() {
            Some(text) => read_pointer(alloc, text),
            None => Err(Wrong::Member("pointer", Flaw::NoString)),
        },
        (None, Some(key)) => match key.as_str() {
            Some(key) => Ok(pointer_to(alloc, key)?),
            None => Err(Wrong::Member("key", Flaw::NoString)),
        },
        (Some(_), Some(_)) => Err(Wrong::Member("key", Flaw::Beside("pointer"))),
    }
}

fn read_pointer(alloc: Global, text: &str) -> Result<Pointer, Wrong<'static>> {
    match pointer(alloc, text) {
        Ok(place) => Ok(place),
        Err(PointerError::OutOfMemory) => Err(Wrong::OutOfMemory),
        Err(PointerError::NoSlash) => Err(Wrong::Member("pointer", Flaw::NoSlash)),
        Err(PointerError::BadTilde) => Err(Wrong::Member("pointer", Flaw::BadTilde)),
    }
}

/// The pointer of one token, the key.
pub fn pointer_to(alloc: Global, key: &str) -> Result<Pointer, AllocError> {
    let mut tokens = Vec::with_capacity(alloc, 1)?;
    tokens.push(String::from_str(alloc, key)?)?;
    Ok(Pointer::from_tokens(tokens))
}

/// What has to stand there.
fn test_of<'m>(item: &'m Value) -> Result<Test, Wrong<'m>> {
    match (item.get("value"), item.get("kind")) {
        (None, None) => Ok(Test::There),
        (Some(value), None) => Ok(Test::Same(value.clone()?)),
        (None, Some(kind)) => match kind.as_str().and_then(Kind::of_name) {
            Some(kind) => Ok(Test::Kind(kind)),
            None => Err(Wrong::Member("kind", Flaw::NoKind)),
        },
        (Some(_), Some(_)) => Err(Wrong::Member("kind", Flaw::Beside("value"))),
    }
}
