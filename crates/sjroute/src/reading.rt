//! The routes of a file.

use crate::fault::Fault;
use crate::files::taken_output;
use crate::flaw::RuleFault;
use crate::routing::Route;
use crate::rules::{pointer_to, routes_of};
use sj_fault::fault_at;
use sj_owned::{ErrorKind, to_value};
use std::fs;
use std::rt::Files;

/// The routes that the file lists. No output is the file of rules, standard input's or another output,
/// where names tell.
pub fn read_routes<R: Files + AllocGlobal>(rt: &R, path: String) -> Result<Vec<Route>, Fault> {
    let Ok(mut bytes) = fs::read(rt, path.as_str()) else {
        return Err(Fault::NoRules(path));
    };
    let text = bytes.clone()?;
    let document = match to_value(rt.alloc(), &mut bytes) {
        Ok(document) => document,
        Err(ErrorKind::OutOfMemory) => return Err(Fault::OutOfMemory),
        Err(why) => return Err(Fault::unread(path, fault_at(&text), why)),
    };
    let routes = match routes_of(rt.alloc(), &document) {
        Ok(routes) => routes,
        Err(RuleFault::OutOfMemory) => return Err(Fault::OutOfMemory),
        Err(fault) => return Err(Fault::Rules(path, fault)),
    };
    match taken_output(rt, path.as_str(), &routes)? {
        None => Ok(routes),
        Some((index, flaw)) => {
            let member = pointer_to(rt.alloc(), "output")?;
            Err(Fault::Rules(path, RuleFault::Member(index, member, flaw)))
        }
    }
}
