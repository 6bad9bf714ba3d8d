//! What the program does.

use crate::demand::Demand;
use crate::fault::{Fault, one_line};
use crate::input::{Layer, read_layer};
use crate::key::pointer_of;
use crate::output::{print_of, raw_of};
use crate::setting::{Setting, setting_of};
use crate::shapes::demands_of;
use crate::whole::checked_whole;
use crate::words::Task;
use sj_owned::Value;
use sj_path::owned::find;
use sj_pointer::{Pointer, PointerError};
use std::alloc::Global;
use std::io::{self, Write};
use std::rt::Files;

/// Merges, sets, checks and prints, as the words ask. After a fault nothing is printed, but where printing
/// itself fails.
pub fn work(rt: &(impl Files + Input + Print + AllocGlobal), task: &Task<'_>) -> Result<(), Fault> {
    if task.reads_input_twice() {
        return Err(Fault::InputTwice);
    }
    let alloc = rt.alloc();
    let place = pointer_of_get(alloc, task.get)?;
    let settings = settings_of(alloc, &task.settings)?;
    let layers = read_all(rt, &task.files)?;
    let demands = read_shape(rt, task.shape)?;
    let whole = checked_whole(alloc, &layers, &settings, &demands)?;
    print(rt, task, &whole, &place)
}

/// Where the value stands that is asked for; the whole where none is.
fn pointer_of_get(alloc: Global, word: Option<&str>) -> Result<Pointer, Fault> {
    let word = word.unwrap_or("");
    match pointer_of(alloc, word) {
        Ok(place) => Ok(place),
        Err(PointerError::OutOfMemory) => Err(Fault::OutOfMemory),
        Err(PointerError::NoSlash | PointerError::BadTilde) => {
            Err(Fault::NoPlace(one_line(alloc, word)?))
        }
    }
}

/// The settings of the words.
fn settings_of<'w>(alloc: Global, words: &[&'w str]) -> Result<Vec<Setting<'w>>, Fault> {
    let mut settings = Vec::new(alloc);
    for &word in words {
        match setting_of(alloc, word) {
            Ok(setting) => settings.push(setting)?,
            Err(why) => return Err(Fault::setting(alloc, word, why)?),
        }
    }
    Ok(settings)
}

/// The files of those paths.
fn read_all<'w>(
    rt: &(impl Files + Input + AllocGlobal),
    paths: &[&'w str],
) -> Result<Vec<Layer<'w>>, Fault> {
    let mut layers = Vec::new(rt.alloc());
    for &path in paths {
        layers.push(read_layer(rt, path)?)?;
    }
    Ok(layers)
}

/// The demands of the shape file, if there is one.
fn read_shape(
    rt: &(impl Files + Input + AllocGlobal),
    path: Option<&str>,
) -> Result<Vec<Demand>, Fault> {
    match path {
        Some(path) => demands_of(rt.alloc(), &read_layer(rt, path)?),
        None => Ok(Vec::new(rt.alloc())),
    }
}

/// Prints the whole, or the value that is asked for.
fn print(
    rt: &(impl Print + AllocGlobal),
    task: &Task<'_>,
    whole: &Value,
    place: &Pointer,
) -> Result<(), Fault> {
    let alloc = rt.alloc();
    let Some(value) = find(whole, place) else {
        return Err(Fault::Nothing(one_line(alloc, task.get.unwrap_or(""))?));
    };
    let text = if task.is_raw {
        raw_of(alloc, value, task.is_pretty)?
    } else {
        print_of(alloc, value, task.is_pretty)?
    };
    match io::writer(rt).write_all(text.as_slice()) {
        Ok(()) => Ok(()),
        Err(error) => Err(Fault::unwritten(error)),
    }
}
