//! The files that lines are written to.

use crate::fault::Fault;
use crate::routing::Route;
use std::fs;
use std::io::{self, Write};
use std::rt::Files;

/// Where the lines of a route go.
#[derive(Drop)]
pub enum Output<F: Write + Drop> {
    Standard,
    File(F),
}

/// The outputs of the routes, in order: each file is made anew, and `-` is standard output.
pub fn open<R: Files + AllocGlobal>(
    rt: &R,
    routes: &[Route],
) -> Result<Vec<Output<R::File>>, Fault> {
    let mut outputs = Vec::new(rt.alloc());
    for route in routes {
        outputs.push(match route.output.as_str() {
            "-" => Output::Standard,
            path => match fs::create(rt, path) {
                Ok(file) => Output::File(file),
                Err(_) => return Err(Fault::Output(route.output.clone()?)),
            },
        })?;
    }
    Ok(outputs)
}

/// Writes the lines that wait.
pub fn write_all<R: Files + Print>(
    rt: &R,
    routes: &mut [Route],
    outputs: &mut [Output<R::File>],
) -> Result<(), Fault> {
    for (route, output) in routes.iter_mut().zip(outputs.iter_mut()) {
        if route.waiting.is_empty() {
            continue;
        }
        let written = match output {
            Output::Standard => io::writer(rt).write_all(&route.waiting),
            Output::File(file) => file.write_all(&route.waiting),
        };
        if written.is_err() {
            return Err(Fault::Output(route.output.clone()?));
        }
        route.waiting.clear();
    }
    Ok(())
}
