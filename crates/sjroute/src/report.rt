//! What is told on standard error.

use crate::routing::Route;
use sj_stream::Unread;
use std::io;

/// How many lines there were.
#[derive(Clone, Copy, Debug, Default, PartialEq, Eq)]
pub struct Counts {
    /// Lines with a text.
    pub lines: u64,
    /// Those that were not read.
    pub unread: u64,
    /// Messages that met no rule.
    pub unmet: u64,
}

/// Tells the counts, and how many lines each output took.
pub fn tell(rt: &impl Eprint, counts: Counts, routes: &[Route]) -> io::Result<()> {
    let Counts {
        lines,
        unread,
        unmet,
    } = counts;
    eprintln!(rt; "{lines} lines, {unread} not read, {unmet} met no rule")?;
    for route in routes {
        let count = route.count;
        let name = route.output.as_str();
        eprintln!(rt; "{count} to {name}")?;
    }
    Ok(())
}

/// Tells where lines were not read. What can't be told is left.
pub fn tell_broken(rt: &impl Eprint, broken: &[Unread]) {
    for line in broken {
        let _ = eprintln!(rt; "{line}");
    }
}

/// Tells how many lines there were so far, over the line that told it before.
pub fn tell_progress(rt: &impl Eprint, counts: Counts) {
    let lines = counts.lines;
    let _ = eprint!(rt; "{lines} lines\r");
}
