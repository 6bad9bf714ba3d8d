//! Answers patches, merges and differences, one a line, for `tools/patches.py`:
//!
//!     patch_lines FORM    of documents in that form: owned or borrowed
//!
//! Each line of standard input is an array of a word and two documents, and is answered by a line:
//!
//!     ["patch", DOCUMENT, PATCH]    the document, patched; or what is refused, and both as they are then
//!     ["merge", DOCUMENT, PATCH]    the document, merged
//!     ["diff", FIRST, SECOND]       the difference, and the first patched by it
//!     ["merge_diff", FIRST, SECOND] the merge patch, and the first merged with it; or that there is none
//!
//! What is refused begins the line, behind a `!`; tabs are between what is told.
#![tactic(auto)]

mod answer;

use crate::answer::answer;
use anyhow::anyhow;
use sj_document::{BorrowedValue, OwnedValue};
use sj_lines::Lines;
use sj_object::deserialize;
use std::borrow::CowStr;
use std::env;
use std::io::{self, Read, Write};
use std::rt::Env;

fn answer_owned(rt: &(impl Print + AllocGlobal), input: &mut [u8]) -> anyhow::Result<()> {
    let alloc = rt.alloc();
    let mut out = Vec::new(alloc);
    for line in Lines::new(input) {
        let document = deserialize::<OwnedValue, String>(alloc, line.text)?;
        answer(alloc, document, &mut out)?;
    }
    Ok(io::writer(rt).write_all(out.as_slice())?)
}

fn answer_borrowed(rt: &(impl Print + AllocGlobal), input: &mut [u8]) -> anyhow::Result<()> {
    let alloc = rt.alloc();
    let mut out = Vec::new(alloc);
    for line in Lines::new(input) {
        let document = deserialize::<BorrowedValue<'_>, CowStr<'_>>(alloc, line.text)?;
        answer(alloc, document, &mut out)?;
    }
    Ok(io::writer(rt).write_all(out.as_slice())?)
}

fn run(rt: &(impl Env + Input + Print + AllocGlobal)) -> anyhow::Result<()> {
    let alloc = rt.alloc();
    let words: Vec<String> = env::args(rt)?.skip(1).collect(alloc)?;
    let mut input = Vec::new(alloc);
    rt.reader().read_to_end(&mut input)?;
    match words.first() {
        Some(form) if form.as_str() == "owned" => answer_owned(rt, &mut input),
        Some(form) if form.as_str() == "borrowed" => answer_borrowed(rt, &mut input),
        _ => Err(anyhow!("usage: patch_lines FORM")),
    }
}

fn main(rt: HostRuntime) -> anyhow::Result<()> {
    run(&rt)
}
