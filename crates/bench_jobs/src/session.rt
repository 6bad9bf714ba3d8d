//! Sessions of many short commands at a document, in each form and way.

ghost use Rattle.std.specs.Prelude.{◌<◌};

use crate::digest::Digest;
use crate::random::Random;
use crate::texts::{put, put_integer, put_number, put_sentence, put_words};
use sj_run::{Form, Way, session};
use sj_text_core::JsonError;
use std::alloc::{AllocError, Global};

const WAYS: [(Form, Way); 5] = [
    (Form::Owned, Way::ByText),
    (Form::Borrowed, Way::ByText),
    (Form::Lazy, Way::ByText),
    (Form::Owned, Way::ByKnownKey),
    (Form::Borrowed, Way::ByKnownKey),
];

/// A user: a name, roles, 60 scores and a profile of 36 fields.
fn put_user(out: &mut Vec<u8>, random: &mut Random) -> Result<(), AllocError> {
    put(out, "{\"name\":")?;
    put_sentence(out, random, 2)?;
    put(out, ",\"roles\":[\"admin\",\"guest\",")?;
    put_sentence(out, random, 3)?;
    put(out, "],\"scores\":[0")?;
    for _ in 0..59u32 {
        put(out, ",")?;
        put_integer(out, random, 12)?;
    }
    put(out, "],\"profile\":{\"field0\":0")?;
    for field in 1..36u64 {
        put(out, ",\"field")?;
        put_number(out, field)?;
        put(out, "\":")?;
        if field % 3 == 0 {
            put_integer(out, random, 9)?;
        } else {
            let words = random.below(20) + 1;
            put_sentence(out, random, words)?;
        }
    }
    put(out, "}}")
}

/// A path to a part of a user, and what it takes.
fn put_command(out: &mut Vec<u8>, random: &mut Random, users: u64) -> Result<(), AllocError>
    requires { 0 < users }
{
    let (name, part, takes) = match random.below(9) {
        0 => ("encode", "scores", ""),
        1 => ("str", "profile", ""),
        2 => ("put", "scores", ",12345"),
        3 => ("has", "profile", ",\"field17\""),
        4 => ("insert", "profile", ",\"field40\",[1,{\"a\":true}]"),
        5 => ("remove", "profile", ",\"field40\""),
        6 => ("fits", "scores", ",\"u16\""),
        7 => ("len", "roles", ""),
        _ => ("pointer", "", ""),
    };
    let user = random.below(users);
    if name == "pointer" {
        put(out, "[\"str\",\"/user")?;
        put_number(out, user)?;
        return put(out, "/profile/field1\"]\n");
    }
    put(out, "[\"")?;
    put(out, name)?;
    put(out, "\",[\"user")?;
    put_number(out, user)?;
    put(out, "\",\"")?;
    put(out, part)?;
    put(out, "\"")?;
    if part == "scores" {
        put(out, ",")?;
        put_number(out, random.below(60))?;
    } else if name == "str" {
        put(out, ",\"field")?;
        put_number(out, random.below(40))?;
        put(out, "\"")?;
    }
    put(out, "]")?;
    put(out, takes)?;
    put(out, "]\n")
}

/// A document of so many users, and so many command lines.
fn session_of(
    alloc: Global,
    random: &mut Random,
    users: u64,
    commands: u64,
) -> Result<Vec<u8>, AllocError>
    requires { 0 < users }
{
    let mut out = Vec::with_capacity(alloc, 1 << 20)?;
    put(&mut out, "{\"title\":\"")?;
    put_words(&mut out, random, 3)?;
    put(&mut out, "\"")?;
    for user in 0..users {
        put(&mut out, ",\"user")?;
        put_number(&mut out, user)?;
        put(&mut out, "\":")?;
        put_user(&mut out, random)?;
    }
    put(&mut out, "}\n---\n")?;
    for _ in 0..commands {
        put_command(&mut out, random, users)?;
    }
    Ok(out)
}

pub fn run(
    alloc: Global,
    rounds: u64,
    commands: u64,
    random: &mut Random,
    digest: &mut Digest,
) -> Result<(), JsonError> {
    let mut replies = Vec::new(alloc);
    for _ in 0..rounds {
        for (form, way) in WAYS {
            let users = 20 + random.below(commands / 60 + 1);
            let mut input = session_of(alloc, random, users, commands)?;
            replies.clear();
            session(alloc, form, way, &mut input, &mut replies)?;
            digest.add_bytes(&replies);
        }
    }
    Ok(())
}
