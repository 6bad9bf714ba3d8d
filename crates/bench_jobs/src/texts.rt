//! JSON texts without a pattern.

ghost use Rattle.std.specs.Prelude.{◌<◌, length};

use crate::random::Random;
use std::alloc::{AllocError, Global};

const WORDS: [&str; 16] = [
    "paper", "window", "harbour", "signal", "green", "of", "the", "morning", "seven", "bridge",
    "at", "quiet", "river", "and", "stone", "lamp",
];

const PHRASES: [&str; 8] = [
    "a paper at the window",
    "the harbour of the morning",
    "seven green lamps and",
    "quiet as a river stone",
    "of the bridge and signal",
    "morning at the harbour",
    "stone and lamp and paper",
    "the signal of seven rivers",
];

const MARKS: [&str; 8] = [
    "\\n",
    "\\\"",
    "https:\\/\\/",
    "\\u3042",
    "\\ud83d\\ude00",
    "é",
    "東京",
    "\\t",
];

/// What a document holds.
#[derive(Clone, Copy, Debug)]
pub enum Kind {
    /// Events of some 800 bytes: texts, a few escapes, an object in an object.
    Events,
    /// Objects of six short members.
    Records,
    /// Objects of 30 to 1,000 numbers.
    Catalogue,
    /// Whole numbers of up to 18 digits.
    Integers,
    /// Arrays and objects in one another, up to 100 deep.
    Nested,
}

pub const KINDS: [Kind; 5] = [
    Kind::Events,
    Kind::Records,
    Kind::Catalogue,
    Kind::Integers,
    Kind::Nested,
];

pub fn put(out: &mut Vec<u8>, text: &str) -> Result<(), AllocError> {
    out.extend_from_slice(text.as_bytes())?;
    Ok(())
}

pub fn put_number(out: &mut Vec<u8>, number: u64) -> Result<(), AllocError> {
    put(out, itoa::Buffer::new().format(number))
}

/// One of the texts, behind a space where it is not the first.
fn put_next(
    out: &mut Vec<u8>,
    random: &mut Random,
    is_first: bool,
    texts: &[&'static str],
) -> Result<(), AllocError>
    requires { 0 < length texts.now }
{
    if !is_first {
        put(out, " ")?;
    }
    put(out, random.pick(texts))
}

/// So many words with spaces between them: phrases of four, and single ones.
pub fn put_words(out: &mut Vec<u8>, random: &mut Random, count: u64) -> Result<(), AllocError> {
    let phrases = count / 4;
    for i in 0..phrases {
        put_next(out, random, i == 0, &PHRASES)?;
    }
    put_single_words(out, random, phrases == 0, count % 4)
}

fn put_single_words(
    out: &mut Vec<u8>,
    random: &mut Random,
    is_first: bool,
    count: u64,
) -> Result<(), AllocError> {
    for i in 0..count {
        put_next(out, random, is_first && i == 0, &WORDS)?;
    }
    Ok(())
}

/// A text between quotes: so many words, and an escape or a letter past ASCII in one of four.
pub fn put_sentence(out: &mut Vec<u8>, random: &mut Random, words: u64) -> Result<(), AllocError> {
    put(out, "\"")?;
    put_words(out, random, words)?;
    if random.below(4) == 0 {
        put(out, random.pick(&MARKS))?;
    }
    put(out, "\"")
}

/// A number of up to so many digits, at most 18, a fourth of them below 0.
pub fn put_integer(out: &mut Vec<u8>, random: &mut Random, digits: u64) -> Result<(), AllocError> {
    if random.below(4) == 0 {
        put(out, "-")?;
    }
    let count = random.below(digits.clamp(1, 18)) as u32 + 1;
    let limit = 10_u64.checked_pow(count).unwrap_or(10).max(1);
    let number = random.below(limit) | 1;
    put_number(out, number)
}

/// An event of some 800 bytes.
pub fn put_event(out: &mut Vec<u8>, random: &mut Random) -> Result<(), AllocError> {
    put(out, "{\"created_at\":\"2014-08-31T00:29:15Z\",\"id\":")?;
    put_number(out, random.next() >> 5)?;
    put(out, ",\"topic\":\"")?;
    put(out, random.pick(&["news", "sport", "music"]))?;
    put(out, "\",\"text\":")?;
    put_sentence(out, random, 30)?;
    put(
        out,
        ",\"truncated\":false,\"in_reply_to\":null,\"user\":{\"id\":",
    )?;
    put_number(out, random.below(3_000_000_000))?;
    put(out, ",\"name\":")?;
    put_sentence(out, random, 2)?;
    put(out, ",\"description\":")?;
    put_sentence(out, random, 40)?;
    put(out, ",\"followers\":")?;
    put_number(out, random.below(5000))?;
    put(out, ",\"protected\":false},\"places\":[")?;
    put_number(out, random.below(100))?;
    put(out, ",")?;
    put_number(out, random.below(100_000))?;
    put(out, "],\"tags\":[")?;
    put_sentence(out, random, 1)?;
    put(out, ",")?;
    put_sentence(out, random, 1)?;
    put(out, "],\"lang\":\"ja\"}")
}

/// A record of six short members.
pub fn put_record(out: &mut Vec<u8>, random: &mut Random) -> Result<(), AllocError> {
    put(out, "{\"id\":")?;
    put_number(out, random.below(1_000_000))?;
    put(out, ",\"name\":")?;
    put_sentence(out, random, 2)?;
    put(out, ",\"active\":true,\"balance\":-")?;
    put_number(out, random.below(100_000) | 1)?;
    put(out, ",\"tags\":[")?;
    put_sentence(out, random, 1)?;
    put(out, "],\"next\":null}")
}

/// An object of so many numbers.
fn put_entry(out: &mut Vec<u8>, random: &mut Random, members: u64) -> Result<(), AllocError> {
    put(out, "{\"id\":")?;
    put_number(out, random.below(1_000_000))?;
    for i in 0..members {
        put(out, ",\"")?;
        put(out, random.pick(&WORDS))?;
        put_number(out, i)?;
        put(out, "\":")?;
        put_integer(out, random, 18)?;
    }
    put(out, "}")
}

/// Arrays and objects in one another, up to 100 deep, and an end.
fn put_nested(out: &mut Vec<u8>, random: &mut Random) -> Result<(), AllocError> {
    let depth = random.below(100) as usize + 1;
    let mut are_lists: [bool; 100] = [false; 100];
    for level in 0..depth {
        are_lists[level] = random.below(2) == 0;
        if are_lists[level] {
            put(out, "[")?;
            put_number(out, random.below(100))?;
            put(out, ",")?;
        } else {
            put(out, "{\"")?;
            put(out, random.pick(&WORDS))?;
            put(out, "\":")?;
        }
    }
    put(out, "null")?;
    for level in 0..depth {
        let end = if are_lists[depth - 1 - level] {
            "]"
        } else {
            "}"
        };
        put(out, end)?;
    }
    Ok(())
}

fn put_one(out: &mut Vec<u8>, random: &mut Random, kind: Kind) -> Result<(), AllocError> {
    match kind {
        Kind::Events => put_event(out, random),
        Kind::Records => put_record(out, random),
        Kind::Catalogue => {
            let members = if random.below(20) == 0 {
                1000
            } else {
                30 + random.below(60)
            };
            put_entry(out, random, members)
        }
        Kind::Integers => put_integer(out, random, 18),
        Kind::Nested => put_nested(out, random),
    }
}

/// An array of about that many bytes.
pub fn text_of(
    alloc: Global,
    random: &mut Random,
    kind: Kind,
    size: usize,
) -> Result<Vec<u8>, AllocError> {
    let mut out = Vec::with_capacity(alloc, size)?;
    put(&mut out, "[")?;
    for i in 0..size {
        if out.len() >= size {
            break;
        }
        if i > 0 {
            put(&mut out, ",")?;
        }
        put_one(&mut out, random, kind)?;
    }
    put(&mut out, "]")?;
    Ok(out)
}
