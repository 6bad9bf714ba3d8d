//! Texts to read, written by a seeded generator.

ghost use Rattle.std.specs.Prelude.{◌<◌, length};

use crate::records::put_record;
use std::alloc::{AllocError, Global};

#[derive(Clone, Copy, Debug)]
pub enum Kind {
    /// Objects of nine short members.
    Records,
    /// The same, a member a line.
    Indented,
    /// Numbers of up to 12 digits.
    Integers,
    /// Objects of 30 to 70 members with numbers of each length up to 20 digits.
    Catalogue,
    /// Texts of some 350 bytes.
    LongTexts,
    /// Short texts with some escapes, indented.
    Messages,
    /// Texts with an escape every 20 bytes.
    Escapes,
    /// Arrays and objects in one another, up to 100 deep.
    Nested,
}

impl Kind {
    pub const ALL: [Kind; 8] = [
        Kind::Records,
        Kind::Indented,
        Kind::Integers,
        Kind::Catalogue,
        Kind::LongTexts,
        Kind::Messages,
        Kind::Escapes,
        Kind::Nested,
    ];

    pub fn name(self) -> &'static str {
        match self {
            Kind::Records => "records",
            Kind::Indented => "indented",
            Kind::Integers => "integers",
            Kind::Catalogue => "catalogue",
            Kind::LongTexts => "long",
            Kind::Messages => "messages",
            Kind::Escapes => "escapes",
            Kind::Nested => "nested",
        }
    }
}

pub const WORDS: [&str; 16] = [
    "paper", "window", "harbour", "signal", "green", "of", "the", "morning", "seven", "bridge",
    "at", "quiet", "river", "and", "stone", "lamp",
];

const ACCENTS: [&str; 4] = ["é", "日本語", "über", "東京"];

const ESCAPES: [&str; 4] = ["\\n", "https:\\/\\/t.co\\/", "\\\"", "\\u3042"];

const MARKS: [&str; 10] = [
    "\\n",
    "\\t",
    "\\\"",
    "\\\\",
    "\\/",
    "\\u00e9",
    "\\u3042",
    "\\u20AC",
    "\\ud83d\\ude00",
    "\\uD834\\uDD1E",
];

/// A generator by shifts, the same at each run.
#[derive(Drop)]
pub struct Random {
    state: u64,
}

impl Random {
    pub fn new() -> Random {
        Random {
            state: 0x9e37_79b9_7f4a_7c15,
        }
    }

    fn next(&mut self) -> u64 {
        let mut x = self.state;
        x = x ^ (x << 13);
        x = x ^ (x >> 7);
        x = x ^ (x << 17);
        self.state = x;
        x
    }

    /// A number below `limit`.
    pub fn below(&mut self, limit: u64) -> u64
        requires { 0 < limit }
        ensures { result < limit }
    {
        self.next() % limit
    }
}

pub fn pick(random: &mut Random, from: &[&'static str]) -> &'static str
    requires { 0 < length from.now }
{
    from[random.below(from.len() as u64) as usize]
}

pub fn put(out: &mut Vec<u8>, text: &str) -> Result<(), AllocError> {
    out.extend_from_slice(text.as_bytes())?;
    Ok(())
}

pub fn put_number(out: &mut Vec<u8>, number: u64) -> Result<(), AllocError> {
    let mut buffer = itoa::Buffer::new();
    put(out, buffer.format(number))
}

fn put_words(out: &mut Vec<u8>, random: &mut Random, count: u64) -> Result<(), AllocError> {
    for i in 0..count {
        if i > 0 {
            put(out, " ")?;
        }
        put(out, pick(random, &WORDS))?;
    }
    Ok(())
}

fn put_integer(out: &mut Vec<u8>, random: &mut Random) -> Result<(), AllocError> {
    let digits = random.below(12) as u32;
    let limit = 10_u64
        .checked_pow(digits)
        .unwrap_or(1)
        .saturating_mul(10)
        .max(1);
    if random.below(4) == 0 {
        put(out, "-")?;
    }
    let number = random.below(limit) | 1;
    put_number(out, number)
}

fn put_long(out: &mut Vec<u8>, random: &mut Random) -> Result<(), AllocError> {
    put(out, "\"")?;
    put_words(out, random, 64)?;
    put(out, "\"")
}

fn put_sentence(out: &mut Vec<u8>, random: &mut Random) -> Result<(), AllocError> {
    for _ in 0..random.below(4) + 1 {
        let count = random.below(6) + 1;
        put_words(out, random, count)?;
        put(out, " ")?;
        if random.below(2) == 0 {
            put(out, pick(random, &ACCENTS))?;
        } else {
            put(out, pick(random, &ESCAPES))?;
        }
    }
    Ok(())
}

/// One message with its writer, indented, with escapes and letters past ASCII.
fn put_message(out: &mut Vec<u8>, random: &mut Random) -> Result<(), AllocError> {
    put(
        out,
        "\n    {\n      \"created_at\": \"Sun Aug 31 00:29:15 +0000 2014\",\n      \"id\": ",
    )?;
    put_number(out, random.next() >> 5)?;
    put(out, ",\n      \"text\": \"")?;
    put_sentence(out, random)?;
    put(
        out,
        "\",\n      \"truncated\": false,\n      \"in_reply_to_status_id\": null,\n      \"user\": {\n        \"id\": ",
    )?;
    put_number(out, random.below(3_000_000_000))?;
    put(out, ",\n        \"name\": \"")?;
    put_words(out, random, 2)?;
    put(out, "\",\n        \"description\": \"")?;
    put_sentence(out, random)?;
    put(out, "\",\n        \"followers_count\": ")?;
    put_number(out, random.below(5000))?;
    put(
        out,
        ",\n        \"protected\": false\n      },\n      \"retweet_count\": ",
    )?;
    put_number(out, random.below(100))?;
    put(
        out,
        ",\n      \"hashtags\": [],\n      \"lang\": \"ja\"\n    }",
    )
}

fn put_line(out: &mut Vec<u8>, key: &str) -> Result<(), AllocError> {
    put(out, "\n    \"")?;
    put(out, key)?;
    put(out, "\": ")
}

fn put_indented(out: &mut Vec<u8>, random: &mut Random) -> Result<(), AllocError> {
    put(out, "\n  {")?;
    put_line(out, "id")?;
    put_number(out, random.below(1_000_000))?;
    put(out, ",")?;
    put_line(out, "name")?;
    put(out, "\"")?;
    put_words(out, random, 2)?;
    put(out, "\",")?;
    put_line(out, "active")?;
    put(out, "true,")?;
    put_line(out, "balance")?;
    put(out, "-")?;
    put_number(out, random.below(100_000) | 1)?;
    put(out, ",")?;
    put_line(out, "tags")?;
    put(out, "[\n      \"")?;
    put_words(out, random, 1)?;
    put(out, "\",\n      \"")?;
    put_words(out, random, 1)?;
    put(out, "\"\n    ],")?;
    put_line(out, "next")?;
    put(out, "null\n  }")
}

/// A number of that many digits, at most 20; one of 20 is below 2 ^ 64, one of 19 below 2 ^ 63.
fn put_digits(out: &mut Vec<u8>, random: &mut Random, digits: u32) -> Result<(), AllocError> {
    if digits == 20 {
        let number = 10_000_000_000_000_000_000 + random.below(8_000_000_000_000_000_000);
        return put_number(out, number);
    }
    let least = 10_u64.checked_pow(digits.max(1) - 1).unwrap_or(1).max(1);
    let span = least.saturating_mul(8).max(1);
    let number = random.below(span).saturating_add(least);
    put_number(out, number)
}

fn put_entry(out: &mut Vec<u8>, random: &mut Random) -> Result<(), AllocError> {
    put(out, "{\"code\":\"")?;
    put_words(out, random, 1)?;
    put(out, "\"")?;
    for i in 0..random.below(41) + 29 {
        put(out, ",\"")?;
        put(out, pick(random, &WORDS))?;
        put_number(out, i)?;
        put(out, "\":")?;
        let digits = random.below(20) as u32 + 1;
        if digits < 20 && random.below(4) == 0 {
            put(out, "-")?;
        }
        put_digits(out, random, digits)?;
    }
    put(out, "}")
}

fn put_escaped(out: &mut Vec<u8>, random: &mut Random) -> Result<(), AllocError> {
    put(out, "\"")?;
    for _ in 0..random.below(24) + 1 {
        put_words(out, random, 3)?;
        put(out, pick(random, &MARKS))?;
    }
    put(out, "\"")
}

fn put_nested(out: &mut Vec<u8>, random: &mut Random) -> Result<(), AllocError> {
    let depth = random.below(100) as usize + 1;
    let mut is_list: [bool; 100] = [false; 100];
    for level in 0..depth {
        is_list[level] = random.below(2) == 0;
        if is_list[level] {
            put(out, "[")?;
            put_number(out, random.below(100))?;
            put(out, ",")?;
        } else {
            put(out, "{\"")?;
            put(out, pick(random, &WORDS))?;
            put(out, "\":")?;
        }
    }
    put(out, "null")?;
    for level in 0..depth {
        if is_list[depth - 1 - level] {
            put(out, "]")?;
        } else {
            put(out, "}")?;
        }
    }
    Ok(())
}

fn put_one(out: &mut Vec<u8>, random: &mut Random, kind: Kind) -> Result<(), AllocError> {
    match kind {
        Kind::Records => put_record(out, random, false),
        Kind::Indented => put_indented(out, random),
        Kind::Integers => put_integer(out, random),
        Kind::Catalogue => put_entry(out, random),
        Kind::LongTexts => put_long(out, random),
        Kind::Messages => put_message(out, random),
        Kind::Escapes => put_escaped(out, random),
        Kind::Nested => put_nested(out, random),
    }
}

/// A text of about that many bytes, an array.
pub fn text_of(alloc: Global, kind: Kind, size: usize) -> Result<Vec<u8>, AllocError> {
    let mut out = Vec::with_capacity(alloc, size)?;
    let mut random = Random::new();
    put(&mut out, "[")?;
    for i in 0..size {
        if out.len() >= size {
            break;
        }
        if i > 0 {
            put(&mut out, ",")?;
        }
        put_one(&mut out, &mut random, kind)?;
    }
    put(&mut out, "]")?;
    Ok(out)
}
