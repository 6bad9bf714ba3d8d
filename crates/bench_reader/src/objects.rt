//! Objects of many members, whose keys have one length.

use crate::texts::{Random, put, put_number};
use std::alloc::{AllocError, Global};

/// What the members hold.
#[derive(Clone, Copy, Debug)]
pub enum Shape {
    /// A number.
    Scalars,
    /// By turns a number, an array in an array, a text, an object, a plain array and `true`.
    Mixed,
    /// An array of two numbers.
    Pairs,
    /// An object of three members.
    Records,
    /// An array of up to seven numbers.
    Arrays,
    /// An array of ten numbers.
    Wide,
}

impl Shape {
    pub const ALL: [Shape; 6] = [
        Shape::Scalars,
        Shape::Mixed,
        Shape::Pairs,
        Shape::Records,
        Shape::Arrays,
        Shape::Wide,
    ];

    pub fn name(self) -> &'static str {
        match self {
            Shape::Scalars => "scalars",
            Shape::Mixed => "mixed",
            Shape::Pairs => "pairs",
            Shape::Records => "records",
            Shape::Arrays => "arrays",
            Shape::Wide => "wide",
        }
    }

    pub fn named(name: &str) -> Option<Shape> {
        for shape in Shape::ALL {
            if shape.name() == name {
                return Some(shape);
            }
        }
        None
    }
}

/// An object that can be written.
#[derive(Clone, Copy, Debug)]
pub struct Outline {
    pub shape: Shape,
    pub members: usize,
    /// The bytes of each key, 5 or more.
    pub key_len: usize,
}

impl Outline {
    /// The key of the member with that number: letters, and five digits or more.
    pub fn key(&self, alloc: Global, number: usize) -> Result<String, AllocError> {
        let digits = format!(in alloc; "{number:05}")?;
        let mut key = String::new(alloc);
        for _ in digits.len()..self.key_len {
            key.push_str("m")?;
        }
        key.push_str(digits.as_str())?;
        Ok(key)
    }

    /// The object's text.
    pub fn text(&self, alloc: Global) -> Result<Vec<u8>, AllocError> {
        let mut out = Vec::new(alloc);
        let mut random = Random::new();
        put(&mut out, "{")?;
        for number in 0..self.members {
            if number > 0 {
                put(&mut out, ",")?;
            }
            put(&mut out, "\"")?;
            put(&mut out, self.key(alloc, number)?.as_str())?;
            put(&mut out, "\":")?;
            put_value(&mut out, &mut random, self.shape, number as u64)?;
        }
        put(&mut out, "}")?;
        Ok(out)
    }
}

/// Puts an array of so many zeros.
fn put_zeros(out: &mut Vec<u8>, count: u64) -> Result<(), AllocError> {
    put(out, "[")?;
    for i in 0..count {
        put(out, if i > 0 { ",0" } else { "0" })?;
    }
    put(out, "]")
}

fn put_mixed(out: &mut Vec<u8>, number: u64) -> Result<(), AllocError> {
    match number % 6 {
        0 => put_number(out, number),
        1 => put(out, "[1,[2,3]]"),
        2 => put(out, "\"text\""),
        3 => put(out, "{\"a\":1,\"b\":[1,2]}"),
        4 => put(out, "[1,2,3]"),
        _ => put(out, "true"),
    }
}

fn put_value(
    out: &mut Vec<u8>,
    random: &mut Random,
    shape: Shape,
    number: u64,
) -> Result<(), AllocError> {
    match shape {
        Shape::Scalars => put_number(out, number),
        Shape::Mixed => put_mixed(out, number),
        Shape::Pairs => put(out, "[1,2]"),
        Shape::Records => put(out, "{\"id\":1,\"name\":\"n\",\"tags\":[1,2]}"),
        Shape::Arrays => put_zeros(out, random.below(8)),
        Shape::Wide => put_zeros(out, 10),
    }
}
