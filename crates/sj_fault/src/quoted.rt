//! A text between quotes, byte by byte (RFC 8259, section 7).

use sj_text_core::ErrorKind;
use std::alloc::AllocError;

/// Where in a text between quotes a byte stands.
#[derive(Clone, Copy, Debug, PartialEq, Eq)]
pub(crate) enum Quoted {
    /// Between two characters.
    Between,
    /// In a character of several bytes: how many are left, and the range of the next one.
    Character { left: u8, low: u8, high: u8 },
    /// Behind a backslash, that of a low surrogate or any other.
    Escape { low: bool },
    /// Behind a high surrogate.
    High,
    /// In the four digits of a unit: how many stand, and what they write; of a low surrogate or of
    /// any other unit.
    Unit { count: u8, value: u32, low: bool },
    /// Behind the closing quote.
    Closed,
}

impl Quoted {
    /// Where the next byte stands behind this one.
    pub(crate) fn step(self, byte: u8) -> Result<Quoted, ErrorKind> {
        match self {
            Quoted::Between => step_between(byte),
            Quoted::Character { left, low, high } => step_character(left, low, high, byte),
            Quoted::Escape { low } => step_escape(low, byte),
            Quoted::High => match byte {
                b'\\' => Ok(Quoted::Escape { low: true }),
                _ => Err(ErrorKind::LoneSurrogate),
            },
            Quoted::Unit { count, value, low } => step_unit(count, value, low, byte),
            Quoted::Closed => Err(ErrorKind::Syntax),
        }
    }

    /// Writes bytes that end the text from here.
    pub(crate) fn push_ending(self, out: &mut Vec<u8>) -> Result<(), AllocError> {
        match self {
            Quoted::Between => out.extend_from_slice(b"\""),
            Quoted::Character { left, low, .. } => {
                out.push(low)?;
                out.extend_from_slice(match left {
                    0 | 1 => b"\"",
                    2 => b"\x80\"",
                    _ => b"\x80\x80\"",
                })
            }
            Quoted::Escape { low: true } => out.extend_from_slice(b"udc00\""),
            Quoted::Escape { low: false } => out.extend_from_slice(b"n\""),
            Quoted::High => out.extend_from_slice(b"\\udc00\""),
            Quoted::Unit { count, value, low } => out.extend_from_slice(unit_end(
                count, value, low,
            )),
            Quoted::Closed => Ok(()),
        }
    }
}

fn step_between(byte: u8) -> Result<Quoted, ErrorKind> {
    match byte {
        b'"' => Ok(Quoted::Closed),
        b'\\' => Ok(Quoted::Escape { low: false }),
        0..=0x1F => Err(ErrorKind::Syntax),
        0x20..=0x7F => Ok(Quoted::Between),
        _ => first_of_character(byte),
    }
}

/// Behind the first byte of a character of two to four (RFC 3629, section 4).
fn first_of_character(byte: u8) -> Result<Quoted, ErrorKind> {
    let (left, low, high) = match byte {
        0xC2..=0xDF => (1, 0x80, 0xBF),
        0xE0 => (2, 0xA0, 0xBF),
        0xED => (2, 0x80, 0x9F),
        0xE1..=0xEF => (2, 0x80, 0xBF),
        0xF0 => (3, 0x90, 0xBF),
        0xF1..=0xF3 => (3, 0x80, 0xBF),
        0xF4 => (3, 0x80, 0x8F),
        _ => return Err(ErrorKind::InvalidUtf8),
    };
    Ok(Quoted::Character { left, low, high })
}

fn step_character(left: u8, low: u8, high: u8, byte: u8) -> Result<Quoted, ErrorKind> {
    if byte < low || byte > high {
        Err(ErrorKind::InvalidUtf8)
    } else if left <= 1 {
        Ok(Quoted::Between)
    } else {
        Ok(Quoted::Character {
            left: left - 1,
            low: 0x80,
            high: 0xBF,
        })
    }
}

fn step_escape(low: bool, byte: u8) -> Result<Quoted, ErrorKind> {
    match byte {
        b'u' => Ok(Quoted::Unit {
            count: 0,
            value: 0,
            low,
        }),
        b'"' | b'\\' | b'/' | b'b' | b'f' | b'n' | b'r' | b't' if low => Err(
            ErrorKind::LoneSurrogate,
        ),
        b'"' | b'\\' | b'/' | b'b' | b'f' | b'n' | b'r' | b't' => Ok(Quoted::Between),
        _ => Err(ErrorKind::Syntax),
    }
}

fn hexadecimal_digit(byte: u8) -> Option<u32> {
    match byte {
        b'0'..=b'9' => Some(u32::from(byte - b'0')),
        b'a'..=b'f' => Some(u32::from(byte - b'a') + 10),
        b'A'..=b'F' => Some(u32::from(byte - b'A') + 10),
        _ => None,
    }
}

/// Behind one more digit of a unit. One that can't be completed any more to what is due is refused.
fn step_unit(count: u8, value: u32, low: bool, byte: u8) -> Result<Quoted, ErrorKind> {
    let Some(digit) = hexadecimal_digit(byte) else {
        return Err(ErrorKind::Syntax);
    };
    let value = value.wrapping_mul(16).wrapping_add(digit);
    let is_lone = match (low, count) {
        (true, 0) => value != 0xD,
        (true, 1) => value < 0xDC,
        (false, 1) => (0xDC..=0xDF).contains(&value),
        _ => false,
    };
    if is_lone {
        Err(ErrorKind::LoneSurrogate)
    } else if count < 3 {
        Ok(Quoted::Unit {
            count: count + 1,
            value,
            low,
        })
    } else if !low && (0xD800..=0xDBFF).contains(&value) {
        Ok(Quoted::High)
    } else {
        Ok(Quoted::Between)
    }
}

/// Bytes that end the text behind so many digits of a unit.
fn unit_end(count: u8, value: u32, low: bool) -> &'static [u8] {
    let is_high = match count {
        2 => (0xD8..=0xDB).contains(&value),
        3 => (0xD80..=0xDBF).contains(&value),
        _ => false,
    };
    match (low, count) {
        (true, 0) => b"dc00\"",
        (true, 1) => b"c00\"",
        (false, 2) if is_high => b"00\\udc00\"",
        (false, 3) if is_high => b"0\\udc00\"",
        (false, 0) => b"0000\"",
        (false, 1) => b"000\"",
        (_, 2) => b"00\"",
        _ => b"0\"",
    }
}
