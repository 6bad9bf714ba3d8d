//! What may come next.

use crate::number::Number;
use crate::quoted::Quoted;
use std::alloc::AllocError;

/// What a text is in the middle of.
#[derive(Clone, Copy, Debug, PartialEq, Eq)]
pub(crate) enum State {
    /// In front of a value; right behind an opening bracket also of the closing one.
    Value { is_first: bool },
    /// In front of a key; right behind an opening brace also of the closing one.
    Key { is_first: bool },
    /// Behind a key.
    Colon,
    /// Behind a value.
    Behind,
    /// In a word, with the letters that are left.
    Word(&'static [u8]),
    /// In a text between quotes: a key, or a value.
    Text { is_key: bool, quoted: Quoted },
    /// Behind a minus sign.
    Minus,
    /// Behind a digit of a number.
    Number(Number),
}

impl State {
    /// Writes bytes that end what is begun, up to what stands behind a value.
    pub(crate) fn push_ending(self, out: &mut Vec<u8>) -> Result<(), AllocError> {
        match self {
            State::Value { is_first: false } | State::Minus => out.extend_from_slice(b"0"),
            State::Key { is_first: false } => out.extend_from_slice(b"\"\":0"),
            State::Colon => out.extend_from_slice(b":0"),
            State::Word(letters) => out.extend_from_slice(letters),
            State::Text { is_key, quoted } => {
                quoted.push_ending(out)?;
                if is_key {
                    out.extend_from_slice(b":0")?;
                }
                Ok(())
            }
            State::Value { is_first: true }
            | State::Key { is_first: true }
            | State::Behind
            | State::Number(_) => Ok(()),
        }
    }
}
