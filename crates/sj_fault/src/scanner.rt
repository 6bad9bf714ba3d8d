//! One byte after another, with no memory and no recursion.

ghost use Rattle.std.specs.Prelude.{◌≤◌};

use crate::number::Number;
use crate::quoted::Quoted;
use crate::state::State;
use sj_text_core::ErrorKind;
use std::alloc::AllocError;

/// How many arrays and objects may be open at once.
const DEPTH: usize = 1024;

/// What is open, and what may come next.
#[derive(Drop)]
pub(crate) struct Scanner {
    state: State,
    depth: usize,
    /// Whether what is open at a depth is an object.
    objects: [bool; 1024],
    ghost bounded: { depth ≤ 1024 },
}

impl Scanner {
    /// In front of a text.
    pub(crate) fn new() -> Scanner {
        Scanner {
            state: State::Value { is_first: false },
            depth: 0,
            objects: [false; 1024],
        }
    }

    /// Goes over a byte; refused where no readable text goes on with it.
    pub(crate) fn step(&mut self, byte: u8) -> Result<(), ErrorKind> {
        self.state = self.behind_byte(byte)?;
        Ok(())
    }

    /// Whether the text may end here.
    pub(crate) fn is_end(&self) -> bool {
        self.depth == 0 && matches!(self.state, State::Behind | State::Number(_))
    }

    /// Writes bytes that end the text from here.
    pub(crate) fn push_ending(&self, out: &mut Vec<u8>) -> Result<(), AllocError> {
        self.state.push_ending(out)?;
        for is_object in self.objects[..self.depth].iter().rev() {
            out.push(if *is_object { b'}' } else { b']' })?;
        }
        Ok(())
    }

    fn behind_byte(&mut self, byte: u8) -> Result<State, ErrorKind> {
        match self.state {
            State::Value { .. } | State::Key { .. } | State::Colon | State::Behind
                if is_blank(byte) => { Ok(self.state) }
            State::Value { is_first } => self.step_value(is_first, byte),
            State::Key { is_first } => self.step_key(is_first, byte),
            State::Colon => match byte {
                b':' => Ok(State::Value { is_first: false }),
                _ => Err(ErrorKind::Syntax),
            },
            State::Behind => self.step_behind(byte),
            State::Word(letters) => step_word(letters, byte),
            State::Text { is_key, quoted } => step_text(is_key, quoted, byte),
            State::Minus => match byte {
                b'0'..=b'9' => Ok(State::Number(Number::new(true, byte - b'0'))),
                _ => Err(ErrorKind::Syntax),
            },
            State::Number(number) => self.step_number(number, byte),
        }
    }

    fn step_value(&mut self, is_first: bool, byte: u8) -> Result<State, ErrorKind> {
        match byte {
            b'[' => self.open(false),
            b'{' => self.open(true),
            b']' if is_first => self.close(false),
            b'"' => Ok(State::Text {
                is_key: false,
                quoted: Quoted::Between,
            }),
            b'n' => Ok(State::Word(b"ull")),
            b't' => Ok(State::Word(b"rue")),
            b'f' => Ok(State::Word(b"alse")),
            b'-' => Ok(State::Minus),
            b'0'..=b'9' => Ok(State::Number(Number::new(false, byte - b'0'))),
            _ => Err(ErrorKind::Syntax),
        }
    }

    fn step_key(&mut self, is_first: bool, byte: u8) -> Result<State, ErrorKind> {
        match byte {
            b'"' => Ok(State::Text {
                is_key: true,
                quoted: Quoted::Between,
            }),
            b'}' if is_first => self.close(true),
            _ => Err(ErrorKind::Syntax),
        }
    }

    fn step_number(&mut self, number: Number, byte: u8) -> Result<State, ErrorKind> {
        match byte {
            b'0'..=b'9' => Ok(State::Number(number.with_digit(byte - b'0')?)),
            b'.' | b'e' | b'E' => Err(ErrorKind::Float),
            _ if is_blank(byte) => Ok(State::Behind),
            _ => self.step_behind(byte),
        }
    }

    fn step_behind(&mut self, byte: u8) -> Result<State, ErrorKind> {
        match byte {
            b',' if self.is_in_object() => Ok(State::Key { is_first: false }),
            b',' if self.depth > 0 => Ok(State::Value { is_first: false }),
            b']' => self.close(false),
            b'}' => self.close(true),
            _ => Err(ErrorKind::Syntax),
        }
    }

    fn open(&mut self, is_object: bool) -> Result<State, ErrorKind> {
        if self.depth >= DEPTH {
            return Err(ErrorKind::TooDeep);
        }
        self.objects[self.depth] = is_object;
        self.depth += 1;
        Ok(if is_object {
            State::Key { is_first: true }
        } else {
            State::Value { is_first: true }
        })
    }

    fn close(&mut self, is_object: bool) -> Result<State, ErrorKind> {
        if self.depth == 0 || self.is_in_object() != is_object {
            return Err(ErrorKind::Syntax);
        }
        self.depth -= 1;
        Ok(State::Behind)
    }

    fn is_in_object(&self) -> bool {
        self.depth > 0 && self.objects[self.depth - 1]
    }
}

fn is_blank(byte: u8) -> bool {
    matches!(byte, b' ' | b'\t' | b'\n' | b'\r')
}

fn step_word(letters: &'static [u8], byte: u8) -> Result<State, ErrorKind> {
    match letters {
        [first] if *first == byte => Ok(State::Behind),
        [first, rest @ ..] if *first == byte => Ok(State::Word(rest)),
        _ => Err(ErrorKind::Syntax),
    }
}

fn step_text(is_key: bool, quoted: Quoted, byte: u8) -> Result<State, ErrorKind> {
    Ok(match quoted.step(byte)? {
        Quoted::Closed if is_key => State::Colon,
        Quoted::Closed => State::Behind,
        quoted => State::Text { is_key, quoted },
    })
}
