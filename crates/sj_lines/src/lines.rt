//! The lines of an input that have a text, one after another.

ghost use Rattle.std.specs.Prelude.{◌≡◌, ◌+◌, ◌<◌, ◌^◌, length};

use crate::length::{line_len, text_len};
use std::mem;

/// A line that has a text.
#[derive(Drop)]
pub struct Line<'i> {
    /// Which line of the input it is, from 1 on; lines without a text count too.
    pub number: usize,
    /// The line without its line feed and one carriage return in front of that.
    pub text: &'i mut [u8],
}

/// The lines of an input that have a text, one after another: an iterator.
#[derive(Drop)]
pub struct Lines<'i> {
    rest: &'i mut [u8],
    line: usize,
    ghost counted: { line + length rest.now < 2 ^ 64 },
}

impl<'i> Lines<'i> {
    ghost use Rattle.std.specs.Prelude.{suc};
    ghost use Rattle.sj_lines.specs.Lines.{full_lines, numbered, numbered_lines};
    ghost use Rattle.sj_lines.specs.Ahead.{ahead};

    /// Those of an input. It asks for no memory.
    pub fn new(input: &'i mut [u8]) -> Lines<'i>
        ensures { ahead result ≡ numbered_lines input.entry.now }
    {
        Lines {
            rest: input,
            line: 0,
        }
    }

    /// Those of an input behind so many lines, whose numbers go on: the first line has the number
    /// `before` + 1. It asks for no memory.
    pub fn behind(before: usize, input: &'i mut [u8]) -> Lines<'i>
        requires { before + length input.old < 2 ^ 64 }
        ensures { ahead result ≡ numbered (suc before) (full_lines input.entry.now) }
    {
        Lines {
            rest: input,
            line: before,
        }
    }
}

impl<'i> Iterator for Lines<'i> {
    type Item = Line<'i>;

    ghost use Rattle.std.specs.Iterator.{YieldsFirstBy, item_count};
    ghost use Rattle.sj_lines.specs.Ahead.{ahead, numbered_text};

    ghost next_gives = { YieldsFirstBy numbered_text ahead };

    ghost remaining = { item_count ahead };

    fn next(&mut self) -> Option<Line<'i>> {
        loop {
            let rest = mem::take(&mut self.rest);
            if rest.is_empty() {
                return None;
            }
            let len = line_len(rest);
            let (line, behind) = rest.split_at_mut(len);
            self.rest = behind;
            self.line += 1;
            let len = text_len(line);
            if len > 0 {
                let (text, _) = line.split_at_mut(len);
                return Some(Line {
                    number: self.line,
                    text,
                });
            }
        }
    }
}
