//! The documents of an input, one after another, in memory that is used again.

ghost use Rattle.std.specs.Prelude.{◌≡◌, None, true, false, [], IfNone, IfSome, IfOk, option_map};
ghost use Rattle.sj_lines.specs.Lines.{numbered_lines};
ghost use Rattle.sj_stream.specs.Readings.{AreRefusals};

use crate::line_reader::LineReader;
use crate::unread::Unread;
use sj_lines::Lines;
use sj_tape::{Repeats, Value};
use std::alloc::{AllocError, Global};

/// The documents of an input of lines, each of which is one text.
///
/// Lines without a text are passed over, and counted. Only a document that has more nodes than
/// each before it makes the stream ask for memory, and with places a line that is longer than each
/// before it.
#[derive(Drop)]
pub struct Stream<'i> {
    lines: Lines<'i>,
    reader: LineReader<'i>,
}

impl<'i> Stream<'i> {
    ghost use Rattle.sj_tape.specs.Value.{tape_tree, tape_choice};
    ghost use Rattle.sj_lines.specs.Ahead.{ahead};
    ghost use Rattle.sj_stream.specs.Stream.{waiting, current, tells, text_kept, Steps};

    /// That of an input. It asks for no memory.
    pub fn new(alloc: Global, input: &'i mut [u8]) -> Stream<'i>
        ensures waiting { waiting result ≡ numbered_lines input.entry.now }
        ensures current { current result ≡ None }
        ensures tells { tells result ≡ false }
    {
        Stream::of_lines(alloc, Lines::new(input))
    }

    /// That of lines, as `Lines::behind` and `sj_pieces` number them. It asks for no memory.
    pub fn of_lines(alloc: Global, lines: Lines<'i>) -> Stream<'i>
        ensures waiting { waiting result ≡ ahead lines.entry }
        ensures current { current result ≡ None }
        ensures tells { tells result ≡ false }
    {
        Stream {
            lines,
            reader: LineReader::new(alloc),
        }
    }

    /// The same, which from now on keeps each line's text as it came, and tells the places of faults.
    pub fn with_places(self) -> Stream<'i>
        ensures waiting { waiting result ≡ waiting self.entry }
        ensures current { current result ≡ current self.entry }
        ensures tells { tells result ≡ true }
    {
        Stream {
            lines: self.lines,
            reader: self.reader.with_places(),
        }
    }

    /// Reads the next line that has a text, and answers its number, or why it is not read; None
    /// where there is none any more. The next line is read whatever came of this one.
    pub fn advance(&mut self) -> Option<Result<usize, Unread>>
        ensures none { IfNone result (waiting self.old ≡ []) }
        ensures some { IfSome result (λ a. Steps self.old a self.new) }
        ensures tells { tells self.new ≡ tells self.old }
    {
        let line = self.lines.next()?;
        Some(self.reader.read(line))
    }

    /// The document of the line that was read last; None where it was not read, or where none was.
    pub fn value(&self, repeats: Repeats) -> Option<Value<'_, 'i>>
        ensures tree { option_map tape_tree result ≡ current self.now }
        ensures choice { IfSome result (λ v. tape_choice v ≡ repeats) }
    {
        self.reader.value(repeats)
    }

    /// The text of the line that was read last, as it came; None where no places are told, where memory
    /// for it was refused, and where none was read.
    pub fn text(&self) -> Option<&[u8]>
        ensures { option_map (λ t. t.now) result ≡ text_kept self.now }
    {
        self.reader.text()
    }
}

/// The lines that are not read, with why, in order: what a stream over the input answers. The bytes
/// of the input are changed by the reading.
pub fn unread_lines(alloc: Global, input: &mut [u8]) -> Result<Vec<Unread>, AllocError>
    ensures { IfOk result (λ found. AreRefusals (numbered_lines input.old) found.items) }
{
    let mut found = Vec::new(alloc);
    let mut stream = Stream::new(alloc, input);
    while let Some(answer) = stream.advance() {
        if let Err(unread) = answer {
            found.push(unread)?;
        }
    }
    Ok(found)
}
