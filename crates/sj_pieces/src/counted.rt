//! Pieces whose lines are counted.

ghost use Rattle.std.specs.Prelude.{◌≡◌, ◌+◌, ◌<◌, ◌↔◌, ◌^◌, ◌⊎◌, false, length, suc, IfOk, OnErr, OnOk, IsTrue};
ghost use Rattle.std.specs.Io.KnownBytes.{IsAtEnd};
ghost use Rattle.sj_lines.specs.Lines.{full_lines, numbered};

use crate::pieces::next_piece;
use memchr::memrchr;
use sj_lines::{Lines, line_count};
use std::io::{self, BufRead, ErrorKind};

/// How many lines may be in front of a piece.
const MOST: usize = 1 << 63;

/// An input in pieces of full lines, and the numbers of their lines.
///
/// The memory of the pieces is the caller's, and is used again.
#[derive(Drop)]
pub struct Pieces<R> {
    reader: R,
    before: usize,
    count: usize,
    ghost counted: { before < 2 ^ 63 },
}

impl<R: BufRead + Drop> Pieces<R> {
    ghost use Rattle.sj_lines.specs.Ahead.{ahead};
    ghost use Rattle.sj_pieces.specs.Pieces.{SplitsLines};
    ghost use Rattle.sj_pieces.specs.Counted.{GoesOn, IsAsBefore, reader_of, lines_before, lines_of};

    /// Those of a reader's input. Nothing is read yet.
    pub fn new(reader: R) -> Self
        ensures reader { reader_of result ≡ reader }
        ensures before { lines_before result ≡ 0 }
        ensures lines { lines_of result ≡ 0 }
    {
        Pieces {
            reader,
            before: 0,
            count: 0,
        }
    }

    /// Puts the next piece in the place of the last: some bytes, and the rest of their last line. False
    /// where nothing is left, and the piece is then empty. A read that fails leaves as a piece the full
    /// lines that were read before it, and what is behind them is lost. Behind 2^63 lines nothing is read,
    /// and the piece stays: `FileTooLarge`.
    pub fn next_piece(&mut self, piece: &mut Vec<u8>) -> io::Result<bool>
        // Where the reader's bytes are known, the lines of the piece and of what is left are those of both.
        ensures split { OnOk result (SplitsLines (R.remaining (reader_of self.old)) (R.remaining (reader_of self.new)) piece.new.items) }
        ensures some { IfOk result (λ b. IsTrue b ↔ 0 < length piece.new.items) }
        ensures end { IfOk result (λ b. b ≡ false → IsAtEnd (R.remaining (reader_of self.new))) }
        ensures counted { OnOk result (GoesOn self.old self.new piece.new.items) }
        ensures failed { OnErr result (IsAsBefore self.old piece.old.items self.new piece.new.items ⊎ GoesOn self.old self.new piece.new.items) }
    {
        self.before = lines_in_front(self.before, self.count)?;
        let read = next_piece(&mut self.reader, piece);
        if read.is_err() {
            piece.truncate(memrchr(b'\n', piece).map_or(0, |end| end + 1));
        }
        self.count = line_count(piece);
        read
    }

    /// How many lines are in front of the piece.
    pub fn lines_before(&self) -> usize
        ensures count { result ≡ lines_before self.now }
        ensures within { result < 2 ^ 63 }
    {
        self.before
    }

    /// The lines of the piece, by their numbers in the whole input.
    pub fn lines<'p>(&self, piece: &'p mut [u8]) -> Lines<'p>
        ensures { ahead result ≡ numbered (suc (lines_before self.now)) (full_lines piece.entry.now) }
    {
        Lines::behind(self.before, piece)
    }
}

/// How many lines are in front of a piece behind those.
fn lines_in_front(before: usize, count: usize) -> io::Result<usize>
    ensures within { IfOk result (λ n. n < 2 ^ 63) }
    ensures sum { IfOk result (λ n. n ≡ before + count) }
{
    match before.checked_add(count) {
        Some(lines) if lines < MOST => Ok(lines),
        _ => Err(io::Error::from(ErrorKind::FileTooLarge)),
    }
}
