//! The next piece of an input.

ghost use Rattle.std.specs.Prelude.{◌≡◌, ◌↔◌, ◌<◌, false, length, IfOk, OnOk, IsTrue};
ghost use Rattle.std.specs.Io.KnownBytes.{IsAtEnd};
ghost use Rattle.sj_pieces.specs.Pieces.{SplitsLines};

use std::io::{self, BufRead};

/// How many bytes are asked for at once.
const ROOM: usize = 1 << 18;

/// Puts the next piece in the place of the last: some bytes, and the rest of their last line. False
/// where nothing is left, and the piece is then empty. A read that fails leaves a part of a piece.
pub fn next_piece<R: BufRead>(reader: &mut R, piece: &mut Vec<u8>) -> io::Result<bool>
    // Where the reader's bytes are known, the lines of the piece and of what is left are those of both.
    ensures lines { OnOk result (SplitsLines (R.remaining reader.old) (R.remaining reader.new) piece.new.items) }
    ensures some { IfOk result (λ b. IsTrue b ↔ 0 < length piece.new.items) }
    ensures end { IfOk result (λ b. b ≡ false → IsAtEnd (R.remaining reader.new)) }
{
    piece.clear();
    piece.resize(ROOM, 0)?;
    let count = reader.read(piece.as_mut_slice())?;
    piece.truncate(count);
    if count > 0 && piece[count - 1] != b'\n' {
        reader.read_until(b'\n', piece)?;
    }
    Ok(count > 0)
}
