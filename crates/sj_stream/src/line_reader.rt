//! Lines, each read to a document, in memory that is used again.

ghost use Rattle.std.specs.Prelude.{◌≡◌, ◌≢◌, ◌↔◌, ◌⊎◌, None, Some, IfSome, IsTrue, IsUtf8, true, false, option_map};
ghost use Rattle.sj_stream.specs.Places.{IsPlaceOf, IsPlaced};
ghost use Rattle.sj_stream.specs.Kept.{keeps, kept_text};
ghost use Rattle.sj_stream.specs.inner.Kept.{IsRefused};

use crate::unread::{Place, Unread, place_in};
use sj_lines::Line;
use sj_tape::{ErrorKind, Repeats, Spare, Tape, Value, to_tape_with_spare};
use std::alloc::Global;
use std::{mem, str};

/// The document that stands, or the memory of the one before.
#[derive(Drop)]
pub(crate) enum Slot<'i> {
    Read(Tape<'i>),
    Spare(Spare<'i>),
}

/// Reads the lines of an input, one after another, each of which is one text.
///
/// Only a document that has more nodes than each before it makes it ask for memory, and with places a
/// line that is longer than each before it.
///
/// ```
/// let mut reader = LineReader::new(alloc).with_places();
/// for line in Lines::new(&mut input) {
///     match reader.read(line) {
///         Ok(number) => {
///             let id = reader.value(Repeats::First).and_then(|document| document.get_u64("id"));
///             println!(rt; "{number}: {id:?}")?; // 1: Some(1), and 3: Some(3)
///         }
///         Err(unread) => println!(rt; "{unread}")?, // line 2, column 7: syntax error
///     }
/// }
/// ```
#[derive(Drop)]
pub struct LineReader<'i> {
    alloc: Global,
    slot: Slot<'i>,
    kept: Kept,
}

/// What is kept of the line that was read last.
#[derive(Drop)]
pub(crate) enum Kept {
    Off,
    Text(Vec<u8>),
    /// Memory for the text was refused.
    Refused(Vec<u8>),
}

impl<'i> LineReader<'i> {
    ghost use Rattle.sj_tape.specs.Value.{tape_tree, tape_choice};
    ghost use Rattle.sj_stream.specs.Reader.{tree_read, tells_places, line_kept};
    ghost use Rattle.sj_stream.specs.Answers.{answer_line, IsRead};

    /// One that has read nothing. It asks for no memory.
    pub fn new(alloc: Global) -> Self
        ensures read { tree_read result ≡ None }
        ensures places { tells_places result ≡ false }
    {
        LineReader {
            alloc,
            slot: Slot::Spare(Spare::new(alloc)),
            kept: Kept::Off,
        }
    }

    /// The same, which from now on keeps each line's text as it came, and tells the places of faults.
    pub fn with_places(self) -> Self
        ensures read { tree_read result ≡ tree_read self.entry }
        ensures places { tells_places result ≡ true }
    {
        LineReader {
            alloc: self.alloc,
            slot: self.slot,
            kept: Kept::Refused(Vec::new(self.alloc)),
        }
    }

    /// Reads a line, and answers its number, or why it is not read. The bytes of the line are changed by
    /// the reading. The next line is read whatever came of this one.
    pub fn read(&mut self, line: Line<'i>) -> Result<usize, Unread>
        ensures number { answer_line result ≡ line.entry.number }
        ensures read { IsRead line.entry.text.now result (tree_read self.new) }
        ensures placed { IsPlaced (tells_places self.old) line.entry.text.now result (line_kept self.new) }
        ensures places { tells_places self.new ≡ tells_places self.old }
    {
        let Line { number, text } = line;
        let slot = mem::replace(&mut self.slot, Slot::Spare(Spare::new(self.alloc)));
        let spare = spare_of(self.alloc, slot);
        self.kept = keep(mem::replace(&mut self.kept, Kept::Off), text);
        if matches!(self.kept, Kept::Refused(_)) {
            self.slot = Slot::Spare(spare);
            return Err(Unread {
                line: number,
                place: None,
                why: why_not_kept(text),
            });
        }
        match to_tape_with_spare(text, spare) {
            Ok(tape) => {
                self.slot = Slot::Read(tape);
                Ok(number)
            }
            Err(refused) => {
                self.slot = Slot::Spare(refused.value);
                Err(Unread {
                    line: number,
                    place: place_of(&self.kept, refused.why),
                    why: refused.why,
                })
            }
        }
    }

    /// The document of the line that was read last; None where it was not read, or where none was.
    pub fn value(&self, repeats: Repeats) -> Option<Value<'_, 'i>>
        ensures tree { option_map tape_tree result ≡ tree_read self.now }
        ensures choice { IfSome result (λ v. tape_choice v ≡ repeats) }
    {
        match &self.slot {
            Slot::Read(tape) => Some(tape.as_value_repeats(repeats)),
            Slot::Spare(_) => None,
        }
    }

    /// The text of the line that was read last, as it came; None where no places are told, where memory
    /// for it was refused, and where none was read.
    pub fn text(&self) -> Option<&[u8]>
        ensures { option_map (λ t. t.now) result ≡ line_kept self.now }
    {
        match &self.kept {
            Kept::Text(text) => Some(text.as_slice()),
            Kept::Off | Kept::Refused(_) => None,
        }
    }
}

/// Puts the text in the place of the one before, where texts are kept.
fn keep(kept: Kept, text: &[u8]) -> Kept
    ensures keeps { keeps result ≡ keeps kept }
    ensures text { kept_text result ≡ None ⊎ kept_text result ≡ Some text.now }
    ensures refused { kept_text result ≡ None → IsTrue (keeps kept) → IsRefused result }
{
    match kept {
        Kept::Off => Kept::Off,
        Kept::Text(mut bytes) | Kept::Refused(mut bytes) => {
            bytes.clear();
            match bytes.extend_from_slice(text) {
                Ok(()) => Kept::Text(bytes),
                Err(_) => Kept::Refused(bytes),
            }
        }
    }
}

/// Why a text is not read for which memory was refused: bytes that are no UTF-8 are told as such all
/// the same.
fn why_not_kept(text: &[u8]) -> ErrorKind
    ensures utf8 { result ≡ ErrorKind.InvalidUtf8 ↔ ¬ (IsUtf8 text.now) }
    ensures memory { result ≢ ErrorKind.InvalidUtf8 → result ≡ ErrorKind.OutOfMemory }
{
    match str::from_utf8(text) {
        Ok(_) => ErrorKind::OutOfMemory,
        Err(_) => ErrorKind::InvalidUtf8,
    }
}

/// The place in the text that is kept; none where none is, and for want of memory.
fn place_of(kept: &Kept, why: ErrorKind) -> Option<Place>
    ensures { IsPlaceOf (kept_text kept.now) why result }
{
    match kept {
        Kept::Text(text) if why != ErrorKind::OutOfMemory => Some(place_in(text)),
        _ => None,
    }
}

fn spare_of<'i>(alloc: Global, slot: Slot<'i>) -> Spare<'i> {
    match slot {
        Slot::Read(tape) => tape.into_spare(alloc),
        Slot::Spare(spare) => spare,
    }
}
