//! The reader: bytes become one tape or one refusal.

mod blank;
mod buffers;
mod digit;
mod digits;
mod escape;
mod nodes;
mod number;
mod plain;
mod spare;
mod structure;
mod text;
mod value;

ghost use Rattle.std.specs.Prelude.{◌≡◌, ◌↔◌, length, max, IfOk, IfErr, OnErr, IsErrOf, IsUtf8};
ghost use Rattle.sj_text_core.specs.Nodes.{flat, tree_of, IsPreorder};
ghost use Rattle.sj_text_core.specs.Tree.{IsWithin};
ghost use Rattle.sj_tape.specs.Marks.{packed_marks};
ghost use Rattle.sj_tape.specs.Room.{room as room_of};
ghost use Rattle.sj_text_core.specs.Grammar.{Spells};
ghost use Rattle.sj_text_core.specs.Readings.{SpellsOnly, IsReadFault};

use crate::packed::Packed;
pub use crate::reader::buffers::Buffers;
pub use crate::reader::spare::Spare;
use crate::reader::value::read_tree;
use crate::tape::Tape;
use sj_text_core::{ErrorKind, Refused};
use std::alloc::Global;

/// How many arrays and objects may be open at once.
pub const DEPTH_LIMIT: usize = 1024;

/// Reads one text (RFC 8259 without fractions and exponents). The texts of the tape lie in the
/// bytes, where an escape is written over by what it stands for. For look-ups the tape keeps places of
/// items of large arrays too, and tags of keys of large objects: of such as stand in nothing but small
/// objects, behind few nodes beside their own, and where memory for it is given.
///
/// Refused as `InvalidUtf8` exactly where the bytes are not UTF-8, before any memory is asked
/// for. `Syntax`, `LoneSurrogate`, `Float`, `NumberTooLarge` and `TooDeep` come only where the
/// text can't be read, and name what is met first from left to right. `OutOfMemory` comes where
/// memory was refused. After a refusal nothing is said of the bytes.
pub fn to_tape<'i>(alloc: Global, bytes: &'i mut [u8]) -> Result<Tape<'i>, ErrorKind>
    // What is read is spelled so, within the limit, and nothing else is.
    ensures spelled { IfOk result (λ t. Spells bytes.old t) }
    ensures within { IfOk result (λ t. IsWithin t) }
    ensures only { IfOk result (SpellsOnly bytes.old) }
    // The bytes are no UTF-8.
    ensures utf8 { IsErrOf result ErrorKind.InvalidUtf8 ↔ ¬ (IsUtf8 bytes.old) }
    ensures err { IfErr result (IsReadFault bytes.old) }
{
    read(alloc, bytes, &mut 0, Purpose::LookUps)
}

/// Reads as `to_tape` does. The tape keeps neither places of items nor tags of keys, so it is read
/// sooner, and look-ups in it pass what stands in front: for those who go over it once.
pub fn to_bare_tape<'i>(alloc: Global, bytes: &'i mut [u8]) -> Result<Tape<'i>, ErrorKind>
    // What is read is spelled so, within the limit, and nothing else is.
    ensures spelled { IfOk result (λ t. Spells bytes.old t) }
    ensures within { IfOk result (λ t. IsWithin t) }
    ensures only { IfOk result (SpellsOnly bytes.old) }
    // The bytes are no UTF-8.
    ensures utf8 { IsErrOf result ErrorKind.InvalidUtf8 ↔ ¬ (IsUtf8 bytes.old) }
    ensures err { IfErr result (IsReadFault bytes.old) }
{
    read(alloc, bytes, &mut 0, Purpose::Passes)
}

/// Reads as `to_tape` does, with room at once for as many nodes as the buffers tell. The answer
/// depends on the text alone, and the buffers can be used again whatever it is.
pub fn to_tape_with_buffers<'i>(
    alloc: Global,
    bytes: &'i mut [u8],
    buffers: &mut Buffers,
) -> Result<Tape<'i>, ErrorKind>
    // What is read is spelled so, within the limit, and nothing else is.
    ensures spelled { IfOk result (λ t. Spells bytes.old t) }
    ensures within { IfOk result (λ t. IsWithin t) }
    ensures only { IfOk result (SpellsOnly bytes.old) }
    // The bytes are no UTF-8.
    ensures utf8 { IsErrOf result ErrorKind.InvalidUtf8 ↔ ¬ (IsUtf8 bytes.old) }
    ensures err { IfErr result (IsReadFault bytes.old) }
    // The buffers have room for the nodes of the largest text that was read.
    ensures room { IfOk result (λ t. room_of buffers.new ≡ max (length (flat t)) (room_of buffers.old)) }
    ensures kept { OnErr result (room_of buffers.new ≡ room_of buffers.old) }
{
    read(alloc, bytes, &mut buffers.nodes, Purpose::LookUps)
}

/// Reads as `to_tape_with_buffers` does, to a tape as `to_bare_tape` makes it.
pub fn to_bare_tape_with_buffers<'i>(
    alloc: Global,
    bytes: &'i mut [u8],
    buffers: &mut Buffers,
) -> Result<Tape<'i>, ErrorKind>
    // What is read is spelled so, within the limit, and nothing else is.
    ensures spelled { IfOk result (λ t. Spells bytes.old t) }
    ensures within { IfOk result (λ t. IsWithin t) }
    ensures only { IfOk result (SpellsOnly bytes.old) }
    // The bytes are no UTF-8.
    ensures utf8 { IsErrOf result ErrorKind.InvalidUtf8 ↔ ¬ (IsUtf8 bytes.old) }
    ensures err { IfErr result (IsReadFault bytes.old) }
    // The buffers have room for the nodes of the largest text that was read.
    ensures room { IfOk result (λ t. room_of buffers.new ≡ max (length (flat t)) (room_of buffers.old)) }
    ensures kept { OnErr result (room_of buffers.new ≡ room_of buffers.old) }
{
    read(alloc, bytes, &mut buffers.nodes, Purpose::Passes)
}

/// Reads as `to_tape` does, into the memory of a tape that is done with, which grows where it is too
/// small. The tape keeps neither places of items nor tags. A refusal hands the memory back.
pub fn to_tape_with_spare<'i>(
    bytes: &'i mut [u8],
    spare: Spare<'i>,
) -> Result<Tape<'i>, Refused<ErrorKind, Spare<'i>>>
    // What is read is spelled so, within the limit, and nothing else is.
    ensures spelled { IfOk result (λ t. Spells bytes.old t) }
    ensures within { IfOk result (λ t. IsWithin t) }
    ensures only { IfOk result (SpellsOnly bytes.old) }
    // The bytes are no UTF-8.
    ensures utf8 { IfErr result (λ r. r.why ≡ ErrorKind.InvalidUtf8 ↔ ¬ (IsUtf8 bytes.old)) }
    ensures err { IfErr result (λ r. IsReadFault bytes.old r.why) }
{
    let mut nodes = spare.nodes;
    nodes.clear();
    if simdutf8::basic::from_utf8(bytes).is_err() {
        return Err(Refused {
            why: ErrorKind::InvalidUtf8,
            value: Spare { nodes },
        });
    }
    match read_tree(bytes, DEPTH_LIMIT, &mut nodes) {
        Ok(()) => Ok(Tape::from_packed(nodes)),
        Err(why) => Err(Refused {
            why,
            value: Spare { nodes },
        }),
    }
}

/// What a tape is read for: look-ups, or passes over it.
#[derive(Clone, Copy)]
enum Purpose {
    LookUps,
    Passes,
}

/// The tape of packed nodes that are a preorder, with places and tags where look-ups are to find them.
fn tape_for<'i>(purpose: Purpose, nodes: Vec<Packed<'i>>) -> Tape<'i>
    requires { IsPreorder (packed_marks nodes.items) }
    ensures { result ≡ tree_of (packed_marks nodes.entry.items) }
{
    match purpose {
        Purpose::LookUps => Tape::with_landmarks(nodes),
        Purpose::Passes => Tape::from_packed(nodes),
    }
}

/// Reads a text, with room for so many nodes at once, where it may have as many.
fn read<'i>(
    alloc: Global,
    bytes: &'i mut [u8],
    room: &mut usize,
    purpose: Purpose,
) -> Result<Tape<'i>, ErrorKind>
    // What is read is spelled so, within the limit, and nothing else is.
    ensures spelled { IfOk result (λ t. Spells bytes.old t) }
    ensures within { IfOk result (λ t. IsWithin t) }
    ensures only { IfOk result (SpellsOnly bytes.old) }
    // The bytes are no UTF-8.
    ensures utf8 { IsErrOf result ErrorKind.InvalidUtf8 ↔ ¬ (IsUtf8 bytes.old) }
    ensures err { IfErr result (IsReadFault bytes.old) }
    ensures room { IfOk result (λ t. room.new ≡ max (length (flat t)) room.old) }
    ensures kept { OnErr result (room.new ≡ room.old) }
{
    if simdutf8::basic::from_utf8(bytes).is_err() {
        return Err(ErrorKind::InvalidUtf8);
    }
    // A node takes two bytes at least, but for the last.
    let most = bytes.len() / 2 + 1;
    let mut nodes = Vec::with_capacity(alloc, most.min(*room))?;
    read_tree(bytes, DEPTH_LIMIT, &mut nodes)?;
    *room = nodes.len().max(*room);
    Ok(tape_for(purpose, nodes))
}
