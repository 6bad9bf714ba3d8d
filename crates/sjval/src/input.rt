//! Standard input, read to its end.

use crate::fault::Fault;
use std::alloc::Global;
use std::io::Read;

/// How many reads there may be before the end is met.
const READS: u64 = 1 << 32;

/// How many bytes there is room for at first.
const ROOM: usize = 1 << 16;

/// All bytes of the reader. They are read into the place where they stay, which doubles where it is
/// full.
pub fn read_input<R: Read + Drop>(alloc: Global, mut reader: R) -> Result<Vec<u8>, Fault> {
    let mut bytes = Vec::new(alloc);
    let mut filled = 0;
    for _ in 0..READS {
        if filled == bytes.len() {
            bytes.resize(ROOM.max(filled.saturating_mul(2)), 0)?;
        }
        let count = reader.read(&mut bytes[filled..])?;
        if count == 0 {
            bytes.truncate(filled);
            return Ok(bytes);
        }
        filled += count;
    }
    Err(Fault::Failed)
}
