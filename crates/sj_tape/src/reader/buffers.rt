//! What is kept from reading to reading.

ghost use Rattle.std.specs.Prelude.{◌≡◌, ◌/◌, IfOk, IsOk};
ghost use Rattle.sj_tape.specs.Room.{room};

use std::alloc::{AllocError, Global};

/// What readings share, one after another: for how many nodes the next one makes room at once, as
/// many as the largest text had that was read. What a reading answers does not depend on what was
/// read with the same buffers before, and they can be used again whatever it answered.
#[repr(C)]
#[derive(Drop)]
pub struct Buffers {
    pub(crate) nodes: usize,
}

impl Buffers {
    /// Buffers for texts of about `input_len` bytes: one node for each eight bytes has its room
    /// at once, and a text with more nodes asks for more.
    ///
    /// A reading asks for that memory, and this call for none, so it is never refused.
    pub fn new(_alloc: Global, input_len: usize) -> Result<Buffers, AllocError>
        ensures room { IfOk result (λ b. room b ≡ input_len / 8) }
        ensures succeeds { IsOk result }
    {
        Ok(Buffers {
            nodes: input_len / 8,
        })
    }
}
