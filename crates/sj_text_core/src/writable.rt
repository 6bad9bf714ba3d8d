//! Values that are printed.

ghost use Rattle.std.specs.Prelude.{◌≡◌, ◌↔◌, ◌+◌, ◌^◌, ◌≤◌, ◌++◌, length, IfOk, OnOk, OnErr, IsErrOf, string_bytes};
ghost use Rattle.sj_text_core.specs.Print.{compact, pretty};

use crate::error::WriteError;
use crate::meaning::Meaning;
use std::alloc::Global;

/// Values that print their tree as a JSON text.
pub trait Writable: Meaning {
    /// The compact print. Refused for want of memory, and as `TooLong` from 2^64 bytes on.
    fn encode(&self, alloc: Global) -> Result<String, WriteError>
        ensures ok { IfOk result (λ s. string_bytes s ≡ compact (Self.tree self.now)) }
        ensures too_long { IsErrOf result WriteError.TooLong ↔ (2 ^ 64 ≤ length (compact (Self.tree self.now))) };

    /// The pretty print. Refused for want of memory, and as `TooLong` from 2^64 bytes on.
    fn encode_pp(&self, alloc: Global) -> Result<String, WriteError>
        ensures ok { IfOk result (λ s. string_bytes s ≡ pretty 0 (Self.tree self.now)) }
        ensures too_long { IsErrOf result WriteError.TooLong ↔ (2 ^ 64 ≤ length (pretty 0 (Self.tree self.now))) };

    /// Appends the compact print. Refused for want of memory, and as `TooLong` where `out` would
    /// have 2^64 bytes or more, it leaves the bytes as they were.
    fn write(&self, out: &mut Vec<u8>) -> Result<(), WriteError>
        ensures ok { OnOk result (out.new.items ≡ out.old.items ++ compact (Self.tree self.now)) }
        ensures err { OnErr result (out.new.items ≡ out.old.items) }
        ensures too_long { IsErrOf result WriteError.TooLong ↔ (2 ^ 64 ≤ length out.old.items + length (compact (Self.tree self.now))) };

    /// Appends the pretty print. Refused for want of memory, and as `TooLong` where `out` would
    /// have 2^64 bytes or more, it leaves the bytes as they were.
    fn write_pp(&self, out: &mut Vec<u8>) -> Result<(), WriteError>
        ensures ok { OnOk result (out.new.items ≡ out.old.items ++ pretty 0 (Self.tree self.now)) }
        ensures err { OnErr result (out.new.items ≡ out.old.items) }
        ensures too_long { IsErrOf result WriteError.TooLong ↔ (2 ^ 64 ≤ length out.old.items + length (pretty 0 (Self.tree self.now))) };
}
