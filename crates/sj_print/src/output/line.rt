//! Lines of pretty prints.

ghost use Rattle.std.specs.Prelude.{◌≡◌, ◌∷◌, ◌++◌, OnOk, OnErr, replicate};

use std::alloc::AllocError;

/// Appends a line feed and spaces. On a refused request for memory what was there stays; for
/// `usize::MAX` spaces memory is always refused.
pub(crate) fn append_line(out: &mut Vec<u8>, spaces: usize) -> Result<(), AllocError>
    ensures ok { OnOk result (out.new.items ≡ out.old.items ++ 10 ∷ replicate spaces 32) }
    ensures err { OnErr result (out.new.items ≡ out.old.items) }
{
    out.reserve(spaces.saturating_add(1))?;
    out.push(b'\n').unwrap();
    out.resize(out.len() + spaces, b' ')
}
