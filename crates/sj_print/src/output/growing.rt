//! The bytes of a print, for which memory is asked as they come.

ghost use Rattle.std.specs.Prelude.{◌≡◌, false, ℕ, ◌+◌, ◌-◌, ◌^◌, List, ◌++◌, length, take, OnOk, OnErr};
ghost use Rattle.std.specs.Borrow.{GName};
ghost use Rattle.sj_text_core.specs.Print.{quoted};

use super::{Output, append_line};
use std::alloc::AllocError;

/// The bytes of a print, for which memory is asked as they come, and whether it was refused once.
#[derive(Drop)]
struct Growing<'a> {
    out: &'a mut Vec<u8>,
    is_refused: bool,
}

impl Output for Growing<'_> {
    // whose bytes they are, and the bytes in front
    ghost Start = { GName × List ℕ };

    ghost holds = { λ start g b. (g.out.ghost_name ≡ start.0) × (take (length start.1) g.out.now.items ≡ start.1) × (g.is_refused ≡ false → g.out.now.items ≡ start.1 ++ b) };

    fn put_bytes(self, bytes: &[u8]) -> Self {
        let Growing { out, is_refused } = self;
        let is_refused = is_refused || out.extend_from_slice(bytes).is_err();
        Growing { out, is_refused }
    }

    fn put_line(self, spaces: usize) -> Self {
        let Growing { out, is_refused } = self;
        let is_refused = is_refused || append_line(out, spaces).is_err();
        Growing { out, is_refused }
    }
}

/// Appends the text between quotes, with escapes where they are needed. On a refused request for
/// memory what was there stays.
pub(crate) fn append_quoted(out: &mut Vec<u8>, text: &str) -> Result<(), AllocError>
    ensures ok { OnOk result (out.new.items ≡ out.old.items ++ quoted text.now) }
    ensures err { OnErr result (out.new.items ≡ out.old.items) }
{
    let start = out.len();
    // Why so: docs/MEASURED.md, "To count a quoted text's length first".
    out.reserve(text.len() + 2)?;
    let growing = Growing {
        out,
        is_refused: false,
    };
    let is_refused = growing.put_quoted(text).is_refused;
    if is_refused {
        out.truncate(start);
        return Err(AllocError);
    }
    Ok(())
}
