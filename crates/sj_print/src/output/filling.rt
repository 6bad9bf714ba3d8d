//! The bytes of a print, in room that was made for them.

ghost use Rattle.std.specs.Prelude.{◌≡◌, ℕ, ◌+◌, ◌≤◌, List, ◌++◌, length, take, replicate};
ghost use Rattle.std.specs.Borrow.{GName};

use super::Output;
use super::copies::place;
use sj_text_core::StaticNode;

/// Bytes that are written over from `at` on. What has no room is left out.
#[derive(Drop)]
pub(crate) struct Filling<'a> {
    pub(crate) out: &'a mut Vec<u8>,
    pub(crate) at: usize,
}

impl Filling<'_> {
    /// With so many spaces.
    fn put_spaces(self, spaces: usize) -> Self
        ensures name { result.out.ghost_name ≡ self.entry.out.ghost_name }
        ensures len { length result.out.now.items ≡ length self.entry.out.now.items }
        ensures at { self.entry.at + spaces ≤ length self.entry.out.now.items → (result.at ≡ self.entry.at + spaces) × (take result.at result.out.now.items ≡ take self.entry.at self.entry.out.now.items ++ replicate spaces 32) }
    {
        let Filling { out, at } = self;
        let end = at.saturating_add(spaces);
        if end <= out.len() {
            out.slice_mut(at..end).fill(b' ');
        }
        Filling { out, at: end }
    }
}

impl Output for Filling<'_> {
    // whose bytes they are, how many, and those in front
    ghost Start = { GName × ℕ × List ℕ };

    ghost holds = { λ start f b. (f.out.ghost_name ≡ start.0) × (length f.out.now.items ≡ start.1) × (length start.2 + length b ≤ start.1 → (f.at ≡ length start.2 + length b) × (take f.at f.out.now.items ≡ start.2 ++ b)) };

    #[inline(always)]
    fn put_bytes(self, bytes: &[u8]) -> Self {
        let Filling { out, at } = self;
        let end = at.saturating_add(bytes.len());
        if end <= out.len() {
            place(out.as_mut_slice(), at, bytes);
        }
        Filling { out, at: end }
    }

    #[inline(always)]
    fn put_between(self, before: &[u8], bytes: &[u8], behind: &[u8]) -> Self {
        let Filling { out, at } = self;
        let from = at.saturating_add(before.len());
        let to = from.saturating_add(bytes.len());
        let end = to.saturating_add(behind.len());
        if end <= out.len() {
            let room = out.as_mut_slice();
            place(room, at, before);
            place(room, from, bytes);
            place(room, to, behind);
        }
        Filling { out, at: end }
    }

    // As the trait has it, whose own body would be a call for each scalar.
    #[inline(always)]
    fn put_static(self, node: StaticNode) -> Self {
        self.put_bytes(node.text_in(&mut itoa::Buffer::new()).as_bytes())
    }

    fn put_line(self, spaces: usize) -> Self {
        self.put_bytes(b"\n").put_spaces(spaces)
    }
}
