//! What prints go to.

ghost use Rattle.std.specs.Prelude.{◌≡◌, ℕ, ◌+◌, ◌-◌, ◌^◌, ◌≤◌, min, List, ◌∷◌, ◌++◌, length, replicate, flat_map};
ghost use Rattle.sj_text_core.specs.Print.{escaped, quoted, compact};
ghost use Rattle.sj_text_core.specs.Scalars.{static_tree};
ghost use Rattle.sj_print.specs.Layouts.{gap};
ghost use Rattle.sj_print.specs.Outputs.{Appends, AppendsText, Lays};

mod copies;
mod count;
mod decimal;
mod filling;
mod growing;
mod line;
mod plain;
mod quote;

use crate::layout::Layout;
use crate::plain_text::PlainText;
pub use count::Count;
pub(crate) use filling::Filling;
pub(crate) use growing::append_quoted;
pub(crate) use line::append_line;
use plain::is_all_plain;
use quote::put_runs;
use sj_text_core::StaticNode;

/// What a print goes to: the bytes themselves, where there is room for them, or how many they are. A
/// call takes the output and answers what it is then, so that its numbers can stay in registers.
pub trait Output: Sized {
    /// What an output begins with, and what it counts on.
    ghost Start: { Type 0 };

    /// The output holds these bytes behind its start.
    ghost holds: { Start → Self → List ℕ → Type 0 };

    /// Appends the bytes.
    fn put_bytes(self, bytes: &[u8]) -> Self
        ensures { Appends holds self result bytes.now };

    /// Appends a line feed and spaces, where `usize::MAX` stands for every number from it on.
    fn put_line(self, spaces: usize) -> Self
        ensures { (k : ℕ) → spaces ≡ min k (2 ^ 64 - 1) → Appends holds self result (10 ∷ replicate k 32) };

    /// Appends the bytes, with others before and behind them.
    #[inline(always)]
    fn put_between(self, before: &[u8], bytes: &[u8], behind: &[u8]) -> Self
        ensures { Appends holds self result (before.now ++ (bytes.now ++ behind.now)) }
    {
        self.put_bytes(before).put_bytes(bytes).put_bytes(behind)
    }

    /// Appends `null`, `true`, `false`, or the number in decimal.
    #[inline(always)]
    fn put_static(self, node: StaticNode) -> Self
        ensures { AppendsText holds self result (compact (static_tree node)) }
    {
        self.put_bytes(node.text_in(&mut itoa::Buffer::new()).as_bytes())
    }

    /// Appends the text as it is.
    #[inline(always)]
    final fn put(self, text: &str) -> Self
        ensures { AppendsText holds self result text.now }
    {
        self.put_bytes(text.as_bytes())
    }

    /// Appends the text between `before` and `behind`, with escapes where they are needed.
    #[inline(always)]
    final fn put_text(self, before: &str, text: &str, behind: &str) -> Self
        ensures { AppendsText holds self result (before.now ++ (flat_map escaped text.now ++ behind.now)) }
    {
        let before = before.as_bytes();
        let bytes = text.as_bytes();
        let behind = behind.as_bytes();
        if is_all_plain(bytes) {
            self.put_between(before, bytes, behind)
        } else {
            put_runs(self, before, bytes, behind)
        }
    }

    /// The same for a text that needs no escape.
    #[inline(always)]
    final fn put_plain(self, before: &str, plain: PlainText<'_>, behind: &str) -> Self
        ensures { AppendsText holds self result (before.now ++ (flat_map escaped plain.entry.text.now ++ behind.now)) }
    {
        let before = before.as_bytes();
        let bytes = plain.text.as_bytes();
        let behind = behind.as_bytes();
        self.put_between(before, bytes, behind)
    }

    /// Appends the text between quotes, with escapes where they are needed.
    #[inline(always)]
    final fn put_quoted(self, text: &str) -> Self
        ensures { AppendsText holds self result (quoted text.now) }
    {
        self.put_text("\"", text, "\"")
    }

    /// The same for a text that needs no escape.
    #[inline(always)]
    final fn put_quoted_plain(self, plain: PlainText<'_>) -> Self
        ensures { AppendsText holds self result (quoted plain.entry.text.now) }
    {
        self.put_plain("\"", plain, "\"")
    }

    /// Appends what the layout has between tokens.
    #[inline(always)]
    final fn put_gap(self, layout: Layout) -> Self
        ensures { Lays holds self result layout gap }
    {
        match layout {
            Layout::Compact => self,
            Layout::Pretty { spaces } => self.put_line(spaces),
        }
    }
}
