//! How a print is laid out.

ghost use Rattle.std.specs.Prelude.{ℕ, Option};
ghost use Rattle.sj_print.specs.Layouts.{IsLayout, deeper, top};

/// How a print is laid out.
#[derive(Clone, Copy, Debug)]
pub enum Layout {
    /// No whitespace.
    Compact,
    /// Lines, with so many spaces in front, or `usize::MAX` where they are more.
    Pretty { spaces: usize },
}

impl Layout {
    /// The layout of a whole print.
    pub fn top(pretty: bool) -> Layout
        ensures { IsLayout result (top pretty) }
    {
        if pretty {
            Layout::Pretty { spaces: 0 }
        } else {
            Layout::Compact
        }
    }

    /// The layout one level deeper.
    pub fn deeper(self) -> Layout
        ensures { (s : Option ℕ) → IsLayout self s → IsLayout result (deeper s) }
    {
        match self {
            Layout::Compact => Layout::Compact,
            Layout::Pretty { spaces } => Layout::Pretty {
                spaces: spaces.saturating_add(2),
            },
        }
    }
}
