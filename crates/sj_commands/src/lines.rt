//! An input, cut into a document and command lines.

ghost use Rattle.std.specs.Prelude.{◌≡◌, ◌≤◌, length, take, drop};
ghost use Rattle.sj_commands.specs.Lines.{full_lines, is_mark as is_mark_line, after_mark, document};

use sj_lines::{line_len, text_len};

fn is_mark(line: &[u8]) -> bool
    ensures { result ≡ is_mark_line line.now }
{
    let len = text_len(line);
    &line[..len] == b"---".as_slice()
}

/// Where an input is cut.
#[derive(Clone, Copy)]
pub struct Cut {
    /// Where the document ends.
    pub document: usize,
    /// Where the command lines begin.
    pub commands: usize,
}

/// Cuts an input at its first line `---`; where there is none, the document is all of it.
pub fn cut_at_mark(input: &[u8]) -> Cut
    ensures ordered { result.document ≤ result.commands }
    ensures within { result.commands ≤ length input.now }
    ensures document { take result.document input.now ≡ document input.now }
    ensures commands { full_lines (drop result.commands input.now) ≡ after_mark (full_lines input.now) }
{
    let mut at = 0;
    while at < input.len() {
        let end = at + line_len(&input[at..]);
        if is_mark(&input[at..end]) {
            return Cut {
                document: at,
                commands: end,
            };
        }
        at = end;
    }
    Cut {
        document: at,
        commands: at,
    }
}
