//! Generators: what prints are written through.

ghost use Rattle.std.specs.Prelude.{◌≡◌, ℕ, ◌+◌, ◌-◌, ◌<◌, List, ◌++◌, Option, OnOk, OnErr};
ghost use Rattle.std.specs.Borrow.{GName};
ghost use Rattle.sj_print.specs.Generators.{by_style, line, CanIndent};
ghost use Rattle.sj_text_core.specs.Print.{quoted, compact};
ghost use Rattle.sj_text_core.specs.Scalars.{static_tree};

mod dump;
mod pretty;
mod pretty_writer;
mod text;
mod writer;

pub use dump::DumpGenerator;
pub use pretty::PrettyGenerator;
pub use pretty_writer::PrettyWriterGenerator;
use sj_text_core::StaticNode;
use std::alloc::AllocError;
pub use writer::WriterGenerator;

/// What prints are written through. Each call that writes appends exactly the bytes that it names,
/// or, where a request for memory is refused, leaves what was written as it was.
pub trait BaseGenerator {
    /// The bytes written so far.
    ghost written: { Self → List ℕ };

    /// How many spaces a level has where prints are pretty; none where they are compact.
    ghost style: { Self → Option ℕ };

    /// How many containers are open.
    ghost level: { Self → ℕ };

    /// Whose bytes they are, where they are not the generator's own.
    ghost sink: { Self → Option GName };

    /// Appends the text as it is.
    fn write(&mut self, text: &str) -> Result<(), AllocError>
        ensures ok { OnOk result (written self.new ≡ written self.old ++ text.now) }
        ensures err { OnErr result (written self.new ≡ written self.old) }
        ensures style { style self.new ≡ style self.old }
        ensures level { level self.new ≡ level self.old }
        ensures sink { sink self.new ≡ sink self.old };

    /// Appends the text between quotes, with escapes where they are needed.
    fn write_string(&mut self, text: &str) -> Result<(), AllocError>
        ensures ok { OnOk result (written self.new ≡ written self.old ++ quoted text.now) }
        ensures err { OnErr result (written self.new ≡ written self.old) }
        ensures style { style self.new ≡ style self.old }
        ensures level { level self.new ≡ level self.old }
        ensures sink { sink self.new ≡ sink self.old };

    /// Appends `null`, `true`, `false`, or the number in decimal.
    final fn write_static(&mut self, node: StaticNode) -> Result<(), AllocError>
        ensures ok { OnOk result (written self.new ≡ written self.old ++ compact (static_tree node)) }
        ensures err { OnErr result (written self.new ≡ written self.old) }
        ensures style { style self.new ≡ style self.old }
        ensures level { level self.new ≡ level self.old }
        ensures sink { sink self.new ≡ sink self.old }
    {
        self.write(node.text_in(&mut itoa::Buffer::new()))
    }

    /// Appends the first text in pretty prints, the second in compact ones.
    fn write_min(&mut self, pretty: &str, compact: &str) -> Result<(), AllocError>
        ensures ok { OnOk result (written self.new ≡ written self.old ++ by_style (style self.old) pretty.now compact.now) }
        ensures err { OnErr result (written self.new ≡ written self.old) }
        ensures style { style self.new ≡ style self.old }
        ensures level { level self.new ≡ level self.old }
        ensures sink { sink self.new ≡ sink self.old };

    /// Appends a line feed and the spaces of the level in pretty prints, nothing in compact ones.
    fn new_line(&mut self) -> Result<(), AllocError>
        ensures ok { OnOk result (written self.new ≡ written self.old ++ line (style self.old) (level self.old)) }
        ensures err { OnErr result (written self.new ≡ written self.old) }
        ensures style { style self.new ≡ style self.old }
        ensures level { level self.new ≡ level self.old }
        ensures sink { sink self.new ≡ sink self.old };

    /// Counts one more level.
    fn indent(&mut self)
        requires { CanIndent (style self.old) (level self.old) }
        ensures level { level self.new ≡ level self.old + 1 }
        ensures written { written self.new ≡ written self.old }
        ensures style { style self.new ≡ style self.old }
        ensures sink { sink self.new ≡ sink self.old };

    /// Counts one level less.
    fn dedent(&mut self)
        requires { 0 < level self.old }
        ensures level { level self.new ≡ level self.old - 1 }
        ensures written { written self.new ≡ written self.old }
        ensures style { style self.new ≡ style self.old }
        ensures sink { sink self.new ≡ sink self.old };
}
