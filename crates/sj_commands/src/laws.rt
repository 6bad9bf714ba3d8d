//! What holds of the lines of an input and of their commands: each function's contract is a law,
//! and its body is empty.

ghost use Rattle.sj_commands.specs.Laws.{DocumentBegins, OneCommand};

pub use sj_lines::laws::lines_join;

/// The document of an input is its beginning.
pub fn document_begins()
    ensures { DocumentBegins }
{}

/// A line has exactly one command.
pub fn one_command()
    ensures { OneCommand }
{}
