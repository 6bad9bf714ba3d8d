//! What holds of sessions: each function's contract is a law, and its body is empty.

ghost use Rattle.sj_run.specs.Laws.{RepliesAreMany, RunsJoin};

pub use sj_commands::laws::{document_begins, lines_join, one_command};

/// Each command gives one reply.
pub fn replies_are_many()
    ensures { RepliesAreMany }
{}

/// Commands may be answered in two runs, the second on the tree that the first left.
pub fn runs_join()
    ensures { RunsJoin }
{}
