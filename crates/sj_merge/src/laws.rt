//! What holds of the definitions: each function's contract is a law, and its body is empty.

ghost use Rattle.sj_merge.specs.Laws.{MergeDiffLeads, MergeDiffNone, MergeDiffNothing};

/// The merge patch from one document to another, merged into the first, makes it the same as the
/// second.
pub fn merge_diff_leads()
    ensures { MergeDiffLeads }
{}

/// Where there is no merge patch from one document to another, no patch that repeats no key makes
/// the first the same as the second.
pub fn merge_diff_none()
    ensures { MergeDiffNone }
{}

/// Between objects that are the same the merge patch has no members.
pub fn merge_diff_nothing()
    ensures { MergeDiffNothing }
{}
