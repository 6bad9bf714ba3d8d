//! The operations that lead from one document to another.

ghost use Rattle.std.specs.Prelude.{◌≡◌, [], map, IfOk};
ghost use Rattle.sj_text_core.specs.Same.{Same};
ghost use Rattle.sj_document.specs.Document.{document_tree};
ghost use Rattle.sj_patch.specs.Diff.{Becomes};
ghost use Rattle.sj_patch.specs.Meant.{meant};

use crate::differences::Differences;
use crate::operation::Operation;
use sj_document::Document;
use sj_path::OwnedText;
use std::alloc::{AllocError, Global};

/// The operations by which `from` becomes a document that is the same as `to`, none where they are
/// the same (RFC 6902). They lie as deep as the documents differ, down to 128 levels: members and
/// items that are the same stay, and of two arrays what is the same at both ends. It is refused only
/// for want of memory.
pub fn diff<T: OwnedText + Drop>(
    alloc: Global,
    from: &Document<T>,
    to: &Document<T>,
) -> Result<Vec<Operation<T>>, AllocError>
    ensures becomes { IfOk result (λ operations. Becomes (map (meant T.text_of) operations.items) (document_tree T.text_of from.now) (document_tree T.text_of to.now)) }
    ensures none { IfOk result (λ operations. Same (document_tree T.text_of from.now) (document_tree T.text_of to.now) → operations.items ≡ []) }
{
    Differences::between(alloc, from, to)
}
