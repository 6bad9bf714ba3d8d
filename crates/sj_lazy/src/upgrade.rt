//! What a lazy value is upgraded from: a part of a tape, or a document that is lent.

ghost use Rattle.std.specs.Prelude.{◌≡◌, IfOk};
ghost use Rattle.sj_document.specs.Document.{document_tree};
ghost use Rattle.sj_lazy.specs.Value.{part_kept as tape_kept};
ghost use Rattle.sj_tape.specs.Value.{tape_tree};
ghost use Rattle.sj_text_core.specs.Tree.{Tree};

use sj_document::{BorrowedValue, CopyText, Document, borrowed_from_tape};
use sj_object::KeyText;
use sj_tape::Value as TapeValue;
use std::alloc::{AllocError, Global};
use std::borrow::CowStr;

/// A part of a tape, of which a document can be made.
pub trait Upgrade<T: KeyText> {
    /// The tree of it.
    ghost part_tree: { Self → Tree };

    /// The tree of its document: of several members with one key the one that counts.
    ghost part_kept: { Self → Tree };

    /// The document of what is kept. It is refused only for want of memory.
    fn upgrade(&self, alloc: Global) -> Result<Document<T>, AllocError>
        ensures { IfOk result (λ v. document_tree T.text_of v ≡ part_kept self.now) };
}

/// A document that is lent.
pub trait Lent<T: KeyText> {
    /// The tree of it.
    ghost lent_tree: { Self → Tree };

    /// A document of its own with the same tree. It is refused only for want of memory.
    fn copied(&self, alloc: Global) -> Result<Document<T>, AllocError>
        ensures { IfOk result (λ v. document_tree T.text_of v ≡ lent_tree self.now) };
}

/// By the choice of the part.
impl<'t, 'i> Upgrade<CowStr<'i>> for TapeValue<'t, 'i> {
    ghost part_tree = { tape_tree };

    ghost part_kept = { tape_kept };

    fn upgrade(&self, alloc: Global) -> Result<BorrowedValue<'i>, AllocError> {
        borrowed_from_tape(alloc, *self)
    }
}

impl<'b, T: CopyText + Drop> Lent<T> for &'b Document<T> {
    ghost lent_tree = { λ v. document_tree T.text_of v.now };

    fn copied(&self, _alloc: Global) -> Result<Document<T>, AllocError> {
        let lent: &Document<T> = *self;
        lent.clone()
    }
}
