//! A count at a pointer, which goes up through the reference that is lent.

ghost use Rattle.std.specs.Prelude.{◌≡◌, ◌+◌, ℕ, pos, Some, None, IfOk, IfErr, IfSome, option_and_then};
ghost use Rattle.sj_text_core.specs.Tree.{int, u64};
ghost use Rattle.sj_text_core.specs.Reads.{as_unsigned};
ghost use Rattle.sj_document.specs.Document.{document_tree};
ghost use Rattle.sj_pointer.specs.Pointed.{pointed, set_pointed};

use sj_document::Document;
use sj_object::KeyText;
use sj_path::{LendPointed, Pointer, owned};
use sj_text_core::ValueAsScalar;
use std::mem;

/// Puts `new` in the place of what the pointer finds, and answers what stood there; `new` comes back
/// where it finds nothing.
pub fn replace_through<L: LendPointed>(
    lender: &mut L,
    pointer: &Pointer,
    new: L::Output,
) -> Result<L::Output, L::Output>
    ensures answer { IfOk result (λ before. L.finds_pointed lender.old pointer.now (Some before)) }
    ensures written { IfOk result (λ before. L.writes_pointed lender.old pointer.now new lender.new) }
    ensures absent { IfErr result (λ back. (back ≡ new) × L.finds_pointed lender.old pointer.now None × L.keeps_pointed lender.old lender.new) }
{
    match lender.pointed_mut(pointer) {
        Some(found) => Ok(mem::replace(found, new)),
        None => Err(new),
    }
}

/// The whole number that the pointer finds goes up by one, and is answered. None where it finds no
/// whole number, or one of 2^64-1 or more; the document is then as it was.
pub fn count_up<T: KeyText + Drop>(document: &mut Document<T>, pointer: &Pointer) -> Option<u64>
    ensures counted { IfSome result (λ n. (m : ℕ) × (option_and_then (as_unsigned 64) (pointed pointer.now (document_tree T.text_of document.old)) ≡ Some m) × (n ≡ m + 1)) }
    ensures after { IfSome result (λ n. document_tree T.text_of document.new ≡ set_pointed pointer.now (int (pos n) u64) (document_tree T.text_of document.old)) }
    ensures kept { result ≡ None → document_tree T.text_of document.new ≡ document_tree T.text_of document.old }
{
    let count = owned::find(document, pointer)?.as_u64()?.checked_add(1)?;
    replace_through(document, pointer, Document::from(count)).ok()?;
    Some(count)
}
