//! How many items an array has, and edits of it at a position.

ghost use Rattle.std.specs.Prelude.{◌≡◌, ◌≤◌, None, map, option_map, OnOk, OnErr, IfOk, IfErr, IsSome};
ghost use Rattle.std.specs.Option.{ForSome};
ghost use Rattle.sj_text_core.specs.Tree.{items_from, items_len};
ghost use Rattle.sj_text_core.specs.Find.{nth, nth_item};
ghost use Rattle.sj_text_core.specs.Reads.{as_items};
ghost use Rattle.sj_document.specs.Document.{document_tree, Means};
ghost use Rattle.sj_document.specs.Items.{remove_at};

use crate::value::Document;
use sj_object::KeyText;
use sj_text_core::{AccessError, Refused};

impl<T: KeyText> Document<T> {
    ghost use Rattle.sj_document.specs.Document.{document_tree};

    /// How many items an array has; None on a non-array.
    pub fn array_len(&self) -> Option<usize>
        ensures { result ≡ option_map items_len (as_items (document_tree T.text_of self.now)) }
    {
        match self {
            Document::Array(items) => Some(items.len()),
            _ => None,
        }
    }
}

impl<T: KeyText + Drop> Document<T> {
    ghost use Rattle.sj_document.specs.Document.{document_tree, edit_fault, Means, IsEdited, IsAsItWas};
    ghost use Rattle.sj_document.specs.Items.{with_item_at, without_item_at};

    /// Inserts an item at that position, counted from 0: in front of the item that stands there, or
    /// behind all where `index` is the `array_len`, which it may not pass. On a non-array, and for
    /// want of memory, it is refused: the value comes back, and the document is as it was.
    pub fn insert_idx(
        &mut self,
        index: usize,
        value: Document<T>,
    ) -> Result<(), Refused<AccessError, Document<T>>>
        requires { ForSome (option_map items_len (as_items (document_tree T.text_of self.old))) (λ len. index ≤ len) }
        ensures after { OnOk result (IsEdited T.text_of (with_item_at index (document_tree T.text_of value)) self.old self.new) }
        ensures refused { OnErr result (IsAsItWas T.text_of self.old self.new) }
        ensures returned { IfErr result (λ r. r.value ≡ value) }
        ensures kind { IfErr result (λ r. r.why ≡ edit_fault AccessError.NotAnArray (as_items (document_tree T.text_of self.old))) }
        ensures array { OnOk result (IsSome (as_items (document_tree T.text_of self.old))) }
    {
        match self {
            Document::Array(items) => match items.insert(index, value) {
                Ok(()) => Ok(()),
                Err(refused) => Err(Refused {
                    why: AccessError::OutOfMemory,
                    value: refused.value,
                }),
            },
            _ => Err(Refused {
                why: AccessError::NotAnArray,
                value,
            }),
        }
    }

    /// Takes the item at that position out, counted from 0, and answers it; the items behind it close
    /// up. Past the last it answers None, and the document is as it was. It is refused on a non-array
    /// alone.
    pub fn remove_idx(&mut self, index: usize) -> Result<Option<Document<T>>, AccessError>
        ensures answer { IfOk result (Means T.text_of (nth index (document_tree T.text_of self.old))) }
        ensures after { IsEdited T.text_of (without_item_at index) self.old self.new }
        ensures refused { OnErr result (IsAsItWas T.text_of self.old self.new) }
        ensures kind { IfErr result (λ e. (e ≡ AccessError.NotAnArray) × (as_items (document_tree T.text_of self.old) ≡ None)) }
        ensures array { OnOk result (IsSome (as_items (document_tree T.text_of self.old))) }
    {
        match self {
            Document::Array(items) => Ok(take_out(items, index)),
            _ => Err(AccessError::NotAnArray),
        }
    }
}

/// Takes the item at that position out; None past the last.
fn take_out<T: KeyText>(items: &mut Vec<Document<T>>, index: usize) -> Option<Document<T>>
    ensures answer { Means T.text_of (nth_item index (items_from (map (document_tree T.text_of) items.old.items))) result }
    ensures after { items_from (map (document_tree T.text_of) items.new.items) ≡ remove_at index (items_from (map (document_tree T.text_of) items.old.items)) }
{
    if index < items.len() {
        Some(items.remove(index))
    } else {
        None
    }
}
