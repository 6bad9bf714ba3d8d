//! How many items an array has, and edits of it at a position. Each edit makes the value an owned
//! document first, so it is one after every answer but that of a refused upgrade, which leaves it as it
//! was.

ghost use Rattle.std.specs.Prelude.{◌≡◌, ◌≤◌, option_map, OnOk, IfOk, IfErr, IsSome};
ghost use Rattle.std.specs.Option.{ForSome};
ghost use Rattle.sj_text_core.specs.Tree.{items_len};
ghost use Rattle.sj_text_core.specs.Find.{nth};
ghost use Rattle.sj_text_core.specs.Reads.{as_items};

use super::{Lazy, Value};
use crate::upgrade::{Lent, Upgrade};
use sj_document::Document;
use sj_object::KeyText;
use sj_text_core::{AccessError, Refused};
use std::alloc::Global;

impl<'b, 't, 'i> Value<'b, 't, 'i> {
    ghost use Rattle.sj_lazy.specs.Value.{value_tree, value_kept};

    /// How many items an array has; None on a non-array.
    pub fn array_len(&self) -> Option<usize>
        ensures shown { result ≡ option_map items_len (as_items (value_tree self.now)) }
        ensures kept { result ≡ option_map items_len (as_items (value_kept self.now)) }
    {
        match self {
            Lazy::Tape(part) => Some(part.as_array()?.len()),
            Lazy::Value(value) => value.document().array_len(),
        }
    }
}

impl<P: Upgrade<T> + Drop, B: Lent<T> + Drop, T: KeyText + Drop> Lazy<P, B, T> {
    ghost use Rattle.sj_document.specs.Document.{document_tree, Means};
    ghost use Rattle.sj_document.specs.Items.{with_item_at, without_item_at};
    ghost use Rattle.sj_lazy.specs.Value.{lazy_kept};
    ghost use Rattle.sj_lazy.specs.Edits.{IsOwnedAs, IsLeftByPut, IsLeftByRemoval};

    /// Inserts an item at that position, counted from 0: in front of the item that stands there, or
    /// behind all where `index` is the `array_len`, which it may not pass. Refused on a non-array
    /// and for want of memory: the value comes back. Refused, it is as it was where the upgrade was
    /// refused, and else a document of the tree that it kept.
    pub fn insert_idx(
        &mut self,
        alloc: Global,
        index: usize,
        value: Document<T>,
    ) -> Result<(), Refused<AccessError, Document<T>>>
        requires { ForSome (option_map items_len (as_items (lazy_kept P.part_kept B.lent_tree T.text_of self.old))) (λ len. index ≤ len) }
        ensures after { OnOk result (IsOwnedAs P.part_kept B.lent_tree T.text_of (with_item_at index (document_tree T.text_of value)) self.old self.new) }
        ensures array { OnOk result (IsSome (as_items (lazy_kept P.part_kept B.lent_tree T.text_of self.old))) }
        ensures refused { IfErr result (λ r. IsLeftByPut P.part_kept B.lent_tree T.text_of as_items AccessError.NotAnArray self.old self.new r.why) }
        ensures returned { IfErr result (λ r. r.value ≡ value) }
    {
        match self.as_mut(alloc) {
            Ok(document) => document.insert_idx(index, value),
            Err(_) => Err(Refused {
                why: AccessError::OutOfMemory,
                value,
            }),
        }
    }

    /// Takes the item at that position out, counted from 0, and answers it; the items behind it
    /// close up. Past the last it answers None, and does nothing but the upgrade. Refused on a
    /// non-array, and where the upgrade is. Refused, it is as it was where the upgrade was refused,
    /// and else a document of the tree that it kept.
    pub fn remove_idx(
        &mut self,
        alloc: Global,
        index: usize,
    ) -> Result<Option<Document<T>>, AccessError>
        ensures answer { IfOk result (Means T.text_of (nth index (lazy_kept P.part_kept B.lent_tree T.text_of self.old))) }
        ensures after { OnOk result (IsOwnedAs P.part_kept B.lent_tree T.text_of (without_item_at index) self.old self.new) }
        ensures array { OnOk result (IsSome (as_items (lazy_kept P.part_kept B.lent_tree T.text_of self.old))) }
        ensures refused { IfErr result (IsLeftByRemoval P.part_kept B.lent_tree T.text_of as_items AccessError.NotAnArray self.old self.new) }
    {
        match self.as_mut(alloc) {
            Ok(document) => document.remove_idx(index),
            Err(_) => Err(AccessError::OutOfMemory),
        }
    }
}
