//! Documents of what stands in the source: texts, lists and pairs.

ghost use Rattle.std.specs.Prelude.{◌≡◌, IfOk, map};
ghost use Rattle.sj_text_core.specs.Tree.{list, obj, no_members, items_from, text as text_tree};

use crate::value::{Document, Object};
use sj_object::{KeyOf, KeyText, MapOf, ObjectHasher};
use std::alloc::{AllocError, Global};

impl<T: KeyText + Drop> Document<T> {
    ghost use Rattle.sj_document.specs.Document.{document_tree, put_pairs};

    /// A text: a copy where the document owns its texts, and the text itself where it lends them. It
    /// is refused only for want of memory, which a lent one does not ask for.
    pub fn text<'t>(alloc: Global, string: &'t str) -> Result<Self, AllocError>
    where
        T: KeyOf<'t>,
        ensures { IfOk result (λ d. document_tree T.text_of d ≡ text_tree string.now) }
    {
        Ok(Document::String(T::of(alloc, string)?))
    }

    /// An array of the values in order. It is refused only for want of memory, and they are then
    /// given up.
    pub fn array_of<const N: usize>(
        alloc: Global,
        values: [Document<T>; N],
    ) -> Result<Self, AllocError>
        ensures { IfOk result (λ d. document_tree T.text_of d ≡ list (items_from (map (document_tree T.text_of) values))) }
    {
        let items = Vec::from_array(alloc, values)?;
        Ok(Document::Array(Box::new(alloc, items)?))
    }

    // Why so: docs/REFUSED.md, "`object_of` takes a vector of pairs".
    /// An object of the pairs, inserted in turn: a key that comes again takes the later value, in its
    /// first place. It is refused only for want of memory, and the values are then given up.
    pub fn object_of<'t>(
        alloc: Global,
        pairs: Vec<(&'t str, Document<T>)>,
    ) -> Result<Self, AllocError>
    where
        T: KeyOf<'t>,
        ensures { IfOk result (λ d. document_tree T.text_of d ≡ obj (put_pairs (λ k. k.now) (document_tree T.text_of) no_members pairs.entry.items)) }
    {
        let mut members = Object::with_capacity_and_hasher(
            alloc,
            pairs.len(),
            ObjectHasher::default(),
        )?;
        for (name, value) in pairs {
            let key = T::of(alloc, name)?;
            members.set(key, value)?;
        }
        Ok(Document::Object(Box::new(alloc, members)?))
    }
}
