//! Indexing by a key and by a position, where the caller knows that it is there.

ghost use Rattle.std.specs.Prelude.{◌≡◌, Some, IsSome, option_map};
ghost use Rattle.sj_text_core.specs.Find.{find, nth};
ghost use Rattle.std.specs.Borrow.{sem};
ghost use Rattle.sj_text_core.specs.Paths.{by_key, by_place};
ghost use Rattle.sj_document.specs.Document.{document_tree};
ghost use Rattle.sj_document.specs.Rows.{LendsFound};

use crate::value::Document;
use sj_object::KeyText;
use std::ops::{Index, IndexMut};

/// The value of a key that is there.
impl<'k, T: KeyText> Index<&'k str> for Document<T> {
    type Output = Document<T>;

    ghost can_index = { λ v key. IsSome (find key.now (document_tree T.text_of v)) };

    ghost index_gives = { λ v key found. Some (document_tree T.text_of found) ≡ find key.now (document_tree T.text_of v) };

    fn index(&self, key: &'k str) -> &Document<T> {
        self.get(key).unwrap()
    }
}

/// The item at a position that is there.
impl<T: KeyText> Index<usize> for Document<T> {
    type Output = Document<T>;

    ghost can_index = { λ v index. IsSome (nth index (document_tree T.text_of v)) };

    ghost index_gives = { λ v index found. Some (document_tree T.text_of found) ≡ nth index (document_tree T.text_of v) };

    fn index(&self, index: usize) -> &Document<T> {
        self.get_idx(index).unwrap()
    }
}

/// The value of a key that is there, to write. The document is then as it was, with what the
/// reference last held in the place of that value.
impl<'k, T: KeyText> IndexMut<&'k str> for Document<T> {
    fn index_mut(&mut self, key: &'k str) -> &mut Document<T>
        requires { IsSome (find key.now (document_tree T.text_of self.old)) }
        ensures* writes_back { sem 𝓛 (LendsFound T.row T.KeyText self.entry result (by_key key.now)) }
        ensures value { Some (document_tree T.text_of result.now) ≡ find key.now (document_tree T.text_of self.old) }
    {
        match self.get_mut(key) {
            Some(found) => found,
            None => unreachable!(),
        }
    }
}

/// The item at a position that is there, to write. The document is then as it was, with what the
/// reference last held in the place of that item.
impl<T: KeyText> IndexMut<usize> for Document<T> {
    fn index_mut(&mut self, index: usize) -> &mut Document<T>
        requires { IsSome (nth index (document_tree T.text_of self.old)) }
        ensures* writes_back { sem 𝓛 (LendsFound T.row T.KeyText self.entry result (by_place index)) }
        ensures value { Some (document_tree T.text_of result.now) ≡ nth index (document_tree T.text_of self.old) }
    {
        match self.get_idx_mut(index) {
            Some(found) => found,
            None => unreachable!(),
        }
    }
}
