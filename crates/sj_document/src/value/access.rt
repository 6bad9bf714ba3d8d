//! What reads a part of a document, lends it for writing, or takes it out.

ghost use Rattle.std.specs.Prelude.{◌≡◌, option_map, is_some, map};
ghost use Rattle.std.specs.Result.{result_map_both};
ghost use Rattle.sj_text_core.specs.Find.{find, nth};
ghost use Rattle.sj_text_core.specs.Reads.{as_items, as_members, as_text, try_as, try_found};
ghost use Rattle.sj_text_core.specs.Tree.{items_from, list, obj};
ghost use Rattle.sj_object.specs.Members.{entry_members};

use crate::value::{Document, Object};
use sj_object::KeyText;
use sj_text_core::{TryTypeError, TypedValue, ValueType};

impl<T: KeyText> Document<T> {
    ghost use Rattle.std.specs.Borrow.{LendsIf, sem};
    ghost use Rattle.std.specs.Option.{option_copied_mut};
    ghost use Rattle.std.specs.Vec.{with_item};
    ghost use Rattle.sj_text_core.specs.Find.{nth_item};
    ghost use Rattle.sj_text_core.specs.Paths.{by_key, by_place, set_found};
    ghost use Rattle.sj_object.specs.Edits.{lookup, with_value};
    ghost use Rattle.sj_document.specs.Document.{document_tree};
    ghost use Rattle.sj_document.specs.Rows.{document_row, object_row, array_row, LendsIfFound};

    /// The value of the key; None where there is none, and on a non-object.
    pub fn get(&self, key: &str) -> Option<&Document<T>>
        ensures { option_map (λ v. document_tree T.text_of v.now) result ≡ find key.now (document_tree T.text_of self.now) }
    {
        match self {
            Document::Object(members) => members.get(key),
            _ => None,
        }
    }

    /// As `get`; of a non-object, which kind it is.
    pub fn try_get(&self, key: &str) -> Result<Option<&Document<T>>, TryTypeError>
        ensures { result_map_both (option_map (λ v. document_tree T.text_of v.now)) (λ e. e) result ≡ try_found (document_tree T.text_of self.now) (find key.now (document_tree T.text_of self.now)) }
    {
        match self {
            Document::Object(members) => Ok(members.get(key)),
            _ => Err(TryTypeError {
                expected: ValueType::Object,
                got: self.value_type(),
            }),
        }
    }

    /// Whether a member has the key; false on a non-object.
    pub fn contains_key(&self, key: &str) -> bool
        ensures { result ≡ is_some (find key.now (document_tree T.text_of self.now)) }
    {
        self.get(key).is_some()
    }

    /// The item at that position, counted from 0; None past the last, and on a non-array.
    pub fn get_idx(&self, index: usize) -> Option<&Document<T>>
        ensures { option_map (λ v. document_tree T.text_of v.now) result ≡ nth index (document_tree T.text_of self.now) }
    {
        match self {
            Document::Array(items) => items.get(index),
            _ => None,
        }
    }

    /// As `get_idx`; of a non-array, which kind it is.
    pub fn try_get_idx(&self, index: usize) -> Result<Option<&Document<T>>, TryTypeError>
        ensures { result_map_both (option_map (λ v. document_tree T.text_of v.now)) (λ e. e) result ≡ try_as (λ u. option_map (λ _. nth index u) (as_items u)) ValueType.Array (document_tree T.text_of self.now) }
    {
        match self {
            Document::Array(items) => Ok(items.get(index)),
            _ => Err(TryTypeError {
                expected: ValueType::Array,
                got: self.value_type(),
            }),
        }
    }

    /// The items, where it is an array; else None.
    pub fn as_array(&self) -> Option<&Vec<Document<T>>>
        ensures { option_map (λ v. items_from (map (document_tree T.text_of) v.now.items)) result ≡ as_items (document_tree T.text_of self.now) }
    {
        match self {
            Document::Array(items) => Some(items),
            _ => None,
        }
    }

    /// The items, where it is an array; else which kind it is.
    pub fn try_as_array(&self) -> Result<&Vec<Document<T>>, TryTypeError>
        ensures { result_map_both (λ v. items_from (map (document_tree T.text_of) v.now.items)) (λ e. e) result ≡ try_as as_items ValueType.Array (document_tree T.text_of self.now) }
    {
        match self.as_array() {
            Some(items) => Ok(items),
            None => Err(TryTypeError {
                expected: ValueType::Array,
                got: self.value_type(),
            }),
        }
    }

    /// The members, where it is an object; else None.
    pub fn as_object(&self) -> Option<&Object<T>>
        ensures { option_map (λ m. entry_members (document_tree T.text_of) m.now.entries) result ≡ as_members (document_tree T.text_of self.now) }
    {
        match self {
            Document::Object(members) => Some(members),
            _ => None,
        }
    }

    /// The members, where it is an object; else which kind it is.
    pub fn try_as_object(&self) -> Result<&Object<T>, TryTypeError>
        ensures { result_map_both (λ m. entry_members (document_tree T.text_of) m.now.entries) (λ e. e) result ≡ try_as as_members ValueType.Object (document_tree T.text_of self.now) }
    {
        match self.as_object() {
            Some(members) => Ok(members),
            None => Err(TryTypeError {
                expected: ValueType::Object,
                got: self.value_type(),
            }),
        }
    }

    /// The items, to write, where it is an array; else None. The document is then the array of what
    /// they last were.
    pub fn as_array_mut(&mut self) -> Option<&mut Vec<Document<T>>>
        ensures* writes_back { sem 𝓛 (LendsIfFound T.row T.KeyText (array_row T.row T.KeyText) self.entry result (λ w _. list (items_from (map (document_tree T.text_of) w.items)))) }
        ensures value { option_map (λ v. items_from (map (document_tree T.text_of) v.now.items)) result ≡ as_items (document_tree T.text_of self.old) }
    {
        match self {
            Document::Array(items) => Some(items),
            _ => None,
        }
    }

    /// The map, to write, where it is an object; else None. The document is then the object of what
    /// it last was.
    pub fn as_object_mut(&mut self) -> Option<&mut Object<T>>
        ensures* writes_back { sem 𝓛 (LendsIfFound T.row T.KeyText (object_row T.row T.KeyText) self.entry result (λ w _. obj (entry_members (document_tree T.text_of) w.entries))) }
        ensures value { option_map (λ m. entry_members (document_tree T.text_of) m.now.entries) result ≡ as_members (document_tree T.text_of self.old) }
    {
        match self {
            Document::Object(members) => Some(members),
            _ => None,
        }
    }

    /// The value of the key in the members of an object, to write.
    fn value_of<'a>(members: &'a mut Object<T>, key: &str) -> Option<&'a mut Document<T>>
        ensures* writes_back { sem 𝓛 (LendsIf (object_row T.row T.KeyText) (document_row T.row T.KeyText) members.entry result (with_value members.old key.now) members.old) }
        ensures value { option_copied_mut result ≡ lookup key.now members.old.entries }
    {
        members.get_mut(key)
    }

    // Why so: docs/REFUSED.md, "What `get_mut`, `get_idx_mut` and `IndexMut` leave".
    /// The value of the key, to write; None where there is none, and on a non-object. The document
    /// is then as it was, with what the reference last held in the place of that value.
    pub fn get_mut(&mut self, key: &str) -> Option<&mut Document<T>>
        ensures* writes_back { sem 𝓛 (LendsIfFound T.row T.KeyText (document_row T.row T.KeyText) self.entry result (λ w. set_found (by_key key.now) (document_tree T.text_of w))) }
        ensures value { option_map (λ v. document_tree T.text_of v.now) result ≡ find key.now (document_tree T.text_of self.old) }
    {
        match self.as_object_mut() {
            Some(members) => Document::value_of(members, key),
            None => None,
        }
    }

    /// The item at that position among the items of an array, to write.
    fn item_of(items: &mut Vec<Document<T>>, index: usize) -> Option<&mut Document<T>>
        ensures* writes_back { sem 𝓛 (LendsIf (array_row T.row T.KeyText) (document_row T.row T.KeyText) items.entry result (with_item items.old index) items.old) }
        ensures value { option_map (λ v. document_tree T.text_of v.now) result ≡ nth_item index (items_from (map (document_tree T.text_of) items.old.items)) }
    {
        items.get_mut(index)
    }

    /// The item at that position, counted from 0, to write; None past the last, and on a non-array.
    /// The document is then as it was, with what the reference last held in the place of that item.
    pub fn get_idx_mut(&mut self, index: usize) -> Option<&mut Document<T>>
        ensures* writes_back { sem 𝓛 (LendsIfFound T.row T.KeyText (document_row T.row T.KeyText) self.entry result (λ w. set_found (by_place index) (document_tree T.text_of w))) }
        ensures value { option_map (λ v. document_tree T.text_of v.now) result ≡ nth index (document_tree T.text_of self.old) }
    {
        match self.as_array_mut() {
            Some(items) => Document::item_of(items, index),
            None => None,
        }
    }
}

impl<T: KeyText + Drop> Document<T> {
    ghost use Rattle.sj_document.specs.Document.{document_tree};

    /// The items, where it is an array; anything else is given up.
    pub fn into_array(self) -> Option<Vec<Document<T>>>
        ensures { option_map (λ v. items_from (map (document_tree T.text_of) v.items)) result ≡ as_items (document_tree T.text_of self) }
    {
        match self {
            Document::Array(items) => Some(Box::into_inner(items)),
            _ => None,
        }
    }

    /// The members, where it is an object; anything else is given up.
    pub fn into_object(self) -> Option<Object<T>>
        ensures { option_map (λ m. entry_members (document_tree T.text_of) m.entries) result ≡ as_members (document_tree T.text_of self) }
    {
        match self {
            Document::Object(members) => Some(Box::into_inner(members)),
            _ => None,
        }
    }

    /// The text, where it is one; anything else is given up.
    pub fn into_string(self) -> Option<T>
        ensures { option_map T.text_of result ≡ as_text (document_tree T.text_of self) }
    {
        match self {
            Document::String(text) => Some(text),
            _ => None,
        }
    }
}
