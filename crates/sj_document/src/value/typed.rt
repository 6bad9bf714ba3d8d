//! Typed reads of members.
//!
//! `get_T` answers the member of the key where it is a `T`, and None otherwise. `try_get_T` answers
//! None where there is no such member, and a fault where it is no `T` or the document is no object.

ghost use Rattle.std.specs.Prelude.{◌≡◌, option_map, map};
ghost use Rattle.std.specs.Result.{result_map_both};
ghost use Rattle.sj_text_core.specs.Find.{find};
ghost use Rattle.sj_text_core.specs.Reads.{as_text, as_items, as_members, member_as, try_member_as};
ghost use Rattle.sj_text_core.specs.Tree.{items_from};
ghost use Rattle.sj_object.specs.Members.{entry_members};

use crate::value::{Document, Object};
use sj_object::KeyText;
use sj_text_core::{Scalar, TryTypeError, ValueAsScalar, ValueObjectAccessAsScalar, ValueType};

impl<T: KeyText> ValueObjectAccessAsScalar for Document<T> {
    ghost use Rattle.sj_document.specs.Document.{document_tree};

    ghost member_tree = { λ d k. find k (document_tree T.text_of d) };

    fn get_scalar<S: Scalar>(&self, key: &str) -> Option<S> {
        S::of(self.get(key)?)
    }

    fn try_get_scalar<S: Scalar>(&self, key: &str) -> Result<Option<S>, TryTypeError> {
        match self.try_get(key)? {
            Some(member) => S::try_of(member),
            None => Ok(None),
        }
    }
}

impl<T: KeyText> Document<T> {
    ghost use Rattle.sj_document.specs.Document.{document_tree};

    /// The member of the key, where it is a text.
    pub fn get_str(&self, key: &str) -> Option<&str>
        ensures { option_map (λ s. s.now) result ≡ member_as as_text (find key.now (document_tree T.text_of self.now)) }
    {
        self.get(key)?.as_str()
    }

    /// As `get_str`; of another member, and of a non-object, which kind it is.
    pub fn try_get_str(&self, key: &str) -> Result<Option<&str>, TryTypeError>
        ensures { result_map_both (option_map (λ s. s.now)) (λ e. e) result ≡ try_member_as as_text ValueType.String (document_tree T.text_of self.now) (find key.now (document_tree T.text_of self.now)) }
    {
        match self.try_get(key)? {
            Some(member) => Ok(Some(member.try_as_str()?)),
            None => Ok(None),
        }
    }

    /// The member of the key, where it is an array.
    pub fn get_array(&self, key: &str) -> Option<&Vec<Document<T>>>
        ensures { option_map (λ v. items_from (map (document_tree T.text_of) v.now.items)) result ≡ member_as as_items (find key.now (document_tree T.text_of self.now)) }
    {
        self.get(key)?.as_array()
    }

    /// As `get_array`; of another member, and of a non-object, which kind it is.
    pub fn try_get_array(&self, key: &str) -> Result<Option<&Vec<Document<T>>>, TryTypeError>
        ensures { result_map_both (option_map (λ v. items_from (map (document_tree T.text_of) v.now.items))) (λ e. e) result ≡ try_member_as as_items ValueType.Array (document_tree T.text_of self.now) (find key.now (document_tree T.text_of self.now)) }
    {
        match self.try_get(key)? {
            Some(member) => Ok(Some(member.try_as_array()?)),
            None => Ok(None),
        }
    }

    /// The member of the key, where it is an object.
    pub fn get_object(&self, key: &str) -> Option<&Object<T>>
        ensures { option_map (λ m. entry_members (document_tree T.text_of) m.now.entries) result ≡ member_as as_members (find key.now (document_tree T.text_of self.now)) }
    {
        self.get(key)?.as_object()
    }

    /// As `get_object`; of another member, and of a non-object, which kind it is.
    pub fn try_get_object(&self, key: &str) -> Result<Option<&Object<T>>, TryTypeError>
        ensures { result_map_both (option_map (λ m. entry_members (document_tree T.text_of) m.now.entries)) (λ e. e) result ≡ try_member_as as_members ValueType.Object (document_tree T.text_of self.now) (find key.now (document_tree T.text_of self.now)) }
    {
        match self.try_get(key)? {
            Some(member) => Ok(Some(member.try_as_object()?)),
            None => Ok(None),
        }
    }
}
