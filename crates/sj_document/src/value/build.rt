//! The document type as what a tape is read to.

ghost use Rattle.std.specs.Prelude.{◌≡◌, true, map, IfOk, All, string_bytes};
ghost use Rattle.std.specs.Cow.{cow_str_bytes};
ghost use Rattle.sj_text_core.specs.Tree.{list, obj, text, items_from};
ghost use Rattle.sj_text_core.specs.Scalars.{static_tree};
ghost use Rattle.sj_text_core.specs.Repeats.{keep_by};
ghost use Rattle.sj_tape.specs.Value.{tape_tree, tape_choice};
ghost use Rattle.sj_object.specs.Members.{entry_members};
ghost use Rattle.sj_object.specs.Builder.{AreMade};
ghost use Rattle.sj_object.specs.Keys.{is_borrowed};
ghost use Rattle.sj_document.specs.Document.{document_tree, all_texts};

use crate::value::{BorrowedValue, Document, Object, OwnedValue};
use sj_object::{Builder, KeyMade, Made, build_from_tape};
use sj_tape::Value;
use sj_text_core::StaticNode;
use std::alloc::{AllocError, Global};
use std::borrow::CowStr;

impl<T: KeyMade> Made<T> for Document<T> {
    type Map = Object<T>;

    ghost use Rattle.std.specs.Prelude.{◌≡◌, true};
    ghost use Rattle.sj_document.specs.Document.{document_tree, all_texts};

    ghost tree = { document_tree T.text_of };

    ghost built = { λ v. all_texts T.is_made v ≡ true };

    fn from_static(scalar: StaticNode) -> Self
        ensures means { document_tree T.text_of result ≡ static_tree scalar }
        ensures property { all_texts T.is_made result ≡ true }
    {
        Document::Static(scalar)
    }

    fn from_vec(alloc: Global, items: Vec<Self>) -> Result<Self, AllocError>
        ensures means { IfOk result (λ v. document_tree T.text_of v ≡ list (items_from (map (document_tree T.text_of) items.items))) }
        ensures property { All (λ v. all_texts T.is_made v ≡ true) items.items → IfOk result (λ v. all_texts T.is_made v ≡ true) }
    {
        Ok(Document::Array(Box::new(alloc, items)?))
    }

    fn from_map(alloc: Global, members: Object<T>) -> Result<Self, AllocError>
        ensures means { IfOk result (λ v. document_tree T.text_of v ≡ obj (entry_members (document_tree T.text_of) members.entries)) }
        ensures property { AreMade T.is_made (λ v. all_texts T.is_made v ≡ true) members.entries → IfOk result (λ v. all_texts T.is_made v ≡ true) }
    {
        Ok(Document::Object(Box::new(alloc, members)?))
    }
}

impl<'de> Builder<'de, String> for OwnedValue {
    fn from_text(alloc: Global, string: &'de str) -> Result<Self, AllocError>
        ensures means { IfOk result (λ v. document_tree string_bytes v ≡ text string.now) }
        ensures property { IfOk result (λ v. all_texts (λ _. true) v ≡ true) }
    {
        Ok(Document::String(String::from_str(alloc, string)?))
    }
}

impl<'de> Builder<'de, CowStr<'de>> for BorrowedValue<'de> {
    fn from_text(_alloc: Global, string: &'de str) -> Result<Self, AllocError>
        ensures means { IfOk result (λ v. document_tree cow_str_bytes v ≡ text string.now) }
        ensures property { IfOk result (λ v. all_texts is_borrowed v ≡ true) }
    {
        Ok(Document::String(CowStr::Borrowed(string)))
    }
}

/// The document of a part of a tape, which owns its texts: of each key the member that counts stays.
pub fn owned_from_tape(alloc: Global, value: Value<'_, '_>) -> Result<OwnedValue, AllocError>
    ensures { IfOk result (λ v. document_tree string_bytes v ≡ keep_by (tape_choice value.entry) (tape_tree value.entry)) }
{
    build_from_tape::<OwnedValue, String>(alloc, value)
}

/// The document of a part of a tape, with every text lent: of each key the member that counts stays.
pub fn borrowed_from_tape<'de>(
    alloc: Global,
    value: Value<'_, 'de>,
) -> Result<BorrowedValue<'de>, AllocError>
    ensures tree { IfOk result (λ v. document_tree cow_str_bytes v ≡ keep_by (tape_choice value.entry) (tape_tree value.entry)) }
    ensures lent { IfOk result (λ v. all_texts is_borrowed v ≡ true) }
{
    build_from_tape::<BorrowedValue<'de>, CowStr<'de>>(alloc, value)
}
