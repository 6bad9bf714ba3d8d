//! Writes through a reference that is lent, with what the whole is then.

ghost use Rattle.std.specs.Prelude.{◌≡◌, Some, None, IfOk, IfErr};
ghost use Rattle.std.specs.Cow.{cow_str_bytes};
ghost use Rattle.sj_text_core.specs.Find.{find, nth};
ghost use Rattle.sj_text_core.specs.Paths.{by_key, by_place, set_found};
ghost use Rattle.sj_document.specs.Document.{document_tree, with_member};
ghost use Rattle.sj_lazy.specs.Value.{lazy_kept, owned};

use sj_borrowed::KnownKey;
use sj_borrowed::known_key::{Error, StoredKey};
use sj_document::{Change, Document, LendItem, LendMember, Replace, change_item, change_member};
use sj_lazy::{Lazy, Lent, Upgrade};
use sj_object::KeyText;
use sj_text_core::Refused;
use std::alloc::{AllocError, Global};
use std::mem;

/// Puts `new` in the place of the value of the key, and answers that value; `new` comes back where
/// there is none.
pub fn replace_member<T: KeyText>(
    document: &mut Document<T>,
    key: &str,
    new: Document<T>,
) -> Result<Document<T>, Replace<Document<T>>>
    ensures answer { IfOk result (λ before. Some (document_tree T.text_of before) ≡ find key.now (document_tree T.text_of document.old)) }
    ensures written { IfOk result (λ before. document_tree T.text_of document.new ≡ set_found (by_key key.now) (document_tree T.text_of new) (document_tree T.text_of document.old)) }
    ensures absent { IfErr result (λ back. (back.value ≡ new) × (None ≡ find key.now (document_tree T.text_of document.old)) × (document_tree T.text_of document.new ≡ document_tree T.text_of document.old)) }
{
    change_member(document, key, Replace { value: new })
}

/// Puts `new` in the place of the item at that position, and answers that item; `new` comes back
/// where there is none.
pub fn replace_item<T: KeyText>(
    document: &mut Document<T>,
    index: usize,
    new: Document<T>,
) -> Result<Document<T>, Replace<Document<T>>>
    ensures answer { IfOk result (λ before. Some (document_tree T.text_of before) ≡ nth index (document_tree T.text_of document.old)) }
    ensures written { IfOk result (λ before. document_tree T.text_of document.new ≡ set_found (by_place index) (document_tree T.text_of new) (document_tree T.text_of document.old)) }
    ensures absent { IfErr result (λ back. (back.value ≡ new) × (None ≡ nth index (document_tree T.text_of document.old)) × (document_tree T.text_of document.new ≡ document_tree T.text_of document.old)) }
{
    change_item(document, index, Replace { value: new })
}

/// A change of the value of a key, as a change of what lends it: so changes go down a path.
#[derive(Drop)]
pub struct AtKey<'k, C> {
    pub key: &'k str,
    pub change: C,
}

impl<'k, L: LendMember, C: Change<L::Output>> Change<L> for AtKey<'k, C> {
    type Answer = Result<C::Answer, C>;

    ghost use Rattle.std.specs.Prelude.{◌≡◌, Some, None, MatchResult};

    ghost makes = { λ at old new answer. MatchResult answer (λ a. (v : L.Output) × (w : L.Output) × L.finds_member old at.key.now (Some v) × C.makes at.change v w a × L.writes_member old at.key.now w new) (λ back. (back ≡ at.change) × L.finds_member old at.key.now None × L.keeps_members old new) };

    fn change(self, value: &mut L) -> Result<C::Answer, C> {
        let AtKey { key, change } = self;
        change_member(value, key, change)
    }
}

/// The same by a known key, at a document of any text.
pub fn replace_known<'k, T: KeyText>(
    document: &mut Document<T>,
    key: &KnownKey<'k>,
    new: Document<T>,
) -> Result<Document<T>, Document<T>>
    ensures answer { IfOk result (λ before. Some (document_tree T.text_of before) ≡ find (cow_str_bytes key.now) (document_tree T.text_of document.old)) }
    ensures written { IfOk result (λ before. document_tree T.text_of document.new ≡ set_found (by_key (cow_str_bytes key.now)) (document_tree T.text_of new) (document_tree T.text_of document.old)) }
    ensures absent { IfErr result (λ back. (back ≡ new) × (document_tree T.text_of document.new ≡ document_tree T.text_of document.old)) }
{
    KnownKey::replace(document, key, new)
}

/// Puts `new` in the place of the value of the key, and answers that value; where the key is absent, a
/// copy of it goes last with `new`, and a null is answered. Refused, the document is as it was, and `new`
/// comes back.
pub fn replace_known_or_insert<'k, T: StoredKey<'k>>(
    document: &mut Document<T>,
    key: &KnownKey<'k>,
    new: Document<T>,
) -> Result<Document<T>, Refused<Error, (Document<T>, Replace<Document<T>>)>>
    ensures written { IfOk result (λ before. document_tree T.text_of document.new ≡ with_member (cow_str_bytes key.now) (document_tree T.text_of new) (document_tree T.text_of document.old)) }
    ensures refused { IfErr result (λ r. (r.value.1.value ≡ new) × (document_tree T.text_of document.new ≡ document_tree T.text_of document.old)) }
{
    KnownKey::change_or_insert(document, key, Document::null(), Replace { value: new })
}

/// Puts `new` in the place of the item at that position, and answers that item; `new` comes back where
/// there is none.
pub fn replace_item_through<L: LendItem>(
    lender: &mut L,
    index: usize,
    new: L::Output,
) -> Result<L::Output, L::Output>
    ensures answer { IfOk result (λ before. L.finds_item lender.old index (Some before)) }
    ensures written { IfOk result (λ before. L.writes_item lender.old index new lender.new) }
    ensures absent { IfErr result (λ back. (back ≡ new) × L.finds_item lender.old index None × L.keeps_items lender.old lender.new) }
{
    match lender.item_mut(index) {
        Some(found) => Ok(mem::replace(found, new)),
        None => Err(new),
    }
}

/// Puts `new` in the place of the value of the key of a lazy value, once it is owned, and answers that
/// value; `new` comes back where there is none. Refused for want of memory, the lazy value is as it was.
pub fn replace_lazy_member<P: Upgrade<T> + Drop, B: Lent<T> + Drop, T: KeyText + Drop>(
    value: &mut Lazy<P, B, T>,
    alloc: Global,
    key: &str,
    new: Document<T>,
) -> Result<Result<Document<T>, Replace<Document<T>>>, Refused<AllocError, Replace<Document<T>>>>
    ensures answer { IfOk result (λ done. IfOk done (λ before. Some (document_tree T.text_of before) ≡ find key.now (lazy_kept P.part_kept B.lent_tree T.text_of value.old))) }
    ensures written { IfOk result (λ done. IfOk done (λ before. owned T.text_of value.new ≡ Some (set_found (by_key key.now) (document_tree T.text_of new) (lazy_kept P.part_kept B.lent_tree T.text_of value.old)))) }
    ensures absent { IfOk result (λ done. IfErr done (λ back. (back.value ≡ new) × (owned T.text_of value.new ≡ Some (lazy_kept P.part_kept B.lent_tree T.text_of value.old)))) }
    ensures refused { IfErr result (λ r. (r.value.value ≡ new) × (value.new ≡ value.old)) }
{
    value.change_member(alloc, key, Replace { value: new })
}
