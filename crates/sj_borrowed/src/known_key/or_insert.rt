//! The value of a known key, which is made where the key is absent.

ghost use Rattle.std.specs.Prelude.{◌≡◌, ◌<◌, ℕ, Some, None, Ok, Err, length, IsSome, IfSome, IfOk, IfErr, IsOk, OnOk, OnErr};
ghost use Rattle.std.specs.Borrow.{LendsSoOk, sem};
ghost use Rattle.std.specs.Cow.{cow_str_bytes};
ghost use Rattle.std.specs.declared.alloc.Global.{Global};
ghost use Rattle.sj_text_core.specs.Find.{find};
ghost use Rattle.sj_text_core.specs.Reads.{as_members, kind_of};
ghost use Rattle.sj_text_core.specs.Tree.{obj};
ghost use Rattle.sj_object.specs.Edits.{lookup, position, put_entry, nth_value, with_value_at};
ghost use Rattle.sj_object.specs.Members.{entry_members};
ghost use Rattle.sj_document.specs.Document.{document_tree};
ghost use Rattle.sj_document.specs.Rows.{document_row, object_row};
ghost use Rattle.sj_borrowed.specs.Inserts.{IsCopy};
ghost use Rattle.sj_borrowed.specs.declared.known_key.error.Error.TheVariants.{NotAnObject, OutOfMemory};

use super::KnownKey;
use super::error::Error;
use super::stored::StoredKey;
use sj_document::{BorrowedValue, Document, Object};
use sj_object::{HashMap, KeyText, ObjectHasher};
use sj_text_core::{StaticNode, TypedValue};
use std::alloc::AllocError;
use std::borrow::CowStr;

/// The members of an object, to write. Anything else is refused for its kind, and is as it was.
pub(super) fn members_of<T: KeyText>(target: &mut Document<T>) -> Result<&mut Object<T>, Error>
    ensures* writes_back { sem 𝓛 (LendsSoOk (document_row T.row T.KeyText) (object_row T.row T.KeyText) target.entry result
        (λ n w. document_tree T.text_of n ≡ obj (entry_members (document_tree T.text_of) w.entries)) (λ n. document_tree T.text_of n ≡ document_tree T.text_of target.old)) }
    ensures value { IfOk result (λ m. Some (entry_members (document_tree T.text_of) m.now.entries) ≡ as_members (document_tree T.text_of target.old)) }
    ensures kind { IfErr result (λ why. why ≡ NotAnObject (kind_of (document_tree T.text_of target.old))) }
    ensures refused { OnErr result (as_members (document_tree T.text_of target.old) ≡ None) }
{
    let kind = target.value_type();
    match target.as_object_mut() {
        Some(members) => Ok(members),
        None => Err(Error::NotAnObject(kind)),
    }
}

/// Where the key stands; where it is absent, a copy of it goes last with what `with` answers, which
/// is called only then, and once there was memory for it.
fn place_or_put<'k: 'v, 'v, F: FnOnce() -> BorrowedValue<'v> + Drop>(
    members: &mut Object<CowStr<'v>>,
    key: &KnownKey<'k>,
    with: F,
) -> Result<usize, Error>
    requires { lookup (cow_str_bytes key.now) members.old.entries ≡ None → F.pre with }
    ensures placed { IfOk result (λ i. position (cow_str_bytes key.now) members.new.entries ≡ Some i) }
    ensures found { IsSome (lookup (cow_str_bytes key.now) members.old.entries) → (members.new ≡ members.old) × IsOk result }
    ensures made { lookup (cow_str_bytes key.now) members.old.entries ≡ None → OnOk result ((copy : CowStr Global) × (v : Document (CowStr Global)) × IsCopy key.now copy × F.post with v × (members.new.entries ≡ put_entry (copy, cow_str_bytes key.now) v members.old.entries)) }
    ensures refused { OnErr result (members.new ≡ members.old) }
    ensures kind { IfErr result (λ why. why ≡ OutOfMemory) }
{
    let hash = key.hash();
    // Why so: docs/REFUSED.md, "A key's place is looked for once".
    if let Some(place) = members.position_hashed(hash, key.key().text()) {
        return Ok(place);
    }
    let copy = match CowStr::copy_of(key) {
        Ok(copy) => copy,
        Err(_) => return Err(Error::OutOfMemory),
    };
    let last = members.len();
    // Why so: docs/REFUSED.md, "`lookup_or_insert_mut` puts a null".
    match members.append_hashed(hash, copy, Document::Static(StaticNode::Null)) {
        Ok(()) => {
            *members.value_at_mut(last) = with();
            Ok(last)
        }
        Err(_) => Err(Error::OutOfMemory),
    }
}

/// The value at a place among the members of an object, to write; or the fault that stands for one.
fn value_at<T: KeyText>(
    members: &mut Object<T>,
    place: Result<usize, Error>,
) -> Result<&mut Document<T>, Error>
    requires { IfOk place (λ i. i < length members.old.entries) }
    ensures* writes_back { sem 𝓛 (LendsSoOk (object_row T.row T.KeyText) (document_row T.row T.KeyText) members.entry result
        (λ n w. (i : ℕ) × (place ≡ Ok i) × (n ≡ with_value_at members.old i w)) (λ n. n ≡ members.old)) }
    ensures value { IfOk result (λ v. (i : ℕ) × (place ≡ Ok i) × (nth_value i members.old.entries ≡ Some v.now)) }
    ensures fault { IfErr result (λ why. place ≡ Err why) }
{
    match place {
        Ok(place) => Ok(members.value_at_mut(place)),
        Err(why) => Err(why),
    }
}

impl<'k> KnownKey<'k> {
    ghost use Rattle.sj_borrowed.specs.Inserts.{known_fault};
    ghost use Rattle.sj_borrowed.specs.Loans.{LendsInserted, LendsMember};

    /// The value of the key in a map, to write; where the key is absent, a copy of it goes last
    /// with what `with` answers. The map is then as it was, but for what the reference last held.
    /// It is refused only for want of memory, and for no key that is there: then `with` is not
    /// called, and the map is as it was.
    ///
    /// ```
    /// KnownKey::map_lookup_or_insert_mut(&mut members, &key, || Value::null())?;
    /// ```
    pub fn map_lookup_or_insert_mut<'m, K: StoredKey<'k>, V, F: FnOnce() -> V + Drop>(
        map: &'m mut HashMap<K, V, ObjectHasher>,
        key: &KnownKey<'k>,
        with: F,
    ) -> Result<&'m mut V, AllocError>
        requires { lookup (cow_str_bytes key.now) map.old.entries ≡ None → F.pre with }
        ensures* writes_back { sem 𝓛 (LendsInserted K.row V.row K.KeyText (K.is_copy key.now) map.entry (cow_str_bytes key.now) result) }
        ensures found { IfSome (lookup (cow_str_bytes key.now) map.old.entries) (λ before. IfOk result (λ v. v.now ≡ before)) }
        ensures made { lookup (cow_str_bytes key.now) map.old.entries ≡ None → IfOk result (λ v. F.post with v.now) }
        ensures succeeds { IsSome (lookup (cow_str_bytes key.now) map.old.entries) → IsOk result }
    {
        let hash = key.hash();
        if let Some(position) = map.position_hashed(hash, key.key().text()) {
            return Ok(map.value_at_mut(position));
        }
        let copy = K::copy_of(key)?;
        map.append_hashed_with(hash, copy, with)
    }

    /// The value of the key, to write; where the key is absent, a copy of it goes last with what
    /// `with` answers. The document is then as it was, with what the reference last held as the
    /// value of the key. On a non-object, and for want of memory where the key is absent, it is
    /// refused: `with` is not called, and the document is as it was.
    ///
    /// ```
    /// let count = KnownKey::lookup_or_insert_mut(&mut document, &key, || Value::from(0_u8))?;
    /// *count = Value::from(1_u8);
    /// ```
    pub fn lookup_or_insert_mut<'t, 'v, F: FnOnce() -> BorrowedValue<'v> + Drop>(
        target: &'t mut BorrowedValue<'v>,
        key: &KnownKey<'k>,
        with: F,
    ) -> Result<&'t mut BorrowedValue<'v>, Error>
    where
        'k: 'v,
        requires { IsSome (as_members (document_tree cow_str_bytes target.old)) → find (cow_str_bytes key.now) (document_tree cow_str_bytes target.old) ≡ None → F.pre with }
        ensures* writes_back { sem 𝓛 (LendsMember target.entry (cow_str_bytes key.now) result) }
        ensures found { IfSome (find (cow_str_bytes key.now) (document_tree cow_str_bytes target.old)) (λ before. IfOk result (λ v. document_tree cow_str_bytes v.now ≡ before)) }
        ensures made { find (cow_str_bytes key.now) (document_tree cow_str_bytes target.old) ≡ None → IfOk result (λ v. F.post with v.now) }
        ensures object { OnOk result (IsSome (as_members (document_tree cow_str_bytes target.old))) }
        ensures kind { IfErr result (λ why. why ≡ known_fault (document_tree cow_str_bytes target.old)) }
        ensures succeeds { IsSome (find (cow_str_bytes key.now) (document_tree cow_str_bytes target.old)) → IsOk result }
    {
        match members_of(target) {
            Ok(members) => {
                let place = place_or_put(members, key, with);
                value_at(members, place)
            }
            Err(why) => Err(why),
        }
    }
}
