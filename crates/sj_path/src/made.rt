//! Writes at a pointer that make the objects which are missing on the way.

ghost use Rattle.std.specs.Prelude.{◌≡◌, ◌++◌, Some, None, IfOk, IfErr, IsOk, IsSome, OnOk, OnErr, map, string_bytes};
ghost use Rattle.sj_text_core.specs.Tree.{Tree, null, obj, member, no_members};
ghost use Rattle.sj_document.specs.Document.{document_tree, edit_fault, Means, IsAsItWas};
ghost use Rattle.sj_pointer.specs.Pointed.{pointed};
ghost use Rattle.sj_path.specs.Made.{nested, set_made};
ghost use Rattle.sj_path.specs.inner.Made.{IsEndOf};

use crate::edits::InsertMember;
use crate::walk::step;
use crate::write::{replace, update_in};
use sj_document::{CopyText, Document};
use sj_object::KeyText;
use sj_pointer::Pointer;
use sj_text_core::{AccessError, Refused, TypedValue};
use std::alloc::{AllocError, Global};
use std::borrow::CowStr;

/// A text that can be copied, and made of an owned one.
pub trait OwnedText: CopyText {
    /// The same text, moved.
    fn owned(text: String) -> Self
        ensures { Self.text_of result ≡ string_bytes text };
}

impl OwnedText for String {
    fn owned(text: String) -> String {
        text
    }
}

impl<'v> OwnedText for CowStr<'v> {
    fn owned(text: String) -> CowStr<'v> {
        CowStr::Owned(text)
    }
}

/// The object of that one member.
fn of_member<T: OwnedText + Drop>(
    alloc: Global,
    token: &str,
    value: Document<T>,
) -> Result<Document<T>, AllocError>
    ensures { IfOk result (λ v. document_tree T.text_of v ≡ obj (member token.now (document_tree T.text_of value) no_members)) }
{
    let key = T::owned(String::from_str(alloc, token)?);
    let mut object = Document::object_with_capacity(alloc, 1)?;
    match object.insert(key, value) {
        Ok(_) => Ok(object),
        Err(_) => Err(AllocError),
    }
}

/// An object for each token, each within the one before, and a null in the last.
fn nest<T: OwnedText + Drop>(alloc: Global, tokens: &[String]) -> Result<Document<T>, AllocError>
    ensures { IfOk result (λ v. document_tree T.text_of v ≡ nested (map string_bytes tokens.now) null) }
{
    let mut inner = Document::null();
    let mut left = tokens.len();
    while left > 0 {
        left -= 1;
        inner = of_member(alloc, tokens[left].as_str(), inner)?;
    }
    Ok(inner)
}

/// The tokens that find something one after another, those behind them, and whether an object stands
/// where the first lead.
fn split_found<'s, T: KeyText>(
    value: &Document<T>,
    tokens: &'s [String],
) -> (&'s [String], &'s [String], bool)
    ensures joined { result.0.now ++ result.1.now ≡ tokens.now }
    ensures found { (u : Tree) × (pointed (map string_bytes result.0.now) (document_tree T.text_of value.now) ≡ Some u) × IsEndOf (map string_bytes result.1.now) u result.2 }
{
    let mut at = value;
    for depth in 0..tokens.len() {
        match step(at, tokens[depth].as_str()) {
            Some(next) => at = next,
            None => return (&tokens[..depth], &tokens[depth..], at.is_object()),
        }
    }
    (tokens, &tokens[tokens.len()..], at.is_object())
}

/// Puts a null where the tokens lead, which find nothing, and makes the objects that are missing on the
/// way. Refused, the document is as it was.
fn make_way<T: OwnedText + Drop>(
    value: &mut Document<T>,
    alloc: Global,
    tokens: &[String],
) -> Result<(), AccessError>
    requires { pointed (map string_bytes tokens.now) (document_tree T.text_of value.old) ≡ None }
    ensures after { OnOk result (set_made (map string_bytes tokens.now) null (document_tree T.text_of value.old) ≡ Some (document_tree T.text_of value.new)) }
    ensures refused { OnErr result (IsAsItWas T.text_of value.old value.new) }
    ensures kind { IfErr result (λ e. e ≡ edit_fault AccessError.NotAnObject (set_made (map string_bytes tokens.now) null (document_tree T.text_of value.old))) }
{
    let (way, rest, is_object) = split_found(value, tokens);
    let [first, inner @ ..] = rest else {
        return Ok(());
    };
    if !is_object {
        return Err(AccessError::NotAnObject);
    }
    let change = InsertMember {
        key: T::owned(String::from_str(alloc, first.as_str())?),
        value: nest(alloc, inner)?,
    };
    match update_in(value, way, change) {
        Ok(answer) => match answer {
            Ok(_) => Ok(()),
            Err(refused) => Err(refused.why),
        },
        Err(_) => Err(AccessError::NotAnObject),
    }
}

/// Sets what the pointer leads to, and answers what stood there. A key that an object lacks is put
/// behind its members, and where tokens are left, with an object for each. Where a token finds nothing
/// in an array, or meets a scalar, it is refused as `NotAnObject`: nothing is overwritten on the way.
/// Refused so or for want of memory, the value comes back, and the document is as it was.
pub fn set<T: OwnedText + Drop>(
    value: &mut Document<T>,
    alloc: Global,
    pointer: &Pointer,
    new: Document<T>,
) -> Result<Option<Document<T>>, Refused<AccessError, Document<T>>>
    ensures answer { IfOk result (Means T.text_of (pointed pointer.now (document_tree T.text_of value.old))) }
    ensures after { OnOk result (set_made pointer.now (document_tree T.text_of new) (document_tree T.text_of value.old) ≡ Some (document_tree T.text_of value.new)) }
    ensures refused { OnErr result (IsAsItWas T.text_of value.old value.new) }
    ensures returned { IfErr result (λ r. r.value ≡ new) }
    ensures kind { IfErr result (λ r. r.why ≡ edit_fault AccessError.NotAnObject (set_made pointer.now (document_tree T.text_of new) (document_tree T.text_of value.old))) }
    ensures succeeds { IsSome (pointed pointer.now (document_tree T.text_of value.old)) → IsOk result }
{
    let new = match replace(value, pointer, new) {
        Ok(before) => return Ok(Some(before)),
        Err(new) => new,
    };
    match make_way(value, alloc, pointer.tokens()) {
        Ok(()) => {
            let _ = replace(value, pointer, new);
            Ok(None)
        }
        Err(why) => Err(Refused { why, value: new }),
    }
}
