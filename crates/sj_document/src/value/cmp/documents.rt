//! Whether two documents are the same. Nothing is built, and no memory is taken.

ghost use Rattle.std.specs.Prelude.{◌≡◌, ◌↔◌, IsTrue, IfSome, Some, map};
ghost use Rattle.std.specs.Option.{option_copied};
ghost use Rattle.sj_text_core.specs.Same.{Same};
ghost use Rattle.sj_text_core.specs.Tree.{list, obj, items_from};
ghost use Rattle.sj_object.specs.Edits.{lookup};
ghost use Rattle.sj_object.specs.Members.{entry_members};
ghost use Rattle.sj_document.specs.Document.{document_tree};

use crate::value::{Document, Object};
use sj_object::KeyText;
use sj_text_core::are_same_texts;

/// The value of the key, where `near` is a member that may have it: it is looked at first.
fn value_near<'m, T: KeyText>(
    members: &'m Object<T>,
    near: Option<(&'m T, &'m Document<T>)>,
    key: &str,
) -> Option<&'m Document<T>>
    requires { IfSome near (λ p. lookup (T.text_of p.0.now) members.now.entries ≡ Some p.1.now) }
    ensures { option_copied result ≡ lookup key.now members.now.entries }
{
    match near {
        Some((name, value)) if are_same_texts(name.text(), key) => Some(value),
        _ => members.get(key),
    }
}

#[cycle(same)]
#[inline(always)]
fn same_values<T: KeyText, U: KeyText>(left: &Document<T>, right: &Document<U>) -> bool
    ensures { IsTrue result ↔ Same (document_tree T.text_of left.now) (document_tree U.text_of right.now) }
{
    match left {
        Document::Static(scalar) => match right {
            Document::Static(other) => *scalar == *other,
            _ => false,
        },
        Document::String(text) => match right {
            Document::String(other) => are_same_texts(text.text(), other.text()),
            _ => false,
        },
        Document::Array(items) => match right {
            Document::Array(others) => same_items(items, others),
            _ => false,
        },
        Document::Object(members) => match right {
            Document::Object(others) => same_members(members, others),
            _ => false,
        },
    }
}

#[cycle(same)]
#[inline(never)]
fn same_items<T: KeyText, U: KeyText>(left: &Vec<Document<T>>, right: &Vec<Document<U>>) -> bool
    ensures { IsTrue result ↔ Same (list (items_from (map (document_tree T.text_of) left.now.items))) (list (items_from (map (document_tree U.text_of) right.now.items))) }
{
    let items = left.as_slice();
    let others = right.as_slice();
    if items.len() != others.len() {
        return false;
    }
    for (i, item) in items.iter().enumerate() {
        if !same_values(item, &others[i]) {
            return false;
        }
    }
    true
}

/// Each member is looked for in its own place first.
#[cycle(same)]
#[inline(never)]
fn same_members<T: KeyText, U: KeyText>(left: &Object<T>, right: &Object<U>) -> bool
    ensures { IsTrue result ↔ Same (obj (entry_members (document_tree T.text_of) left.now.entries)) (obj (entry_members (document_tree U.text_of) right.now.entries)) }
{
    if left.len() != right.len() {
        return false;
    }
    let mut others = right.iter();
    for (key, value) in left.iter() {
        match value_near(right, others.next(), key.text()) {
            Some(other) => {
                if !same_values(value, other) {
                    return false;
                }
            }
            None => return false,
        }
    }
    true
}

/// Whether the two mean one document.
pub fn same<T: KeyText, U: KeyText>(left: &Document<T>, right: &Document<U>) -> bool
    ensures { IsTrue result ↔ Same (document_tree T.text_of left.now) (document_tree U.text_of right.now) }
{
    same_values(left, right)
}
