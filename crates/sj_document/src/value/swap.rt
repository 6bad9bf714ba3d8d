//! Exchanges of what one step of a path finds.

ghost use Rattle.std.specs.Prelude.{◌≡◌};
ghost use Rattle.sj_text_core.specs.Places.{position_of};
ghost use Rattle.sj_text_core.specs.Paths.{by_key, by_place, by_token};
ghost use Rattle.sj_document.specs.Document.{document_tree};
ghost use Rattle.sj_document.specs.Descents.{Exchanged};

use crate::value::Document;
use sj_object::KeyText;
use std::mem;

/// Puts `other` in the place of the value of the key, and answers that value. Where there is none,
/// `other` comes back as `Err`, and the document stays as it was.
pub fn swap_member<T: KeyText>(
    value: &mut Document<T>,
    key: &str,
    other: Document<T>,
) -> Result<Document<T>, Document<T>>
    ensures { Exchanged T.text_of (by_key key.now) other (document_tree T.text_of value.old) (document_tree T.text_of value.new) result }
{
    match value {
        Document::Object(members) => match members.get_mut(key) {
            Some(child) => Ok(mem::replace(child, other)),
            None => Err(other),
        },
        _ => Err(other),
    }
}

/// Puts `other` in the place of the item, and answers that item. Where there is none, `other` comes
/// back as `Err`, and the document stays as it was.
pub fn swap_item<T: KeyText>(
    value: &mut Document<T>,
    place: usize,
    other: Document<T>,
) -> Result<Document<T>, Document<T>>
    ensures { Exchanged T.text_of (by_place place) other (document_tree T.text_of value.old) (document_tree T.text_of value.new) result }
{
    match value {
        Document::Array(items) => {
            if place < items.len() {
                Ok(mem::replace(&mut items[place], other))
            } else {
                Err(other)
            }
        }
        _ => Err(other),
    }
}

/// The same for a token of a pointer (RFC 6901, section 4), where `place` is the position that the
/// token names, if it names one: an item of an array by that, a member of an object by the token.
pub fn swap_token<T: KeyText>(
    value: &mut Document<T>,
    token: &str,
    place: Option<usize>,
    other: Document<T>,
) -> Result<Document<T>, Document<T>>
    requires { place ≡ position_of token.now }
    ensures { Exchanged T.text_of (by_token token.now) other (document_tree T.text_of value.old) (document_tree T.text_of value.new) result }
{
    if !matches!(value, Document::Array(_)) {
        return swap_member(value, token, other);
    }
    match place {
        Some(at) => swap_item(value, at, other),
        None => Err(other),
    }
}
