//! The walk over a document.

ghost use Rattle.std.specs.Prelude.{◌≡◌, ◌<◌, ◌^◌, ◌+◌, map, option_and_then, option_map, string_bytes, IfSome};
ghost use Rattle.std.specs.Borrow.{sem};
ghost use Rattle.std.specs.List.{slice_get};
ghost use Rattle.sj_document.specs.Document.{document_tree};
ghost use Rattle.sj_document.specs.Rows.{document_row, LendsIfFound};
ghost use Rattle.sj_text_core.specs.Paths.{by_token, set_found};
ghost use Rattle.sj_text_core.specs.Places.{position_of};
ghost use Rattle.sj_text_core.specs.Reads.{as_items};
ghost use Rattle.sj_text_core.specs.declared.repeats.Repeats.TheVariants.{First};
ghost use Rattle.sj_pointer.specs.Pointed.{token_into, pointed, set_pointed};

use sj_document::Document;
use sj_object::KeyText;
use sj_pointer::{Pointer, position};
use sj_text_core::TypedValue;

/// What one token finds.
pub(crate) fn step<'v, T: KeyText>(value: &'v Document<T>, token: &str) -> Option<&'v Document<T>>
    ensures { option_map (λ v. document_tree T.text_of v.now) result ≡ token_into First token.now (document_tree T.text_of value.now) }
{
    if value.is_array() {
        value.get_idx(position(token)?)
    } else {
        value.get(token)
    }
}

fn find_in<'v, T: KeyText>(value: &'v Document<T>, tokens: &[String]) -> Option<&'v Document<T>>
    ensures { option_map (λ v. document_tree T.text_of v.now) result ≡ pointed (map string_bytes tokens.now) (document_tree T.text_of value.now) }
{
    let mut at = value;
    for token in tokens {
        at = step(at, token.as_str())?;
    }
    Some(at)
}

/// What the pointer's tokens find in the document; None where one of them finds nothing.
pub fn find<'v, T: KeyText>(value: &'v Document<T>, pointer: &Pointer) -> Option<&'v Document<T>>
    ensures { option_map (λ v. document_tree T.text_of v.now) result ≡ pointed pointer.now (document_tree T.text_of value.now) }
{
    find_in(value, pointer.tokens())
}

/// The position that the token names, on an array.
fn place_in<T: KeyText>(value: &Document<T>, token: &str) -> Option<usize>
    ensures { result ≡ option_and_then (λ _. position_of token.now) (as_items (document_tree T.text_of value.now)) }
{
    if value.is_array() {
        position(token)
    } else {
        None
    }
}

/// What one token finds, to write.
fn step_mut<'v, T: KeyText>(value: &'v mut Document<T>, token: &str) -> Option<&'v mut Document<T>>
    ensures* writes_back { sem 𝓛 (LendsIfFound T.row T.KeyText (document_row T.row T.KeyText) value.entry result (λ w. set_found (by_token token.now) (document_tree T.text_of w))) }
    ensures value { option_map (λ v. document_tree T.text_of v.now) result ≡ token_into First token.now (document_tree T.text_of value.old) }
{
    match place_in(value, token) {
        Some(place) => value.get_idx_mut(place),
        None => value.get_mut(token),
    }
}

/// The token at that depth, counted from 0.
fn token_at(pointer: &Pointer, depth: usize) -> Option<&str>
    ensures value { option_map (λ t. t.now) result ≡ slice_get pointer.now depth }
    ensures fits { IfSome result (λ _. depth + 1 < 2 ^ 64) }
{
    Some(pointer.tokens().get(depth)?.as_str())
}

/// What `find` finds, to write. The document is then as it was, with what the reference last held in
/// the place of what the pointer found.
pub fn find_mut<'v, T: KeyText>(
    value: &'v mut Document<T>,
    pointer: &Pointer,
) -> Option<&'v mut Document<T>>
    ensures* writes_back { sem 𝓛 (LendsIfFound T.row T.KeyText (document_row T.row T.KeyText) value.entry result (λ w. set_pointed pointer.now (document_tree T.text_of w))) }
    ensures value { option_map (λ v. document_tree T.text_of v.now) result ≡ pointed pointer.now (document_tree T.text_of value.old) }
{
    let mut at = value;
    let mut depth = 0;
    // Why so: docs/REFUSED.md, "What `find_mut` leaves".
    while let Some(token) = token_at(pointer, depth) {
        depth += 1;
        match step_mut(at, token) {
            Some(next) => at = next,
            None => return None,
        }
    }
    Some(at)
}
