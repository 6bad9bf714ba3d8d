//! Pointers into lazy documents.

ghost use Rattle.std.specs.Prelude.{◌≡◌, IfErr, IfOk, IfSome, IsSome, IsOk, OnErr, OnOk, option_map, map, string_bytes};
ghost use Rattle.std.specs.Borrow.{sem};
ghost use Rattle.std.specs.Result.{result_ok};
ghost use Rattle.sj_document.specs.Document.{document_tree, Means};
ghost use Rattle.sj_document.specs.Rows.{document_row};
ghost use Rattle.sj_tape.specs.Value.{tape_tree, tape_choice};
ghost use Rattle.sj_lazy.specs.Value.{value_tree, value_choice, form, part_form, lazy_kept, owned};
ghost use Rattle.sj_lazy.specs.Edits.{IsOwnedAs};
ghost use Rattle.sj_lazy.specs.Loans.{LendsPart};
ghost use Rattle.sj_pointer.specs.Pointed.{token_into, pointed, pointed_by, set_pointed};

mod edits;

use crate::{walk, write};
pub use edits::{insert, pop, push, remove, set, take, update};
use sj_document::Document;
pub use sj_lazy::Value;
use sj_lazy::{Lazy, Lent, Shared, Upgrade};
use sj_object::KeyText;
use sj_pointer::{Pointer, position};
use sj_tape::Value as TapeValue;
use sj_text_core::{Refused, TypedValue};
use std::alloc::{AllocError, Global};

/// What one token finds on a tape.
fn step<'t, 'i>(part: TapeValue<'t, 'i>, token: &str) -> Option<TapeValue<'t, 'i>>
    ensures value { option_map tape_tree result ≡ token_into (tape_choice part.entry) token.now (tape_tree part.entry) }
    ensures choice { IfSome result (λ found. tape_choice found ≡ tape_choice part.entry) }
{
    if part.is_array() {
        part.get_idx(position(token)?)
    } else {
        part.get(token)
    }
}

/// What tokens find on a tape.
fn find_on_tape<'t, 'i>(part: TapeValue<'t, 'i>, tokens: &[String]) -> Option<TapeValue<'t, 'i>>
    ensures value { option_map tape_tree result ≡ pointed_by (tape_choice part.entry) (map string_bytes tokens.now) (tape_tree part.entry) }
    ensures choice { IfSome result (λ found. tape_choice found ≡ tape_choice part.entry) }
{
    let mut at = part;
    for token in tokens {
        at = step(at, token.as_str())?;
    }
    Some(at)
}

/// What the pointer's tokens find, by the value's own choice among members of one key; None where
/// one of them finds nothing. The value keeps its form, and nothing is built: of a tape a part is
/// answered, of a document one that is lent.
pub fn find<'v, 't, 'i>(
    value: &'v Value<'_, 't, 'i>,
    pointer: &Pointer,
) -> Option<Value<'v, 't, 'i>>
    ensures value { option_map value_tree result ≡ pointed_by (value_choice value.now) pointer.now (value_tree value.now) }
    ensures choice { IfSome result (λ found. value_choice found ≡ value_choice value.now) }
    ensures form { IfSome result (λ found. form found ≡ part_form value.now) }
{
    match value {
        Lazy::Tape(part) => Some(Lazy::Tape(find_on_tape(*part, pointer.tokens())?)),
        Lazy::Value(document) => Some(Lazy::Value(Shared::Borrowed(walk::find(
            document.document(),
            pointer,
        )?))),
    }
}

/// What the pointer's tokens find, to write; None where one of them finds nothing. The value is owned
/// then, with what the reference last held in the place of what the pointer found. Refused for want
/// of memory, it is as it was.
pub fn find_mut<'v, P: Upgrade<T> + Drop, B: Lent<T> + Drop, T: KeyText + Drop>(
    value: &'v mut Lazy<P, B, T>,
    alloc: Global,
    pointer: &Pointer,
) -> Result<Option<&'v mut Document<T>>, AllocError>
    ensures* writes_back { sem 𝓛 (LendsPart P.row B.row T.row T.KeyText (document_row T.row T.KeyText) value.entry result
        (λ w. set_pointed pointer.now (document_tree T.text_of w)) (lazy_kept P.part_kept B.lent_tree T.text_of value.old)) }
    ensures value { IfOk result (λ found. option_map (λ v. document_tree T.text_of v.now) found ≡ pointed pointer.now (lazy_kept P.part_kept B.lent_tree T.text_of value.old)) }
    ensures succeeds { IsSome (owned T.text_of value.old) → IsOk result }
{
    match value.as_mut(alloc) {
        Ok(document) => Ok(walk::find_mut(document, pointer)),
        Err(why) => Err(why),
    }
}

/// Puts the document in the place of what the pointer finds, once the value is owned, also where it
/// finds nothing. What stood there is answered, or else the document comes back as the inner `Err`.
/// Refused for want of memory, the value is as it was, and the document comes back too.
pub fn replace<P: Upgrade<T> + Drop, B: Lent<T> + Drop, T: KeyText + Drop>(
    value: &mut Lazy<P, B, T>,
    alloc: Global,
    pointer: &Pointer,
    new: Document<T>,
) -> Result<Result<Document<T>, Document<T>>, Refused<AllocError, Document<T>>>
    ensures before { IfOk result (λ answer. Means T.text_of (pointed pointer.now (lazy_kept P.part_kept B.lent_tree T.text_of value.old)) (result_ok answer)) }
    ensures after { OnOk result (IsOwnedAs P.part_kept B.lent_tree T.text_of (set_pointed pointer.now (document_tree T.text_of new)) value.old value.new) }
    ensures back { IfOk result (λ answer. IfErr answer (λ given. given ≡ new)) }
    ensures refused { OnErr result (value.new ≡ value.old) }
    ensures returned { IfErr result (λ refused. refused.value ≡ new) }
    ensures succeeds { IsSome (owned T.text_of value.old) → IsOk result }
{
    match value.as_mut(alloc) {
        Ok(document) => Ok(write::replace(document, pointer, new)),
        Err(why) => Err(Refused { why, value: new }),
    }
}
