//! Writes at a pointer.

ghost use Rattle.std.specs.Prelude.{◌≡◌, None, map, string_bytes, IfOk, IfErr, OnErr};
ghost use Rattle.std.specs.Result.{result_ok};
ghost use Rattle.sj_text_core.specs.Paths.{by_token};
ghost use Rattle.sj_document.specs.Document.{document_tree, Means, IsEdited, IsAsItWas, ChangesFound};
ghost use Rattle.sj_document.specs.Descents.{Exchanged};
ghost use Rattle.sj_pointer.specs.Pointed.{pointed, set_pointed};

use sj_document::{Change, Document, Leads, Replace, swap_token, update_at};
use sj_object::KeyText;
use sj_pointer::{Pointer, position};

/// Steps that are tokens.
struct ByToken;

impl Leads<String> for ByToken {
    ghost step_of = { λ s. by_token (string_bytes s) };

    fn swap<T: KeyText>(
        step: &String,
        value: &mut Document<T>,
        other: Document<T>,
    ) -> Result<Document<T>, Document<T>>
        ensures { Exchanged T.text_of (by_token (string_bytes step.now)) other (document_tree T.text_of value.old) (document_tree T.text_of value.new) result }
    {
        let token = step.as_str();
        swap_token(value, token, position(token), other)
    }
}

/// `update` of what the tokens lead to, which may be some of a pointer's.
pub fn update_in<T: KeyText + Drop, C: Change<Document<T>>>(
    value: &mut Document<T>,
    tokens: &[String],
    change: C,
) -> Result<C::Answer, C>
    ensures changed { IfOk result (ChangesFound T.text_of (C.makes change) (pointed (map string_bytes tokens.now)) (set_pointed (map string_bytes tokens.now)) value.old value.new) }
    ensures absent { IfErr result (λ back. (back ≡ change) × (pointed (map string_bytes tokens.now) (document_tree T.text_of value.old) ≡ None) × IsAsItWas T.text_of value.old value.new) }
{
    update_at::<ByToken, String, T, C>(value, tokens, change)
}

/// Changes what the pointer finds, and answers what the change does; the rest of the document stays.
/// Where it finds nothing the document is as it was, and the change comes back.
pub fn update<T: KeyText + Drop, C: Change<Document<T>>>(
    value: &mut Document<T>,
    pointer: &Pointer,
    change: C,
) -> Result<C::Answer, C>
    ensures changed { IfOk result (ChangesFound T.text_of (C.makes change) (pointed pointer.now) (set_pointed pointer.now) value.old value.new) }
    ensures absent { IfErr result (λ back. (back ≡ change) × (pointed pointer.now (document_tree T.text_of value.old) ≡ None) × IsAsItWas T.text_of value.old value.new) }
{
    update_in(value, pointer.tokens(), change)
}

/// Puts the value in the place of what the pointer finds, and answers what stood there. Where it
/// finds nothing, the document stays as it was, and the value comes back as `Err`.
pub fn replace<T: KeyText + Drop>(
    value: &mut Document<T>,
    pointer: &Pointer,
    new: Document<T>,
) -> Result<Document<T>, Document<T>>
    ensures before { Means T.text_of (pointed pointer.now (document_tree T.text_of value.old)) (result_ok result) }
    ensures after { IsEdited T.text_of (set_pointed pointer.now (document_tree T.text_of new)) value.old value.new }
    ensures kept { OnErr result (IsAsItWas T.text_of value.old value.new) }
    ensures back { IfErr result (λ given. given ≡ new) }
{
    match update(value, pointer, Replace { value: new }) {
        Ok(before) => Ok(before),
        Err(back) => Err(back.value),
    }
}
