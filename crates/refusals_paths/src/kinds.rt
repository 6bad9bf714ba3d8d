//! Reads and comparisons of a document that has a member of each kind, in each form. None of them
//! asks for memory.

use crate::lazy::{of_lent, of_tape};
use crate::scalars::{is_lazy_seven, is_nothing, is_seven, is_true};
use crate::typed::{is_document_of_kinds, is_lazy_of_kinds};
use refusals_common::{Fault, read, say, say_call, text_of};
use sj_borrowed::KnownKey;
use sj_document::{BorrowedValue, Document, OwnedValue, same};
use sj_lazy::{SameAsLazy, Value};
use sj_object::{KeyText, deserialize};
use sj_tape::{Tape, to_tape};
use sj_text_core::{SameAs, SameWith, StaticNode};
use std::alloc::{AllocError, Global};
use std::borrow::CowStr;
use std::collections::HashMap;

/// One document in each form.
#[derive(Drop)]
struct Forms<'t, 'b> {
    tape: Tape<'t>,
    owned: OwnedValue,
    borrowed: BorrowedValue<'b>,
    text: String,
    map: HashMap<String, u8>,
}

/// Makes every read of the form between the first two writes, or every comparison of the forms.
pub fn reads(rt: &(impl Print + AllocGlobal), form: &str) -> Result<(), Fault> {
    let alloc = rt.alloc();
    let mut bytes = text_of(alloc, "kinds")?;
    let mut copy = text_of(alloc, "kinds")?;
    let mut third = text_of(alloc, "kinds")?;
    let forms = Forms {
        tape: read(to_tape(alloc, bytes.as_mut_slice()))?,
        owned: read(deserialize::<OwnedValue, String>(alloc, copy.as_mut_slice()))?,
        borrowed: read(deserialize::<BorrowedValue<'_>, CowStr<'_>>(alloc, third.as_mut_slice()))?,
        text: String::from_str(alloc, "s")?,
        map: one_seven(alloc)?,
    };
    say_call(rt)?;
    let is_found = match form {
        "static" => is_static(),
        "owned" => is_document_of_kinds(&forms.owned, &forms.text),
        "borrowed" => is_document_of_kinds(&forms.borrowed, &forms.text),
        "lazy" => is_lazy_of_kinds(&of_tape(forms.tape.as_value()), &forms.text),
        "lent" => is_lazy_of_kinds(&of_lent(&forms.borrowed), &forms.text),
        "known" => is_known(&forms),
        "same" => is_same(&forms),
        "same_std" => is_same_std(&forms),
        "same_lazy" => is_same_lazy(&forms),
        _ => return Err(Fault::Usage),
    };
    say(rt, if is_found { "found\n" } else { "NOT FOUND\n" })
}

/// Whether a known key finds a member in a tape, and in lazy values of both forms.
fn is_known(forms: &Forms<'_, '_>) -> bool {
    let key = KnownKey::from("int");
    let part = forms.tape.as_value();
    let (lazy, lent) = (of_tape(part), of_lent(&forms.borrowed));
    let is_in_tape = match key.lookup_in_tape(part) {
        Some(found) => is_seven(&found),
        None => false,
    };
    is_in_tape
        && is_lazy_seven(lazy.get_known(&key))
        && is_lazy_seven(lent.get_known(&key))
        && lent.get_known(&KnownKey::from("none")).is_none()
}

fn is_static() -> bool {
    is_nothing(&StaticNode::Null)
        && is_true(&StaticNode::Bool(true))
        && is_seven(&StaticNode::U64(7))
        && StaticNode::U64(7) == StaticNode::I64(7)
}

/// Whether a document is the same as itself in the way of every comparison of documents.
fn is_same_document<T: KeyText>(value: &Document<T>) -> bool {
    value == value && same(value, value) && value.same_as(value)
}

/// Whether the forms are the same, each with each.
fn is_same(forms: &Forms<'_, '_>) -> bool {
    let part = forms.tape.as_value();
    is_same_document(&forms.owned)
        && is_same_document(&forms.borrowed)
        && forms.owned.same_as(&forms.borrowed)
        && forms.borrowed.same_as(&forms.owned)
        && part.same_as(&part)
        && part.same_as(&forms.owned)
        && part.same_as(&forms.borrowed)
        && forms.owned.same_as(&part)
        && forms.borrowed.same_as(&part)
}

/// Whether lazy values are the same as each form.
fn is_same_lazy(forms: &Forms<'_, '_>) -> bool {
    let lazy = of_tape(forms.tape.as_value());
    let lent = of_lent(&forms.borrowed);
    lazy == lazy
        && lent.same_as(&lazy)
        && lazy.same_as(&lent)
        && lazy.same_as(&forms.owned)
        && lent.same_as(&forms.borrowed)
}

/// The map of `int` with 7.
fn one_seven(alloc: Global) -> Result<HashMap<String, u8>, AllocError> {
    let mut map = HashMap::new(alloc);
    map.insert(String::from_str(alloc, "int")?, 7)?;
    Ok(map)
}

/// Whether documents are the same as what std has: a slice, a reference and a map.
fn is_same_std(forms: &Forms<'_, '_>) -> bool {
    let sevens = [7_u8];
    let Some(found) = forms.owned.get("int") else {
        return false;
    };
    forms
        .owned
        .get("array")
        .is_some_and(|items| items.same_as(&sevens.as_slice()))
        && found.same_as(&&7_u8)
        && 7_u8.is_same_with(found)
        && forms
            .owned
            .get("object")
            .is_some_and(|found| found.same_as(&forms.map))
        && is_same_lazy_std(forms)
}

/// Whether lazy values are the same as a map of std, and its values the same as they.
fn is_same_lazy_std(forms: &Forms<'_, '_>) -> bool {
    let lazy = of_tape(forms.tape.as_value());
    let (Some(object), Some(number)) = (lazy.get("object"), lazy.get("int")) else {
        return false;
    };
    let (Some(truth), Some(text)) = (lazy.get("bool"), lazy.get("str")) else {
        return false;
    };
    object.same_as(&forms.map)
        && is_lazy_same(&number)
        && true.same_as_lazy(&truth)
        && forms.text.same_as_lazy(&text)
        && forms.borrowed.same_as_lazy(&lazy)
}

/// Whether numbers of every type find the lazy value the same as 7.
fn is_lazy_same(lazy: &Value<'_, '_, '_>) -> bool {
    7_i8.same_as_lazy(lazy)
        && 7_i16.same_as_lazy(lazy)
        && 7_i32.same_as_lazy(lazy)
        && 7_i64.same_as_lazy(lazy)
        && 7_i128.same_as_lazy(lazy)
        && 7_u8.same_as_lazy(lazy)
        && 7_u16.same_as_lazy(lazy)
        && 7_u32.same_as_lazy(lazy)
        && 7_u64.same_as_lazy(lazy)
        && 7_u128.same_as_lazy(lazy)
        && 7_usize.same_as_lazy(lazy)
}
