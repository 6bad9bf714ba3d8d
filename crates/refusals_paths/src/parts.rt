//! Reads of the parts of arrays and objects, in each form. None of them asks for memory.

ghost use Rattle.std.specs.Prelude.{◌≡◌, ◌<◌};

use crate::lazy::{of_lent, of_tape};
use crate::scalars::{is_lazy_seven, is_seven};
use refusals_common::{Fault, read, say, say_call, text_of};
use sj_document::{BorrowedValue, Document, replace_at};
use sj_lazy::Value;
use sj_object::{KeyText, deserialize};
use sj_tape::{Node, Nodes, Steps, Tape, Value as TapeValue, to_tape};
use sj_text_core::{Repeats, StaticNode, ValueAsScalar};
use std::borrow::CowStr;
use std::marker::Brand;
use std::sync::ledger::{Blank, Ledger};

/// Whether the array has the one item 7, by each of its calls.
macro_rules! is_one_seven {
    ($items:expr, $is_seven:ident) => {
        $items.len() == 1
            && !$items.is_empty()
            && $is_seven($items.get(0))
            && $is_seven($items.iter().next())
    };
}

/// Whether the object has the one member `int` of 7, by each of its calls.
macro_rules! is_one_member {
    ($members:expr, $is_seven:ident) => {
        $members.len() == 1
            && !$members.is_empty()
            && $is_seven($members.get("int"))
            && $members.keys().next() == Some("int")
            && $is_seven($members.values().next())
            && match $members.iter().next() {
                Some((key, value)) => key == "int" && $is_seven(Some(value)),
                None => false,
            }
    };
}

fn is_lazy_parts(value: &Value<'_, '_, '_>) -> bool {
    let (Some(items), Some(members)) = (value.get_array("array"), value.get_object("object")) else {
        return false;
    };
    is_one_seven!(items, is_lazy_seven)
        && items.clone().len() == 1
        && value.array_len().is_none()
        && is_one_member!(members, is_lazy_seven)
        && value.repeats() == Repeats::First
}

fn is_tape_seven(found: Option<TapeValue<'_, '_>>) -> bool {
    match found {
        Some(value) => is_seven(&value),
        None => false,
    }
}

fn is_tape_parts(value: TapeValue<'_, '_>) -> bool {
    let (Some(items), Some(members)) = (value.get_array("array"), value.get_object("object")) else {
        return false;
    };
    is_one_seven!(items, is_tape_seven)
        && is_one_member!(members, is_tape_seven)
        && members.has_before(1, "int")
        && !members.has_behind(1, "int")
        && value.repeats() == Repeats::First
        && are_nodes(value.nodes())
        && TapeValue::null().as_static() == Some(StaticNode::Null)
        && value.get("str").and_then(|text| text.into_string()) == Some("s")
        && has_none_on(value)
}

/// Whether they are as many as the example has, by each of their calls.
fn are_nodes(nodes: Nodes<'_, '_>) -> bool {
    if nodes.len() != 16 {
        return false;
    }
    let whole = Node::Object { len: 6, count: 15 };
    let (front, back) = nodes.split_at(1);
    let first = nodes.split_first();
    nodes.at(0) == whole
        && whole.width() == 16
        && front.len() == 1
        && back.len() == 15
        && nodes.from(16).is_empty()
        && first.is_some_and(|(node, behind)| node == whole && behind.len() == 15)
}

fn has_none_on(value: TapeValue<'_, '_>) -> bool {
    has_no_member::<Brand>(value, Blank::new(1))
}

fn has_no_member<L: Ledger>(value: TapeValue<'_, '_>, blank: Blank) -> bool
    requires name { blank.name ≡ L.name }
    requires parts { blank.parts ≡ L.parts }
    requires some { 0 < L.parts }
{
    let mut steps = Steps::<L>::new(blank);
    value.get_steps("none", &mut steps).is_none()
}

/// Reads the parts of a tape or of a lazy value between the first two writes, or takes a document
/// apart.
pub fn reads(rt: &(impl Print + AllocGlobal), form: &str) -> Result<(), Fault> {
    let alloc = rt.alloc();
    let mut bytes = text_of(alloc, "kinds")?;
    let mut copy = text_of(alloc, "kinds")?;
    let tape: Tape<'_> = read(to_tape(alloc, bytes.as_mut_slice()))?;
    let document = read(deserialize::<BorrowedValue<'_>, CowStr<'_>>(alloc, copy.as_mut_slice()))?;
    say_call(rt)?;
    let is_found = match form {
        "tape" => is_tape_parts(tape.as_value()),
        "lazy" => is_lazy_parts(&of_tape(tape.as_value())),
        "lent" => is_lazy_parts(&of_lent(&document)),
        "document" => is_taken_apart(document),
        "replaced" => is_replaced(document),
        _ => return Err(Fault::Usage),
    };
    say(rt, if is_found { "found\n" } else { "NOT FOUND\n" })
}

/// Whether a document can be written by reference and indexing, and taken apart.
fn is_taken_apart<T: KeyText + Drop>(mut value: Document<T>) -> bool {
    let is_read = value.contains_key("int") && is_seven(&value["int"]);
    if value.contains_key("bool") {
        value["bool"] = Document::null();
    }
    let Some(members) = value.as_object_mut() else {
        return false;
    };
    let (Some(array), Some(text)) = (members.remove("array"), members.remove("str")) else {
        return false;
    };
    is_read
        && value.get("bool").is_some_and(|found| found.is_null())
        && text.into_string().is_some_and(|text| text.text() == "s")
        && is_array_apart(array)
}

fn is_array_apart<T: KeyText + Drop>(mut array: Document<T>) -> bool {
    let is_read = array.get_idx(0).is_some() && is_seven(&array[0]);
    if array.get_idx(0).is_some() {
        array[0] = Document::null();
    }
    let is_lent = array.as_array_mut().is_some();
    is_read
        && is_lent
        && array.try_as_array().is_ok()
        && array.into_array().is_some_and(|items| items.len() == 1)
}

/// Whether a document is replaced whole.
fn is_replaced<T: KeyText + Drop>(mut value: Document<T>) -> bool {
    replace_at(&mut value, &[], Document::null());
    value.is_null()
}
