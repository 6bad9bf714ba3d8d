//! Texts, arrays and objects, which no scalar node is.

use sj_text_core::{Meaning, TypedValue, ValueAsScalar, ValueType};

/// A text, an empty array or an empty object.
#[derive(Clone, Copy)]
enum Part<'t> {
    Text(&'t str),
    Array,
    Object,
}

impl Meaning for Part<'_> {
    ghost use Rattle.sj_text_core.specs.Tree.{text, list, obj, no_items, no_members};
    ghost use Rattle.sj_tests_tape.specs.declared.text_core.parts.Part.TheVariants.{Text, Array, Object};

    ghost tree = { elim [ Text s ↦ text s.now | Array ↦ list no_items | Object ↦ obj no_members ] };
}

impl TypedValue for Part<'_> {
    fn value_type(&self) -> ValueType {
        match self {
            Part::Text(_) => ValueType::String,
            Part::Array => ValueType::Array,
            Part::Object => ValueType::Object,
        }
    }
}

impl ValueAsScalar for Part<'_> {
    fn as_bool(&self) -> Option<bool> {
        None
    }

    fn as_str(&self) -> Option<&str> {
        match *self {
            Part::Text(text) => Some(text),
            _ => None,
        }
    }

    fn as_i128(&self) -> Option<i128> {
        None
    }

    fn as_u128(&self) -> Option<u128> {
        None
    }
}

/// Whether the part is a text, an array, an object, or any scalar.
fn kinds(part: Part<'_>) -> [bool; 7] {
    [
        part.is_str(),
        part.is_array(),
        part.is_object(),
        part.is_null(),
        part.is_bool(),
        part.is_i128(),
        part.is_u128(),
    ]
}

#[test]
fn parts_are_told(rt: HostRuntime) {
    let (yes, no) = (true, false);
    let (text, array, object) = (Part::Text("null"), Part::Array, Part::Object);
    let types = [text.value_type(), array.value_type(), object.value_type()];
    assert_eq!(rt;
        types,
        [ValueType::String, ValueType::Array, ValueType::Object]
    );
    let wanted = [
        [yes, no, no, no, no, no, no],
        [no, yes, no, no, no, no, no],
        [no, no, yes, no, no, no, no],
    ];
    assert_eq!(rt; [kinds(text), kinds(array), kinds(object)], wanted);
}
