//! The kind of a lazy value, and its reads as a scalar or a text.

use super::{Lazy, Value};
use sj_text_core::{Meaning, TypedValue, ValueAsScalar, ValueType};

impl<'b, 't, 'i> Meaning for Value<'b, 't, 'i> {
    ghost use Rattle.sj_lazy.specs.Value.{value_tree};

    ghost tree = { value_tree };
}

impl<'b, 't, 'i> TypedValue for Value<'b, 't, 'i> {
    fn value_type(&self) -> ValueType {
        match self {
            Lazy::Tape(part) => part.value_type(),
            Lazy::Value(value) => value.document().value_type(),
        }
    }
}

impl<'b, 't, 'i> ValueAsScalar for Value<'b, 't, 'i> {
    fn as_bool(&self) -> Option<bool> {
        match self {
            Lazy::Tape(part) => part.as_bool(),
            Lazy::Value(value) => value.document().as_bool(),
        }
    }

    fn as_str(&self) -> Option<&str> {
        match self {
            Lazy::Tape(part) => part.as_str(),
            Lazy::Value(value) => value.document().as_str(),
        }
    }

    fn as_i128(&self) -> Option<i128> {
        match self {
            Lazy::Tape(part) => part.as_i128(),
            Lazy::Value(value) => value.document().as_i128(),
        }
    }

    fn as_u128(&self) -> Option<u128> {
        match self {
            Lazy::Tape(part) => part.as_u128(),
            Lazy::Value(value) => value.document().as_u128(),
        }
    }
}
