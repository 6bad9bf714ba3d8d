//! Typed reads of parts of a tape.

use super::Value;
use crate::node::Node;
use sj_text_core::{Meaning, StaticNode, TypedValue, ValueAsScalar, ValueType};

impl<'t, 'i> Meaning for Value<'t, 'i> {
    ghost use Rattle.sj_tape.specs.Value.{tape_tree};

    ghost tree = { tape_tree };
}

impl<'t, 'i> TypedValue for Value<'t, 'i> {
    fn value_type(&self) -> ValueType {
        match self.nodes.at(0) {
            Node::Static(scalar) => scalar.value_type(),
            Node::String(_) => ValueType::String,
            Node::Array { .. } => ValueType::Array,
            Node::Object { .. } => ValueType::Object,
        }
    }
}

impl<'t, 'i> ValueAsScalar for Value<'t, 'i> {
    fn as_bool(&self) -> Option<bool> {
        match self.nodes.at(0) {
            Node::Static(StaticNode::Bool(truth)) => Some(truth),
            _ => None,
        }
    }

    fn as_str(&self) -> Option<&str> {
        self.into_string()
    }

    fn as_i128(&self) -> Option<i128> {
        match self.nodes.at(0) {
            Node::Static(scalar) => scalar.as_i128(),
            _ => None,
        }
    }

    fn as_u128(&self) -> Option<u128> {
        match self.nodes.at(0) {
            Node::Static(scalar) => scalar.as_u128(),
            _ => None,
        }
    }
}
