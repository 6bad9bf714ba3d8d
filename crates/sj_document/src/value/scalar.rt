//! The tree and the kind of a document, and its reads as a scalar.

use crate::value::Document;
use sj_object::KeyText;
use sj_text_core::{Meaning, TypedValue, ValueAsScalar, ValueType};

impl<T: KeyText> Meaning for Document<T> {
    ghost use Rattle.sj_document.specs.Document.{document_tree};

    ghost tree = { document_tree T.text_of };
}

impl<T: KeyText> TypedValue for Document<T> {
    fn value_type(&self) -> ValueType {
        match self {
            Document::Static(scalar) => scalar.value_type(),
            Document::String(_) => ValueType::String,
            Document::Array(_) => ValueType::Array,
            Document::Object(_) => ValueType::Object,
        }
    }
}

impl<T: KeyText> ValueAsScalar for Document<T> {
    fn as_bool(&self) -> Option<bool> {
        match self {
            Document::Static(scalar) => scalar.as_bool(),
            _ => None,
        }
    }

    fn as_str(&self) -> Option<&str> {
        match self {
            Document::String(text) => Some(text.text()),
            _ => None,
        }
    }

    fn as_i128(&self) -> Option<i128> {
        match self {
            Document::Static(scalar) => scalar.as_i128(),
            _ => None,
        }
    }

    fn as_u128(&self) -> Option<u128> {
        match self {
            Document::Static(scalar) => scalar.as_u128(),
            _ => None,
        }
    }
}
