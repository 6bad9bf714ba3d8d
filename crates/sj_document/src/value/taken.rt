//! What a document is made of, taken out of it.

ghost use Rattle.std.specs.Prelude.{◌≡◌};
ghost use Rattle.sj_document.specs.Taken.{whole};

use crate::value::{Document, Object};
use sj_object::KeyText;
use sj_text_core::StaticNode;

/// What a document is made of.
#[derive(Drop)]
pub enum Taken<T: KeyText> {
    Static(StaticNode),
    String(T),
    Array(Box<Vec<Document<T>>>),
    Object(Box<Object<T>>),
}

impl<T: KeyText> Document<T> {
    /// What the document is made of.
    pub fn take_apart(self) -> Taken<T>
        ensures { self ≡ whole result }
    {
        match self {
            Document::Static(scalar) => Taken::Static(scalar),
            Document::String(text) => Taken::String(text),
            Document::Array(items) => Taken::Array(items),
            Document::Object(members) => Taken::Object(members),
        }
    }
}
