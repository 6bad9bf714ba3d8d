//! What lets documents go with no recursion and no memory.
//!
//! The part that is open is the document from which the next part is taken. Where that part has
//! parts itself, it is opened in its turn, and the one that was open stands in the place of its
//! first part, until it comes out again as the last that is left there.

ghost use Rattle.std.specs.Prelude.{◌≡◌, ◌↔◌, ◌+◌, ◌<◌, Some, IfNone, IsTrue};
ghost use Rattle.sj_document.specs.inner.Nodes.{nodes, nodes_of, entry_nodes, work};

use crate::value::{Document, Object};
use sj_object::KeyText;
use std::mem;

impl<T: KeyText + Drop> Document<T> {
    /// Whether there are items or members.
    fn has_parts(&self) -> bool
        ensures { IsTrue result ↔ (1 < nodes self.now) }
    {
        match self {
            Document::Array(items) => !items.is_empty(),
            Document::Object(members) => !members.is_empty(),
            _ => false,
        }
    }

    /// Takes the last item out, or the value of the last member.
    fn pop_part(&mut self) -> Option<Document<T>>
        ensures fewer { nodes self.old ≡ nodes self.new + nodes_of result }
        ensures none { IfNone result (nodes self.new ≡ 1) }
    {
        match self {
            Document::Array(items) => items.pop(),
            Document::Object(members) => pop_value(members),
            _ => None,
        }
    }

    /// Puts a document in the place of the first part, and gives that part.
    fn swap_first(&mut self, other: Document<T>) -> Document<T>
        requires { 1 < nodes self.old }
        ensures same { nodes self.new + nodes result ≡ nodes self.old + nodes other }
        ensures part { nodes result < nodes self.old }
    {
        match self {
            Document::Array(items) => mem::replace(&mut items[0], other),
            Document::Object(members) => mem::replace(members.value_at_mut(0), other),
            _ => other,
        }
    }

    /// Lets a document without parts go.
    fn close(self)
        requires { nodes self ≡ 1 }
    {
        match self {
            Document::Static(_) | Document::String(_) => {}
            Document::Array(items) => Box::into_inner(items).destroy_empty(),
            Document::Object(members) => Box::into_inner(members).destroy_empty(),
        }
    }
}

/// Takes the last member out, and gives its value. It stands apart, so that items do not pay for it.
#[inline(never)]
fn pop_value<T: KeyText + Drop>(members: &mut Object<T>) -> Option<Document<T>>
    ensures fewer { entry_nodes members.old.entries ≡ entry_nodes members.new.entries + nodes_of result }
    ensures none { IfNone result (entry_nodes members.new.entries ≡ 0) }
{
    match members.pop() {
        Some((_, value)) => Some(value),
        None => None,
    }
}

/// Lets the document go.
pub(super) fn let_go<T: KeyText + Drop>(document: Document<T>) {
    let mut whole = document;
    let mut next = whole.pop_part();
    while let Some(part) = next {
        next = drop_or_open(&mut whole, part);
    }
    whole.close();
}

/// Lets the part go, or opens it in the place of what was open, and gives what is to go next.
fn drop_or_open<T: KeyText + Drop>(
    whole: &mut Document<T>,
    part: Document<T>,
) -> Option<Document<T>>
    ensures less { work (nodes whole.new) (nodes_of result) < work (nodes whole.old) (nodes part) }
    ensures none { IfNone result (nodes whole.new ≡ 1) }
{
    if !part.has_parts() {
        part.close();
        return whole.pop_part();
    }
    let parent = mem::replace(whole, part);
    if !parent.has_parts() {
        parent.close();
        return whole.pop_part();
    }
    Some(whole.swap_first(parent))
}
