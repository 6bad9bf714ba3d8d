//! Parts of a tape, level by level, and their prints.

use super::Value;
use crate::node::Node;
use crate::{array, object};
use sj_print::{Level, Parts, display, encode, encode_counted, write, write_counted};
use sj_text_core::{Writable, WriteError};
use std::alloc::Global;
use std::fmt;

impl<'t, 'i> Parts for Value<'t, 'i> {
    type Items = array::Iter<'t, 'i>;

    type Members = object::Iter<'t, 'i>;

    type Key = &'i str;

    ghost use Rattle.sj_tape.specs.Items.{items_ahead};
    ghost use Rattle.sj_tape.specs.Members.{members_ahead};
    ghost use Rattle.sj_tape.specs.Value.{tape_tree};

    ghost tree_of = { tape_tree };

    ghost items_left = { items_ahead };

    ghost members_left = { members_ahead };

    ghost key_of = { λ s. s.now };

    #[inline(always)]
    fn level(&self) -> Level<'_, array::Iter<'t, 'i>, object::Iter<'t, 'i>> {
        match self.nodes.at(0) {
            Node::Static(scalar) => Level::Static(scalar),
            Node::String(text) => Level::String(text),
            Node::Array { .. } => {
                let Some(items) = self.as_array() else {
                    unreachable!()
                };
                Level::Array(items.iter())
            }
            Node::Object { .. } => {
                let Some(members) = self.as_object() else {
                    unreachable!()
                };
                Level::Object(members.iter())
            }
        }
    }

    fn next_item(items: &mut array::Iter<'t, 'i>) -> Option<Value<'t, 'i>> {
        items.next()
    }

    fn next_member(members: &mut object::Iter<'t, 'i>) -> Option<(&'i str, Value<'t, 'i>)> {
        members.next()
    }

    fn key_text<'k>(key: &'k &'i str) -> &'k str {
        key
    }
}

impl<'t, 'i> Value<'t, 'i> {
    ghost use Rattle.std.specs.Prelude.{◌≡◌, ◌↔◌, ◌+◌, ◌^◌, ◌≤◌, ◌++◌, length, IfOk, OnOk, OnErr, IsErrOf, string_bytes};
    ghost use Rattle.sj_print.specs.Layouts.{laid, top};
    ghost use Rattle.sj_tape.specs.Value.{tape_tree};

    /// The print, over the nodes themselves where they are packed.
    fn encode_as(&self, pretty: bool, alloc: Global) -> Result<String, WriteError>
        ensures ok { IfOk result (λ s. string_bytes s ≡ laid (top pretty) (tape_tree self.now)) }
        ensures too_long { IsErrOf result WriteError.TooLong ↔ (2 ^ 64 ≤ length (laid (top pretty) (tape_tree self.now))) }
    {
        match self.packed() {
            Some(packed) => {
                let len = packed.count(pretty, 0, alloc)?;
                Ok(encode_counted(&packed, pretty, len, alloc)?)
            }
            None => encode(self, pretty, alloc),
        }
    }

    /// Appends the print, over the nodes themselves where they are packed. Refused, it leaves the
    /// bytes as they were.
    fn write_as(&self, pretty: bool, out: &mut Vec<u8>) -> Result<(), WriteError>
        ensures ok { OnOk result (out.new.items ≡ out.old.items ++ laid (top pretty) (tape_tree self.now)) }
        ensures err { OnErr result (out.new.items ≡ out.old.items) }
        ensures too_long { IsErrOf result WriteError.TooLong ↔ (2 ^ 64 ≤ length out.old.items + length (laid (top pretty) (tape_tree self.now))) }
    {
        match self.packed() {
            Some(packed) => {
                let end = packed.count(pretty, out.len(), *out.allocator())?;
                Ok(write_counted(&packed, pretty, end, out)?)
            }
            None => write(self, pretty, out),
        }
    }
}

impl<'t, 'i> Writable for Value<'t, 'i> {
    fn encode(&self, alloc: Global) -> Result<String, WriteError> {
        self.encode_as(false, alloc)
    }

    fn encode_pp(&self, alloc: Global) -> Result<String, WriteError> {
        self.encode_as(true, alloc)
    }

    fn write(&self, out: &mut Vec<u8>) -> Result<(), WriteError> {
        self.write_as(false, out)
    }

    fn write_pp(&self, out: &mut Vec<u8>) -> Result<(), WriteError> {
        self.write_as(true, out)
    }
}

/// A text as it is, all else as its compact print.
impl<'t, 'i> fmt::Display for Value<'t, 'i> {
    ghost use Rattle.std.specs.Prelude.{Some};
    ghost use Rattle.sj_tape.specs.Value.{tape_tree, displayed};

    ghost output = { λ v. Some (displayed (tape_tree v)) };

    fn fmt<W: fmt::Write>(&self, f: &mut fmt::Formatter<W>) -> fmt::Result {
        if let Some(scalar) = self.as_static() {
            return write!(f, "{scalar}");
        }
        if let Some(text) = self.into_string() {
            return write!(f, "{text}");
        }
        let Some(alloc) = self.nodes.allocator() else {
            unreachable!()
        };
        match self.packed() {
            Some(packed) => display(&packed, alloc, f),
            None => display(self, alloc, f),
        }
    }
}
