//! Documents that answer commands.

ghost use Rattle.std.specs.Prelude.{◌≡◌, ◌↔◌, IfOk, OnOk, OnErr, IsErrOf, string_bytes};
ghost use Rattle.std.specs.Cow.{cow_str_bytes};
ghost use Rattle.sj_text_core.specs.Tree.{Tree};
ghost use Rattle.sj_text_core.specs.declared.repeats.Repeats.{Repeats};
ghost use Rattle.sj_text_core.specs.declared.repeats.Repeats.TheVariants.{First};
ghost use Rattle.sj_document.specs.Document.{document_tree};
ghost use Rattle.sj_lazy.specs.Value.{value_part};
ghost use Rattle.sj_run.specs.Answers.{IsLong};
ghost use Rattle.sj_commands.specs.Meant.{command_meant};
ghost use Rattle.sj_run.specs.Meant.{reply_meant};
ghost use Rattle.sj_run.specs.Repeats.{answer_by};
ghost use Rattle.sj_run.specs.Run.{Leaves};

use crate::reply::Reply;
use crate::root::apply_to;
use crate::runs::Why;
use sj_commands::Command;
use sj_document::{BorrowedValue, OwnedValue};
use sj_lazy::Value;
use std::alloc::Global;
use std::borrow::CowStr;

/// How the keys of commands are looked up.
#[derive(Clone, Copy, Debug, PartialEq, Eq)]
pub enum Way {
    /// By their texts.
    ByText,
    /// By known keys, which keep their hashes.
    ByKnownKey,
}

/// A document that answers commands.
pub trait Document {
    /// Which member of several with one key counts, and the tree that it means.
    ghost part: { Self → Repeats × Tree };

    /// Answers a command as its tree does. `TooLong` is answered exactly where the reply is a print
    /// past `usize::MAX` bytes. Refused, a read leaves the tree as it was; a write leaves it so, or
    /// with the member of each key that counts alone, or as the command makes it.
    fn apply(&mut self, alloc: Global, command: Command) -> Result<Reply, Why>
        ensures reply { IfOk result (λ reply. reply_meant reply ≡ (answer_by (part self.old) (command_meant command)).1) }
        ensures after { OnOk result (part self.new ≡ (answer_by (part self.old) (command_meant command)).0) }
        ensures refused { OnErr result (Leaves (part self.old) (command_meant command) (part self.new)) }
        ensures too_long { IsErrOf result Why.TooLong ↔ IsLong (answer_by (part self.old) (command_meant command)).1 };
}

/// A document that owns its texts.
#[derive(Debug, Drop)]
pub struct OwnedDoc {
    /// How keys are looked up.
    pub way: Way,
    /// The document.
    pub value: OwnedValue,
}

impl Document for OwnedDoc {
    ghost part = { λ d. (First, document_tree string_bytes d.value) };

    fn apply(&mut self, alloc: Global, command: Command) -> Result<Reply, Why> {
        apply_to::<OwnedValue, String>(alloc, &mut self.value, self.way, command)
    }
}

/// A document whose texts may be lent. What is written is made a document of this form first, so a
/// write may be refused for memory before its target is looked at.
#[derive(Debug, Drop)]
pub struct BorrowedDoc<'v> {
    /// How keys are looked up, and inserted.
    pub way: Way,
    /// The document.
    pub value: BorrowedValue<'v>,
}

impl<'v> Document for BorrowedDoc<'v> {
    ghost part = { λ d. (First, document_tree cow_str_bytes d.value) };

    fn apply(&mut self, alloc: Global, command: Command) -> Result<Reply, Why> {
        apply_to::<BorrowedValue<'v>, CowStr<'v>>(alloc, &mut self.value, self.way, command)
    }
}

/// A part of a tape until the first write, also one that is refused; a document from then on.
/// What is written is made a document of this form first, so a write may be refused for memory
/// before its target is looked at.
#[derive(Debug, Drop)]
pub struct LazyDoc<'b, 't, 'i> {
    /// The document.
    pub value: Value<'b, 't, 'i>,
}

impl<'b, 't, 'i> Document for LazyDoc<'b, 't, 'i> {
    ghost part = { λ d. value_part d.value };

    fn apply(&mut self, alloc: Global, command: Command) -> Result<Reply, Why> {
        apply_to::<Value<'b, 't, 'i>, CowStr<'i>>(alloc, &mut self.value, Way::ByText, command)
    }
}
