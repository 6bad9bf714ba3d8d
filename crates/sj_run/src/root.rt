//! What the commands of a document go to: the value that it holds.

ghost use Rattle.std.specs.Prelude.{◌≡◌, ◌↔◌, map, length, IfOk, OnOk, OnErr, IsErrOf, string_bytes};
ghost use Rattle.sj_text_core.specs.Tree.{Tree};
ghost use Rattle.sj_text_core.specs.declared.repeats.Repeats.{Repeats};
ghost use Rattle.sj_text_core.specs.declared.repeats.Repeats.TheVariants.{First};
ghost use Rattle.sj_text_core.specs.inner.Begun.{IsBegunBy};
ghost use Rattle.sj_document.specs.Document.{document_tree};
ghost use Rattle.sj_lazy.specs.Value.{value_part};
ghost use Rattle.sj_commands.specs.Commands as command;
ghost use Rattle.sj_commands.specs.Meant.{command_meant, read_meant, step_meant, write_meant};
ghost use Rattle.sj_run.specs.Answers.{IsLong};
ghost use Rattle.sj_run.specs.inner.Answered.{AnswersCommand, PassesOne};
ghost use Rattle.sj_run.specs.inner.Changed.{changed_meant};
ghost use Rattle.sj_run.specs.Meant.{reply_meant};
ghost use Rattle.sj_run.specs.Repeats.{answer_by};
ghost use Rattle.sj_run.specs.Run.{Leaves};

use crate::change::{Changed, Texts, change_lazy, edit_at};
use crate::document::Way;
use crate::find::{reply_at, write_at};
use crate::reply::Reply;
use crate::runs::Why;
use sj_commands::{Command, Read, Request, Step, Write};
use sj_document::Document;
use sj_lazy::{Lazy, Value};
use sj_object::KeyText;
use std::alloc::{AllocError, Global};
use std::borrow::CowStr;

/// A value that answers commands. The texts of the document that it is, or becomes, are `T`.
pub(crate) trait Root<T: KeyText> {
    /// Which member of several with one key counts, and the tree that it means.
    ghost part: { Self → Repeats × Tree };

    /// The reply to a read at a path.
    fn reply(&self, alloc: Global, way: Way, path: &[Step], read: &Read) -> Result<Reply, Why>
        ensures ok { IfOk result (λ reply. reply_meant reply ≡ (answer_by (part self.now) (command.read (map step_meant path.now) (read_meant read.now))).1) }
        ensures too_long { IsErrOf result Why.TooLong ↔ IsLong (answer_by (part self.now) (command.read (map step_meant path.now) (read_meant read.now))).1 };

    /// Appends the text of that reply.
    fn write(&self, way: Way, path: &[Step], read: &Read, out: &mut Vec<u8>) -> Result<(), Why>
        ensures ok { OnOk result (AnswersCommand (part self.now) (command.read (map step_meant path.now) (read_meant read.now)) (part self.now) out.old.items out.new.items) }
        ensures err { OnErr result (IsBegunBy out.old.items out.new.items) }
        ensures too_long { IsErrOf result Why.TooLong → PassesOne (part self.now) (command.read (map step_meant path.now) (read_meant read.now)) (length out.old.items) };

    // Why so: docs/REFUSED.md, "`Texts` and `Root` take values by `&mut`".
    /// Changes the value at a path, as the command does on the tree. The write is taken out of its
    /// place.
    fn change(
        &mut self,
        alloc: Global,
        way: Way,
        path: &[Step],
        write: &mut Write<String>,
    ) -> Result<Changed<T>, AllocError>
        ensures reply { IfOk result (λ changed. changed_meant T.text_of changed ≡ (answer_by (part self.old) (command.write (map step_meant path.now) (write_meant string_bytes write.old))).1) }
        ensures after { OnOk result (part self.new ≡ (answer_by (part self.old) (command.write (map step_meant path.now) (write_meant string_bytes write.old))).0) }
        ensures refused { OnErr result (Leaves (part self.old) (command.write (map step_meant path.now) (write_meant string_bytes write.old)) (part self.new)) }
        ensures short { ¬ (IsLong (answer_by (part self.old) (command.write (map step_meant path.now) (write_meant string_bytes write.old))).1) };
}

impl<T: KeyText + Drop> Root<T> for Document<T>
where
    Way: Texts<T>,
{
    ghost part = { λ d. (First, document_tree T.text_of d) };

    fn reply(&self, alloc: Global, way: Way, path: &[Step], read: &Read) -> Result<Reply, Why> {
        reply_at(alloc, self, way, path, read)
    }

    fn write(&self, way: Way, path: &[Step], read: &Read, out: &mut Vec<u8>) -> Result<(), Why> {
        write_at(self, way, path, read, out)
    }

    fn change(
        &mut self,
        alloc: Global,
        way: Way,
        path: &[Step],
        write: &mut Write<String>,
    ) -> Result<Changed<T>, AllocError> {
        let made = <Way as Texts<T>>::written(alloc, write)?;
        edit_at(self, way, path, made)
    }
}

/// A lazy value is changed by text in both ways.
impl<'b, 't, 'i> Root<CowStr<'i>> for Value<'b, 't, 'i> {
    ghost part = { value_part };

    fn reply(&self, alloc: Global, way: Way, path: &[Step], read: &Read) -> Result<Reply, Why> {
        match self {
            Lazy::Tape(tape) => reply_at(alloc, *tape, way, path, read),
            Lazy::Value(value) => reply_at(alloc, value.document(), way, path, read),
        }
    }

    fn write(&self, way: Way, path: &[Step], read: &Read, out: &mut Vec<u8>) -> Result<(), Why> {
        match self {
            Lazy::Tape(tape) => write_at(*tape, way, path, read, out),
            Lazy::Value(value) => write_at(value.document(), way, path, read, out),
        }
    }

    fn change(
        &mut self,
        alloc: Global,
        _way: Way,
        path: &[Step],
        write: &mut Write<String>,
    ) -> Result<Changed<CowStr<'i>>, AllocError> {
        let made = <Way as Texts<CowStr<'i>>>::written(alloc, write)?;
        change_lazy(alloc, self, path, made)
    }
}

/// Applies a command to the value, and makes the reply.
pub(crate) fn apply_to<V: Root<T>, T: KeyText + Drop>(
    alloc: Global,
    value: &mut V,
    way: Way,
    command: Command,
) -> Result<Reply, Why>
where
    Way: Texts<T>,
    ensures reply { IfOk result (λ reply. reply_meant reply ≡ (answer_by (V.part value.old) (command_meant command)).1) }
    ensures after { OnOk result (V.part value.new ≡ (answer_by (V.part value.old) (command_meant command)).0) }
    ensures refused { OnErr result (Leaves (V.part value.old) (command_meant command) (V.part value.new)) }
    ensures too_long { IsErrOf result Why.TooLong ↔ IsLong (answer_by (V.part value.old) (command_meant command)).1 }
{
    match Request::from(command) {
        Request::Read(path, read) => value.reply(alloc, way, &path, &read),
        Request::Write(path, mut write) => {
            let changed = value.change(alloc, way, &path, &mut write)?;
            Ok(changed.into_reply(alloc)?)
        }
        Request::Bad => Ok(Reply::BadCommand),
    }
}
