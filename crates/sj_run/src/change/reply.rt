//! What a write answers, as a reply and written out.

ghost use Rattle.std.specs.Prelude.{◌≡◌, ◌+◌, ◌^◌, ◌≤◌, ◌++◌, length, IfOk, OnOk, OnErr, IsErrOf};
ghost use Rattle.sj_text_core.specs.inner.Begun.{IsBegunBy};
ghost use Rattle.sj_run.specs.inner.Changed.{changed_meant};
ghost use Rattle.sj_run.specs.Meant.{reply_meant};
ghost use Rattle.sj_run.specs.Shown.{reply_text};

use super::{Changed, Texts};
use crate::document::Way;
use crate::reply::Reply;
use crate::runs::Why;
use sj_object::KeyText;
use sj_text_core::Writable;
use std::alloc::{AllocError, Global};

impl<T: KeyText + Drop> Changed<T> {
    /// The reply, with the value that was there.
    pub(crate) fn into_reply(self, alloc: Global) -> Result<Reply, AllocError>
    where
        Way: Texts<T>,
        ensures { IfOk result (λ reply. reply_meant reply ≡ changed_meant T.text_of self) }
    {
        match self {
            Changed::Old(mut value) => Ok(Reply::Old(<Way as Texts<T>>::owned(alloc, &mut value)?)),
            Changed::Nothing => Ok(Reply::Nothing),
            Changed::Done => Ok(Reply::Done),
            Changed::Missing => Ok(Reply::Missing),
            Changed::NotAnObject => Ok(Reply::NotAnObject),
            Changed::NotAnArray => Ok(Reply::NotAnArray),
        }
    }

    /// Appends the text of the reply.
    pub(crate) fn write(&self, out: &mut Vec<u8>) -> Result<(), Why>
        ensures ok { OnOk result (out.new.items ≡ out.old.items ++ reply_text (changed_meant T.text_of self.now)) }
        ensures err { OnErr result (IsBegunBy out.old.items out.new.items) }
        ensures too_long { IsErrOf result Why.TooLong → 2 ^ 64 ≤ length out.old.items + length (reply_text (changed_meant T.text_of self.now)) }
    {
        match self {
            Changed::Old(value) => value.write(out)?,
            Changed::Nothing => out.extend_from_slice(b"none")?,
            Changed::Done => out.extend_from_slice(b"ok")?,
            Changed::Missing => out.extend_from_slice(b"missing")?,
            Changed::NotAnObject => out.extend_from_slice(b"not an object")?,
            Changed::NotAnArray => out.extend_from_slice(b"not an array")?,
        }
        Ok(())
    }
}
