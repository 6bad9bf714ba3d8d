//! Writes at a lazy value.

ghost use Rattle.std.specs.Prelude.{◌≡◌, ◌⊎◌, Some, map, IfOk, OnOk, OnErr};
ghost use Rattle.sj_lazy.specs.Value.{lazy_kept, owned};
ghost use Rattle.sj_run.specs.Answers.{edit};
ghost use Rattle.sj_run.specs.inner.Changed.{changed_meant};
ghost use Rattle.sj_commands.specs.Meant.{step_meant, write_meant};

use super::edit::edit_at;
use super::{Changed, Texts};
use crate::document::Way;
use sj_commands::{Step, Write};
use sj_lazy::{Lazy, Lent, Upgrade};
use sj_object::KeyText;
use std::alloc::{AllocError, Global};

/// Changes the value at a path of a lazy value, which is an owned document first, also where
/// nothing stands at the path or the write is refused. Refused for want of memory, it is as it was,
/// or the owned document without the write.
pub(crate) fn change_lazy<P: Upgrade<T> + Drop, B: Lent<T> + Drop, T: KeyText + Drop>(
    alloc: Global,
    value: &mut Lazy<P, B, T>,
    path: &[Step],
    write: Write<T>,
) -> Result<Changed<T>, AllocError>
where
    Way: Texts<T>,
    ensures reply { IfOk result (λ changed. changed_meant T.text_of changed ≡ (edit (map step_meant path.now) (write_meant T.text_of write) (lazy_kept P.part_kept B.lent_tree T.text_of value.old)).1) }
    ensures after { OnOk result (owned T.text_of value.new ≡ Some (edit (map step_meant path.now) (write_meant T.text_of write) (lazy_kept P.part_kept B.lent_tree T.text_of value.old)).0) }
    ensures refused { OnErr result ((value.new ≡ value.old) ⊎ (owned T.text_of value.new ≡ Some (lazy_kept P.part_kept B.lent_tree T.text_of value.old))) }
{
    match value.as_mut(alloc) {
        Ok(document) => edit_at(document, Way::ByText, path, write),
        Err(why) => Err(why),
    }
}
