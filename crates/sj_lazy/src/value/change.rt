//! Changes of a part, which are handed in. Each makes the value an owned document first.

ghost use Rattle.std.specs.Prelude.{◌≡◌, IfOk, IfErr, IsSome, IsOk};
ghost use Rattle.sj_text_core.specs.Find.{find, nth};
ghost use Rattle.sj_text_core.specs.Paths.{by_key, by_place, set_found};

use super::Lazy;
use crate::upgrade::{Lent, Upgrade};
use sj_document::{Change, Document, change_item, change_member};
use sj_object::KeyText;
use sj_text_core::Refused;
use std::alloc::{AllocError, Global};

impl<P: Upgrade<T> + Drop, B: Lent<T> + Drop, T: KeyText + Drop> Lazy<P, B, T> {
    ghost use Rattle.sj_lazy.specs.Value.{owned};
    ghost use Rattle.sj_lazy.specs.Edits.{ChangesKept, ComesBack};

    /// Changes the value of the key, once it is owned, and answers what the change does. It is then
    /// as it was kept, with what the change left in the place of that value. Where there is none it
    /// is owned, and the change comes back. Refused for want of memory, it is as it was, and the
    /// change comes back.
    pub fn change_member<C: Change<Document<T>>>(
        &mut self,
        alloc: Global,
        key: &str,
        change: C,
    ) -> Result<Result<C::Answer, C>, Refused<AllocError, C>>
        ensures changed { IfOk result (λ done. IfOk done (ChangesKept P.part_kept B.lent_tree T.text_of (C.makes change) (λ u o. o ≡ find key.now u) (set_found (by_key key.now)) self.old self.new)) }
        ensures absent { IfOk result (λ done. IfErr done (ComesBack P.part_kept B.lent_tree T.text_of change (λ u o. o ≡ find key.now u) self.old self.new)) }
        ensures refused { IfErr result (λ r. (r.value ≡ change) × (self.new ≡ self.old)) }
        ensures succeeds { IsSome (owned T.text_of self.old) → IsOk result }
    {
        match self.as_mut(alloc) {
            Ok(document) => Ok(change_member(document, key, change)),
            Err(why) => Err(Refused { why, value: change }),
        }
    }

    /// Changes the item at that position, counted from 0, once it is owned, and answers what the
    /// change does. It is then as it was kept, with what the change left in the place of that item.
    /// Where there is none it is owned, and the change comes back. Refused for want of memory, it is
    /// as it was, and the change comes back.
    pub fn change_item<C: Change<Document<T>>>(
        &mut self,
        alloc: Global,
        index: usize,
        change: C,
    ) -> Result<Result<C::Answer, C>, Refused<AllocError, C>>
        ensures changed { IfOk result (λ done. IfOk done (ChangesKept P.part_kept B.lent_tree T.text_of (C.makes change) (λ u o. o ≡ nth index u) (set_found (by_place index)) self.old self.new)) }
        ensures absent { IfOk result (λ done. IfErr done (ComesBack P.part_kept B.lent_tree T.text_of change (λ u o. o ≡ nth index u) self.old self.new)) }
        ensures refused { IfErr result (λ r. (r.value ≡ change) × (self.new ≡ self.old)) }
        ensures succeeds { IsSome (owned T.text_of self.old) → IsOk result }
    {
        match self.as_mut(alloc) {
            Ok(document) => Ok(change_item(document, index, change)),
            Err(why) => Err(Refused { why, value: change }),
        }
    }
}
