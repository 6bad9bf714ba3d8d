//! Changes that are handed in, in the place of a reference that is lent.

ghost use Rattle.std.specs.Prelude.{◌≡◌, Some, None, IfOk, IfErr};
ghost use Rattle.sj_document.specs.Document.{ChangesInPlace};

use crate::value::lend::{LendItem, LendMember};
use std::mem;

// Why so: docs/REFUSED.md, "A change is handed in as a trait".
/// A change of a value in its place.
pub trait Change<V>: Sized {
    /// What it answers.
    type Answer;

    /// Holds of the change, what the value was, what it is then, and the answer.
    ghost makes: { Self → V → V → Self.Answer → Type 0 };

    /// Changes the value.
    fn change(self, value: &mut V) -> Self::Answer
        ensures { makes self value.old value.new result };
}

/// The change that puts its value in the place of the one before, and answers that.
#[derive(Debug, Drop)]
pub struct Replace<V> {
    pub value: V,
}

impl<V> Change<V> for Replace<V> {
    type Answer = V;

    ghost makes = { λ change old new answer. (answer ≡ old) × (new ≡ change.value) };

    fn change(self, value: &mut V) -> V {
        let Replace { value: new } = self;
        mem::replace(value, new)
    }
}

/// Changes the value of the key, and answers what the change does. The target is then as it was,
/// with what the change left in the place of that value. Where there is none the target is as it
/// was, and the change comes back.
pub fn change_member<L: LendMember, C: Change<L::Output>>(
    target: &mut L,
    key: &str,
    change: C,
) -> Result<C::Answer, C>
    ensures changed { IfOk result (ChangesInPlace (C.makes change) (λ v. L.finds_member target.old key.now (Some v)) (λ w. L.writes_member target.old key.now w target.new)) }
    ensures absent { IfErr result (λ back. (back ≡ change) × L.finds_member target.old key.now None × L.keeps_members target.old target.new) }
{
    match target.member_mut(key) {
        Some(value) => Ok(change.change(value)),
        None => Err(change),
    }
}

/// Changes the item at that position, counted from 0, and answers what the change does. The target
/// is then as it was, with what the change left in the place of that item. Where there is none the
/// target is as it was, and the change comes back.
pub fn change_item<L: LendItem, C: Change<L::Output>>(
    target: &mut L,
    index: usize,
    change: C,
) -> Result<C::Answer, C>
    ensures changed { IfOk result (ChangesInPlace (C.makes change) (λ v. L.finds_item target.old index (Some v)) (λ w. L.writes_item target.old index w target.new)) }
    ensures absent { IfErr result (λ back. (back ≡ change) × L.finds_item target.old index None × L.keeps_items target.old target.new) }
{
    match target.item_mut(index) {
        Some(value) => Ok(change.change(value)),
        None => Err(change),
    }
}
