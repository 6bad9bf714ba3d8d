//! Whether a value is within a depth, on a stack of one size.

ghost use Rattle.std.specs.Prelude.{◌↔◌, ◌≤◌, ◌<◌, ◌+◌, IfOk, IsTrue, length, suc};
ghost use Rattle.sj_text_core.specs.Tree.{depth};
ghost use Rattle.sj_print.specs.inner.Piles.{weight};
ghost use Rattle.sj_document.specs.inner.Reach.{ahead_depth, ahead_weight, Reached};

use crate::value::Document;
use sj_object::KeyText;
use sj_print::{Level, Parts};
use std::alloc::{AllocError, Global};

/// What is left of a container's parts.
#[derive(Drop)]
enum Ahead<I, M> {
    Items(I),
    Members(M),
}

/// Whether at most so many arrays and objects stand inside one another. What stands open lies on a
/// list in memory, with an entry for each level that is open, and never more than `levels`. It is
/// refused only for want of memory.
pub fn is_within_depth<P: Parts>(
    value: &P,
    levels: usize,
    alloc: Global,
) -> Result<bool, AllocError>
    ensures { IfOk result (λ is. IsTrue is ↔ (depth (P.tree_of value.now) ≤ levels)) }
{
    let mut pile = Vec::new(alloc);
    if !open(value, levels, &mut pile)? {
        return Ok(false);
    }
    while let Some(ahead) = pile.pop() {
        if !further::<P>(ahead, levels, &mut pile)? {
            return Ok(false);
        }
    }
    Ok(true)
}

/// Puts a container onto the pile, and answers false where that would hold more than `levels`.
fn open<P: Parts>(
    value: &P,
    levels: usize,
    pile: &mut Vec<Ahead<P::Items, P::Members>>,
) -> Result<bool, AllocError>
    requires { length pile.old.items ≤ levels }
    ensures { IfOk result (λ is. Reached P.items_left P.members_left levels pile.old.items (depth (P.tree_of value.now)) (weight (P.tree_of value.now)) is pile.new.items) }
{
    match value.level() {
        Level::Static(_) | Level::String(_) | Level::Plain(_) => Ok(true),
        Level::Array(items) => pile_up::<P>(Ahead::Items(items), levels, pile),
        Level::Object(members) => pile_up::<P>(Ahead::Members(members), levels, pile),
    }
}

fn pile_up<P: Parts>(
    ahead: Ahead<P::Items, P::Members>,
    levels: usize,
    pile: &mut Vec<Ahead<P::Items, P::Members>>,
) -> Result<bool, AllocError>
    requires { length pile.old.items ≤ levels }
    ensures { IfOk result (λ is. Reached P.items_left P.members_left levels pile.old.items (suc (ahead_depth P.items_left P.members_left ahead)) (2 + ahead_weight P.items_left P.members_left ahead) is pile.new.items) }
{
    if pile.len() == levels {
        return Ok(false);
    }
    pile.push(ahead)?;
    Ok(true)
}

/// Goes on with the container that was on top of the pile.
fn further<P: Parts>(
    ahead: Ahead<P::Items, P::Members>,
    levels: usize,
    pile: &mut Vec<Ahead<P::Items, P::Members>>,
) -> Result<bool, AllocError>
    requires { length pile.old.items < levels }
    ensures { IfOk result (λ is. Reached P.items_left P.members_left levels pile.old.items (suc (ahead_depth P.items_left P.members_left ahead)) (suc (ahead_weight P.items_left P.members_left ahead)) is pile.new.items) }
{
    match ahead {
        Ahead::Items(mut items) => {
            let Some(item) = P::next_item(&mut items) else {
                return Ok(true);
            };
            pile.push(Ahead::Items(items))?;
            open(&item, levels, pile)
        }
        Ahead::Members(mut members) => {
            let Some((_, value)) = P::next_member(&mut members) else {
                return Ok(true);
            };
            pile.push(Ahead::Members(members))?;
            open(&value, levels, pile)
        }
    }
}

impl<T: KeyText> Document<T> {
    ghost use Rattle.sj_document.specs.Document.{document_tree};

    /// Whether at most so many arrays and objects stand inside one another. It takes a stack of one
    /// size, and memory for as many levels as are open at once. It is refused only for want of that.
    pub fn is_within_depth(&self, levels: usize, alloc: Global) -> Result<bool, AllocError>
        ensures { IfOk result (λ is. IsTrue is ↔ (depth (document_tree T.text_of self.now) ≤ levels)) }
    {
        is_within_depth(&self, levels, alloc)
    }
}
