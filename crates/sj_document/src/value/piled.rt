//! Documents made anew of what has parts, on a stack of one size: the containers that are begun lie on
//! a pile.

ghost use Rattle.std.specs.Prelude.{◌≡◌, ◌+◌, ◌*◌, ◌<◌, ℕ, List, IfOk, suc};
ghost use Rattle.std.specs.Iterator.{YieldsFirstBy};
ghost use Rattle.sj_text_core.specs.Tree.{Tree};
ghost use Rattle.sj_print.specs.inner.Piles.{weight};
ghost use Rattle.sj_document.specs.Document.{document_tree};
ghost use Rattle.sj_document.specs.inner.Piled.{Begins, StepsOn, items_tree, members_tree, items_left_weight, members_left_weight, with_part, waiting_weight, whole_of, waiting_left};

use crate::value::{Document, Object};
use sj_object::{HashMap, KeyText, MapOf, ObjectHasher};
use std::alloc::{AllocError, Global};

/// For how many levels a document is copied or converted by calls; below these it is made with a pile.
pub(crate) const LEVELS: usize = 128;

/// The first level of what a document is made of: a document without parts, or the parts of an array or
/// an object, and how many there are.
#[derive(Drop)]
pub(crate) enum Begun<I, M, T: KeyText> {
    Leaf(Document<T>),
    Items(I, usize),
    Members(M, usize),
}

/// A container that waits for a part: what is made of it, and what is left. Of an object it has the
/// key too.
#[derive(Drop)]
enum Waiting<I, M, T: KeyText> {
    Items(Vec<Document<T>>, I),
    Members(Object<T>, T, M),
}

/// What comes next: a part to be made, or one that is made.
#[derive(Drop)]
enum Next<S, T: KeyText> {
    Part(S),
    Made(Document<T>),
}

/// What a document is made of, part by part.
pub(crate) trait Source<T: KeyText>: Sized + Drop {
    /// What the items of an array are made of.
    type Items: Drop;

    /// What the members of an object are made of.
    type Members: Drop;

    /// The tree of what is made.
    ghost tree_of: { Self → Tree };

    /// The items that are left.
    ghost items_left: { Self.Items → List Tree };

    /// The members that are left.
    ghost members_left: { Self.Members → List (List ℕ × Tree) };

    /// Its first level. It is refused only for want of memory.
    fn begin(self, alloc: Global) -> Result<Begun<Self::Items, Self::Members, T>, AllocError>
        ensures { IfOk result (λ b. Begins T.text_of items_left members_left b (tree_of self)) };

    /// What the next item is made of.
    fn next_item(items: &mut Self::Items) -> Option<Self>
        ensures { YieldsFirstBy tree_of items_left items.old result items.new };

    /// The next member's key, and what its value is made of. It is refused only for want of memory.
    fn next_member(
        members: &mut Self::Members,
        alloc: Global,
    ) -> Result<Option<(T, Self)>, AllocError>
        ensures { IfOk result (λ next. YieldsFirstBy (λ (p : T × Self). (T.text_of p.0, tree_of p.1)) members_left members.old next members.new) };
}

/// The document that is made of the source. It is refused only for want of memory, and all that was
/// made is then given up.
pub(crate) fn make_piled<S: Source<T>, T: KeyText + Drop>(
    source: S,
    alloc: Global,
) -> Result<Document<T>, AllocError>
    ensures { IfOk result (λ v. document_tree T.text_of v ≡ S.tree_of source) }
{
    let mut pile = Vec::new(alloc);
    let mut made = go_down::<S, T>(source, &mut pile, alloc)?;
    while let Some(waiting) = pile.pop() {
        made = further::<S, T>(waiting, made, &mut pile, alloc)?;
    }
    Ok(made)
}

/// Goes down along first parts to one that has none, and makes that.
fn go_down<S: Source<T>, T: KeyText + Drop>(
    source: S,
    pile: &mut Vec<Waiting<S::Items, S::Members, T>>,
    alloc: Global,
) -> Result<Document<T>, AllocError>
    ensures same { IfOk result (λ v. whole_of T.text_of S.items_left S.members_left pile.new.items (document_tree T.text_of v) ≡ whole_of T.text_of S.items_left S.members_left pile.old.items (S.tree_of source)) }
    ensures less { IfOk result (λ v. 1 + 2 * waiting_left T.text_of S.items_left S.members_left pile.new.items < 2 * weight (S.tree_of source) + 2 * waiting_left T.text_of S.items_left S.members_left pile.old.items) }
{
    let mut at = source;
    loop {
        match into_part::<S, T>(at, pile, alloc)? {
            Next::Part(part) => at = part,
            Next::Made(made) => return Ok(made),
        }
    }
}

/// Makes what has no parts, or begins a container.
fn into_part<S: Source<T>, T: KeyText + Drop>(
    source: S,
    pile: &mut Vec<Waiting<S::Items, S::Members, T>>,
    alloc: Global,
) -> Result<Next<S, T>, AllocError>
    ensures { IfOk result (λ n. StepsOn T.text_of S.items_left S.members_left S.tree_of pile.old.items (S.tree_of source) (2 * weight (S.tree_of source)) n pile.new.items) }
{
    match source.begin(alloc)? {
        Begun::Leaf(made) => Ok(Next::Made(made)),
        Begun::Items(ahead, len) => {
            let made = Vec::with_capacity(alloc, len)?;
            on_items::<S, T>(made, ahead, pile, alloc)
        }
        Begun::Members(ahead, len) => {
            let made = HashMap::with_capacity_and_hasher(alloc, len, ObjectHasher::default())?;
            on_members::<S, T>(made, ahead, pile, alloc)
        }
    }
}

/// Puts the part into the container that waits for it, and makes what comes next.
fn further<S: Source<T>, T: KeyText + Drop>(
    waiting: Waiting<S::Items, S::Members, T>,
    part: Document<T>,
    pile: &mut Vec<Waiting<S::Items, S::Members, T>>,
    alloc: Global,
) -> Result<Document<T>, AllocError>
    ensures same { IfOk result (λ v. whole_of T.text_of S.items_left S.members_left pile.new.items (document_tree T.text_of v) ≡ whole_of T.text_of S.items_left S.members_left pile.old.items (with_part T.text_of S.items_left S.members_left waiting (document_tree T.text_of part))) }
    ensures less { IfOk result (λ v. waiting_left T.text_of S.items_left S.members_left pile.new.items < waiting_weight T.text_of S.items_left S.members_left waiting + waiting_left T.text_of S.items_left S.members_left pile.old.items) }
{
    match after_part::<S, T>(waiting, part, pile, alloc)? {
        Next::Part(next) => go_down::<S, T>(next, pile, alloc),
        Next::Made(made) => Ok(made),
    }
}

/// Puts the part into the container that waits for it, and tells what comes next.
fn after_part<S: Source<T>, T: KeyText + Drop>(
    waiting: Waiting<S::Items, S::Members, T>,
    part: Document<T>,
    pile: &mut Vec<Waiting<S::Items, S::Members, T>>,
    alloc: Global,
) -> Result<Next<S, T>, AllocError>
    ensures { IfOk result (λ n. StepsOn T.text_of S.items_left S.members_left S.tree_of pile.old.items (with_part T.text_of S.items_left S.members_left waiting (document_tree T.text_of part)) (1 + 2 * waiting_weight T.text_of S.items_left S.members_left waiting) n pile.new.items) }
{
    match waiting {
        Waiting::Items(mut made, ahead) => {
            made.push(part)?;
            on_items::<S, T>(made, ahead, pile, alloc)
        }
        Waiting::Members(mut made, key, ahead) => {
            made.set(key, part)?;
            on_members::<S, T>(made, ahead, pile, alloc)
        }
    }
}

/// The next item of an array, which then waits for it; or the array, where none is left.
fn on_items<S: Source<T>, T: KeyText + Drop>(
    made: Vec<Document<T>>,
    mut ahead: S::Items,
    pile: &mut Vec<Waiting<S::Items, S::Members, T>>,
    alloc: Global,
) -> Result<Next<S, T>, AllocError>
    ensures { IfOk result (λ n. StepsOn T.text_of S.items_left S.members_left S.tree_of pile.old.items (items_tree T.text_of S.items_left S.members_left made.items ahead) (3 + 2 * items_left_weight T.text_of S.items_left S.members_left ahead) n pile.new.items) }
{
    match S::next_item(&mut ahead) {
        Some(part) => {
            pile.push(Waiting::Items(made, ahead))?;
            Ok(Next::Part(part))
        }
        None => Ok(Next::Made(Document::Array(Box::new(alloc, made)?))),
    }
}

/// The value of the next member of an object, which then waits for it; or the object, where none is
/// left.
fn on_members<S: Source<T>, T: KeyText + Drop>(
    made: Object<T>,
    mut ahead: S::Members,
    pile: &mut Vec<Waiting<S::Items, S::Members, T>>,
    alloc: Global,
) -> Result<Next<S, T>, AllocError>
    ensures { IfOk result (λ n. StepsOn T.text_of S.items_left S.members_left S.tree_of pile.old.items (members_tree T.text_of S.items_left S.members_left made.entries ahead) (3 + 2 * members_left_weight T.text_of S.items_left S.members_left ahead) n pile.new.items) }
{
    match S::next_member(&mut ahead, alloc)? {
        Some((key, part)) => {
            pile.push(Waiting::Members(made, key, ahead))?;
            Ok(Next::Part(part))
        }
        None => Ok(Next::Made(Document::Object(Box::new(alloc, made)?))),
    }
}
