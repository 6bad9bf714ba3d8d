//! What holds of values and their prints. A call goes over values and changes nothing.

ghost use Rattle.std.specs.Prelude.{◌≡◌, ◌↔◌, ◌⊎◌, ℕ, List, IsUtf8};
ghost use Rattle.sj_text_core.specs.Grammar.{Spells, IsReadable};
ghost use Rattle.sj_text_core.specs.Print.{compact, pretty, recarry};
ghost use Rattle.sj_text_core.specs.Repeats.{keep_by, SameBy};
ghost use Rattle.sj_text_core.specs.Scalars.{static_tree};
ghost use Rattle.sj_text_core.specs.Tree.{Tree, IsProper, IsWithin, AreProper, HasProper, items_from, members_from};
ghost use Rattle.sj_text_core.specs.declared.repeats.Repeats.{Repeats};

use crate::parts::{Level, Parts};
use sj_text_core::StaticNode;

/// Both prints of a value read back: each is readable exactly where the value is within the limit.
/// What it spells is then the same as the value, by the first or by the last member of each key,
/// and so is what is kept of that by the same choice.
pub fn reads_back<P: Parts>(value: &P)
    ensures readable { (b : List ℕ) → (b ≡ compact (P.tree_of value.now)) ⊎ (b ≡ pretty 0 (P.tree_of value.now)) → IsReadable b ↔ IsWithin (P.tree_of value.now) }
    ensures same { (b : List ℕ) → (b ≡ compact (P.tree_of value.now)) ⊎ (b ≡ pretty 0 (P.tree_of value.now)) → (choice : Repeats) (u : Tree) → Spells b u → SameBy choice choice (P.tree_of value.now) u × SameBy choice Repeats.First (P.tree_of value.now) (keep_by choice u) }
{
    is_proper(value);
}

/// Two values have one compact print exactly where they differ in the carriers of numbers alone,
/// and so they have one pretty print at a level.
pub fn prints_alike<P: Parts, Q: Parts>(left: &P, right: &Q)
    ensures compact { (compact (P.tree_of left.now) ≡ compact (Q.tree_of right.now)) ↔ (recarry (P.tree_of left.now) ≡ recarry (Q.tree_of right.now)) }
    ensures pretty { (level : ℕ) → (pretty level (P.tree_of left.now) ≡ pretty level (Q.tree_of right.now)) ↔ (recarry (P.tree_of left.now) ≡ recarry (Q.tree_of right.now)) }
{
    is_proper(left);
    is_proper(right);
}

/// Both prints of a value spell its tree, with the carriers of the prints.
pub fn prints_spell<P: Parts>(value: &P)
    ensures compact { Spells (compact (P.tree_of value.now)) (recarry (P.tree_of value.now)) }
    ensures pretty { (level : ℕ) → Spells (pretty level (P.tree_of value.now)) (recarry (P.tree_of value.now)) }
{
    is_proper(value);
}

// Why so: docs/REFUSED.md, "That a value means a proper tree".
/// The texts of a value are UTF-8, and its numbers lie in the ranges of their carriers.
#[cycle(is_proper)]
pub fn is_proper<P: Parts>(value: &P)
    ensures { IsProper (P.tree_of value.now) }
{
    match value.level() {
        Level::Static(node) => is_proper_static(node),
        Level::String(text) => is_proper_text(text),
        Level::Plain(plain) => is_proper_text(plain.text),
        Level::Array(items) => are_proper::<P>(items),
        Level::Object(members) => have_proper::<P>(members),
    }
}

#[cycle(is_proper)]
fn are_proper<P: Parts>(mut items: P::Items)
    ensures { AreProper (items_from (P.items_left items)) }
{
    while let Some(item) = P::next_item(&mut items) {
        is_proper(&item);
    }
}

#[cycle(is_proper)]
fn have_proper<P: Parts>(mut members: P::Members)
    ensures { HasProper (members_from (P.members_left members)) }
{
    while let Some((key, value)) = P::next_member(&mut members) {
        is_proper_text(P::key_text(&key));
        is_proper(&value);
    }
}

fn is_proper_text(text: &str)
    ensures { IsUtf8 text.now }
{
    let _bytes = text.as_bytes();
}

fn is_proper_static(node: StaticNode)
    ensures { IsProper (static_tree node) }
{
    let _node = node;
}
