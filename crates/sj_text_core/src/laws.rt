//! What holds of the definitions: each function's contract is a law, and its body is empty.

ghost use Rattle.sj_text_core.specs.Laws.{KeepsOnce, KeepsSingle, SingleIsKept, IsPreorderOfOne, PreorderIsFlat, TreeIsListed, SpellsOne, SpellsProper, SpellsUtf8};
ghost use Rattle.sj_text_core.specs.Laws.{SameAsItself, SameBothWays, SameOnwards, SameKept, SameRecarried, WithinRecarried, FindsKept, FindsKeyKept};
ghost use Rattle.sj_text_core.specs.EditLaws.{FindsPut, FindsOthersPut, CutIsGone, FindsOthersCut, PushedIsLast, SetIsThere, SetNowhere, SetTwice, SetSame, PathsJoin};
ghost use Rattle.sj_text_core.specs.Laws.{CompactSpells, PrettySpells, PrintedAlike, PrintedApart, ReadsBack};

/// Keeping the first or the last member of each key twice is keeping it once.
pub fn keeps_once()
    ensures { KeepsOnce }
{}

/// A kept tree has no object with two members of one key, at any depth.
pub fn keeps_single()
    ensures { KeepsSingle }
{}

/// A tree whose objects repeat no key is kept as it is.
pub fn single_is_kept()
    ensures { SingleIsKept }
{}

/// A text spells at most one tree.
pub fn spells_one()
    ensures { SpellsOne }
{}

/// A list of nodes is the preorder of at most one tree.
pub fn preorder_of_one()
    ensures { IsPreorderOfOne }
{}

/// A list of nodes is a preorder where it is that of some tree.
pub fn preorder_is_flat()
    ensures { PreorderIsFlat }
{}

/// The tree that is read off a preorder is the tree that was listed.
pub fn tree_is_listed()
    ensures { TreeIsListed }
{}

/// Every tree that some text spells is proper: its texts are UTF-8, its numbers in their carriers' ranges.
pub fn spells_proper()
    ensures { SpellsProper }
{}

/// A text that spells a tree is UTF-8 (RFC 8259, section 8.1).
pub fn spells_utf8()
    ensures { SpellsUtf8 }
{}

/// Sameness is reflexive, also on trees whose objects repeat keys.
pub fn same_as_itself()
    ensures { SameAsItself }
{}

/// Sameness is symmetric.
pub fn same_both_ways()
    ensures { SameBothWays }
{}

/// Sameness is transitive.
pub fn same_onwards()
    ensures { SameOnwards }
{}

/// A tree is the same as its kept tree.
pub fn same_kept()
    ensures { SameKept }
{}

/// A tree is the same as the tree that has the carriers of its prints.
pub fn same_recarried()
    ensures { SameRecarried }
{}

/// The carriers of prints keep a tree within the limit.
pub fn within_recarried()
    ensures { WithinRecarried }
{}

/// A path leads in a kept tree to what it leads to, kept.
pub fn finds_kept()
    ensures { FindsKept }
{}

/// A key leads in a kept tree to the member that counts, kept.
pub fn finds_key_kept()
    ensures { FindsKeyKept }
{}

/// The compact text of a proper tree spells it, with the carriers of the print.
pub fn compact_spells()
    ensures { CompactSpells }
{}

/// The pretty text of a proper tree spells it, with the carriers of the print.
pub fn pretty_spells()
    ensures { PrettySpells }
{}

/// Trees that differ in carriers alone have one compact and one pretty text.
pub fn printed_alike()
    ensures { PrintedAlike }
{}

/// Proper trees with one text, compact or pretty, differ in carriers alone.
pub fn printed_apart()
    ensures { PrintedApart }
{}

/// Both texts of a proper tree within the limit read back as a tree that is the same, by either
/// choice, and kept by that choice too.
pub fn reads_back()
    ensures { ReadsBack }
{}

/// What was put under a text is found by it.
pub fn finds_put()
    ensures { FindsPut }
{}

/// After a put, other texts find what they found before.
pub fn finds_others_put()
    ensures { FindsOthersPut }
{}

/// What was cut is gone, where no text names two members, as in a kept tree.
pub fn cut_is_gone()
    ensures { CutIsGone }
{}

/// After a cut, other texts find what they found before.
pub fn finds_others_cut()
    ensures { FindsOthersCut }
{}

/// What was pushed is the last item, behind the items that were there.
pub fn pushed_is_last()
    ensures { PushedIsLast }
{}

/// What was set at a path stands there, where something stood there before.
pub fn set_is_there()
    ensures { SetIsThere }
{}

/// Where nothing stands at a path, a write at it changes nothing.
pub fn set_nowhere()
    ensures { SetNowhere }
{}

/// Of two writes at one path the second counts.
pub fn set_twice()
    ensures { SetTwice }
{}

/// What stands at a path, written there, changes nothing.
pub fn set_same()
    ensures { SetSame }
{}

/// A path of two parts leads on from where its first part leads, and a write at it is one there.
pub fn paths_join()
    ensures { PathsJoin }
{}
