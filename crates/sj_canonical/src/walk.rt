//! The walk that prints a value with the members of each object in order.
//!
//! It keeps the containers that stand open on a pile, each with its parts that are left, so it takes no
//! more of the stack for deeper values. Of an object that stands open the pile has a list of its members, in order.

ghost use Rattle.std.specs.Prelude.{◌≡◌, ◌++◌, IfOk, OnOk, map, [], ◌∷◌};
ghost use Rattle.std.specs.Vec.Iter.{into_iter_items};
ghost use Rattle.sj_text_core.specs.Print.{quoted, compact};
ghost use Rattle.sj_text_core.specs.inner.Begun.{IsBegunBy};
ghost use Rattle.sj_canonical.specs.Canonical.{canonical_by};
ghost use Rattle.sj_canonical.specs.inner.Picks.{picked, by_choice, AreTexts};
ghost use Rattle.sj_canonical.specs.inner.Walks.{Moves, before_part, items_rest, members_rest, pair_of, open_rest, canonical_rest};

use crate::order::compare_units;
use sj_print::{BaseGenerator, Level, Parts};
use sj_text_core::Repeats;
use std::alloc::{AllocError, Global};
use std::vec;

/// The parts of a container that are left; those of an object in order.
#[derive(Drop)]
pub(crate) enum Ahead<I, K, V> {
    Items(I),
    Members(vec::IntoIter<(K, V)>),
}

/// A container that stands open, and whether a part of it has been printed.
#[derive(Drop)]
pub(crate) struct Open<I, K, V> {
    ahead: Ahead<I, K, V>,
    is_begun: bool,
}

/// The members as a list, as they stand.
fn collect<P: Parts>(mut members: P::Members, alloc: Global) -> Result<Vec<(P::Key, P)>, AllocError>
    ensures pairs { IfOk result (λ v. map (pair_of P.key_of P.tree_of) v.items ≡ P.members_left members) }
    ensures texts { OnOk result (AreTexts (P.members_left members)) }
{
    let mut list = Vec::new(alloc);
    while let Some(member) = P::next_member(&mut members) {
        // The check learns here that the key is UTF-8.
        let _text = P::key_text(&member.0);
        list.push(member)?;
    }
    Ok(list)
}

/// Puts of members with one key the one that counts in front of the others.
fn put_first<P: Parts>(choice: Repeats, list: &mut Vec<(P::Key, P)>)
    ensures { list.new.items ≡ by_choice choice list.old.items }
{
    match choice {
        Repeats::First => {}
        Repeats::Last => list.reverse(),
    }
}

/// The members that count as a list, in the order of their keys.
fn pick<P: Parts>(
    members: P::Members,
    choice: Repeats,
    alloc: Global,
) -> Result<Vec<(P::Key, P)>, AllocError>
    ensures pairs { IfOk result (λ v. map (pair_of P.key_of P.tree_of) v.items ≡ picked choice (P.members_left members)) }
    ensures texts { OnOk result (AreTexts (P.members_left members)) }
{
    let mut list = collect::<P>(members, alloc)?;
    put_first::<P>(choice, &mut list);
    list.sort_by(|one, other| compare_units(P::key_text(&one.0), P::key_text(&other.0)))?;
    list.dedup_by(|later, first| P::key_text(&later.0) == P::key_text(&first.0));
    Ok(list)
}

/// Appends a scalar's print, or a container's beginning, and puts the container onto the pile.
fn begin<P: Parts, G: BaseGenerator>(
    value: &P,
    pile: &mut Vec<Open<P::Items, P::Key, P>>,
    choice: Repeats,
    alloc: Global,
    generator: &mut G,
) -> Result<(), AllocError>
    ensures ok { OnOk result (Moves (G.written generator.old) (G.written generator.new) (compact (canonical_by choice (P.tree_of value.now)) ++ canonical_rest choice P.items_left P.key_of P.tree_of pile.old.items) (canonical_rest choice P.items_left P.key_of P.tree_of pile.new.items)) }
    ensures begun { IsBegunBy (G.written generator.old) (G.written generator.new) }
    ensures sink { G.sink generator.new ≡ G.sink generator.old }
{
    match value.level() {
        Level::Static(node) => generator.write_static(node),
        Level::String(text) => generator.write_string(text),
        Level::Plain(plain) => generator.write_string(plain.text),
        Level::Array(items) => {
            generator.write("[")?;
            let ahead = Ahead::Items(items);
            pile.push(Open {
                ahead,
                is_begun: false,
            })?;
            Ok(())
        }
        Level::Object(members) => {
            generator.write("{")?;
            let ahead = Ahead::Members(pick::<P>(members, choice, alloc)?.into_iter());
            pile.push(Open {
                ahead,
                is_begun: false,
            })?;
            Ok(())
        }
    }
}

/// Appends a comma behind a part.
fn put_comma<G: BaseGenerator>(is_begun: bool, generator: &mut G) -> Result<(), AllocError>
    ensures ok { OnOk result (G.written generator.new ≡ G.written generator.old ++ before_part is_begun) }
    ensures begun { IsBegunBy (G.written generator.old) (G.written generator.new) }
    ensures sink { G.sink generator.new ≡ G.sink generator.old }
{
    if is_begun {
        generator.write(",")
    } else {
        Ok(())
    }
}

/// Appends the next item of an array, or its beginning, or the array's end.
fn further_item<P: Parts, G: BaseGenerator>(
    mut items: P::Items,
    is_begun: bool,
    pile: &mut Vec<Open<P::Items, P::Key, P>>,
    choice: Repeats,
    alloc: Global,
    generator: &mut G,
) -> Result<(), AllocError>
    ensures ok { OnOk result (Moves (G.written generator.old) (G.written generator.new) (items_rest choice is_begun (P.items_left items) ++ canonical_rest choice P.items_left P.key_of P.tree_of pile.old.items) (canonical_rest choice P.items_left P.key_of P.tree_of pile.new.items)) }
    ensures begun { IsBegunBy (G.written generator.old) (G.written generator.new) }
    ensures sink { G.sink generator.new ≡ G.sink generator.old }
{
    let Some(item) = P::next_item(&mut items) else {
        return generator.write("]");
    };
    put_comma(is_begun, generator)?;
    let ahead = Ahead::Items(items);
    pile.push(Open {
        ahead,
        is_begun: true,
    })?;
    begin(&item, pile, choice, alloc, generator)
}

/// Appends a key and a colon.
fn put_key<P: Parts, G: BaseGenerator>(key: &P::Key, generator: &mut G) -> Result<(), AllocError>
    ensures ok { OnOk result (G.written generator.new ≡ G.written generator.old ++ (quoted (P.key_of key.now) ++ 58 ∷ [])) }
    ensures begun { IsBegunBy (G.written generator.old) (G.written generator.new) }
    ensures sink { G.sink generator.new ≡ G.sink generator.old }
{
    generator.write_string(P::key_text(key))?;
    generator.write(":")
}

/// Appends the next member of an object, or its key and its value's beginning, or the object's end.
fn further_member<P: Parts, G: BaseGenerator>(
    mut members: vec::IntoIter<(P::Key, P)>,
    is_begun: bool,
    pile: &mut Vec<Open<P::Items, P::Key, P>>,
    choice: Repeats,
    alloc: Global,
    generator: &mut G,
) -> Result<(), AllocError>
    ensures ok { OnOk result (Moves (G.written generator.old) (G.written generator.new) (members_rest choice is_begun (map (pair_of P.key_of P.tree_of) (into_iter_items members)) ++ canonical_rest choice P.items_left P.key_of P.tree_of pile.old.items) (canonical_rest choice P.items_left P.key_of P.tree_of pile.new.items)) }
    ensures begun { IsBegunBy (G.written generator.old) (G.written generator.new) }
    ensures sink { G.sink generator.new ≡ G.sink generator.old }
{
    let Some((key, value)) = members.next() else {
        return generator.write("}");
    };
    put_comma(is_begun, generator)?;
    put_key::<P, G>(&key, generator)?;
    let ahead = Ahead::Members(members);
    pile.push(Open {
        ahead,
        is_begun: true,
    })?;
    begin(&value, pile, choice, alloc, generator)
}

/// Appends what comes next of the container that was on top of the pile.
fn further<P: Parts, G: BaseGenerator>(
    opened: Open<P::Items, P::Key, P>,
    pile: &mut Vec<Open<P::Items, P::Key, P>>,
    choice: Repeats,
    alloc: Global,
    generator: &mut G,
) -> Result<(), AllocError>
    ensures ok { OnOk result (Moves (G.written generator.old) (G.written generator.new) (open_rest choice P.items_left P.key_of P.tree_of opened ++ canonical_rest choice P.items_left P.key_of P.tree_of pile.old.items) (canonical_rest choice P.items_left P.key_of P.tree_of pile.new.items)) }
    ensures begun { IsBegunBy (G.written generator.old) (G.written generator.new) }
    ensures sink { G.sink generator.new ≡ G.sink generator.old }
{
    let Open { ahead, is_begun } = opened;
    match ahead {
        Ahead::Items(items) => further_item::<P, G>(
            items, is_begun, pile, choice, alloc, generator,
        ),
        Ahead::Members(members) => further_member::<P, G>(
            members, is_begun, pile, choice, alloc, generator,
        ),
    }
}

/// Appends the value's canonical print. Refused, it leaves what was written, and maybe a part of it behind.
pub(crate) fn walk<P: Parts, G: BaseGenerator>(
    value: &P,
    choice: Repeats,
    alloc: Global,
    generator: &mut G,
) -> Result<(), AllocError>
    ensures ok { OnOk result (G.written generator.new ≡ G.written generator.old ++ compact (canonical_by choice (P.tree_of value.now))) }
    ensures begun { IsBegunBy (G.written generator.old) (G.written generator.new) }
    ensures sink { G.sink generator.new ≡ G.sink generator.old }
{
    let mut pile = Vec::new(alloc);
    begin(value, &mut pile, choice, alloc, generator)?;
    while let Some(opened) = pile.pop() {
        further::<P, G>(opened, &mut pile, choice, alloc, generator)?;
    }
    Ok(())
}
