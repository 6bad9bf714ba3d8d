//! The walk over a value. It calls itself for so many levels and goes on with a pile of what stands
//! open, so that its stack has one size at whatever depth.

ghost use Rattle.std.specs.Prelude.{◌≡◌, ◌+◌, ◌≤◌, ◌<◌, [], ◌∷◌, ◌++◌, flat_map, vec_len, vec_capacity};
ghost use Rattle.sj_text_core.specs.Print.{escaped, quoted};
ghost use Rattle.sj_text_core.specs.Tree.{list, obj, no_items, no_members, items_from, members_from};
ghost use Rattle.sj_print.specs.Layouts.{laid, gap};
ghost use Rattle.sj_print.specs.inner.Layouts.{key_end};
ghost use Rattle.sj_print.specs.Outputs.{AppendsText, Lays};
ghost use Rattle.sj_print.specs.inner.Piles.{ahead_tree, items_mark, members_mark, items_laid, members_laid, open_laid, open_weight, weight, items_weight, members_weight, pile_weight, PilesUp};

use crate::layout::Layout;
use crate::output::Output;
use crate::parts::{Level, Parts};
use std::alloc::Global;

/// For how many levels the walk calls itself.
const LEVELS: usize = 128;

/// What is left of a container's parts.
#[derive(Drop)]
pub(crate) enum Ahead<I, M> {
    Items(I),
    Members(M),
}

/// A container on the pile.
#[derive(Drop)]
pub(crate) struct Open<I, M> {
    ahead: Ahead<I, M>,
    layout: Layout,
    is_begun: bool,
}

/// Appends the text, and then what the layout has between tokens.
#[inline(always)]
fn put_then_gap<O: Output>(text: &str, layout: Layout, out: O) -> O
    ensures { Lays O.holds out result layout (λ s. text.now ++ gap s) }
{
    out.put(text).put_gap(layout)
}

/// Appends what the layout has between tokens, and then the text.
#[inline(always)]
fn put_gap_then<O: Output>(layout: Layout, text: &str, out: O) -> O
    ensures { Lays O.holds out result layout (λ s. gap s ++ text.now) }
{
    out.put_gap(layout).put(text)
}

/// Appends a key's text between `before` and `behind`, with escapes where they are needed.
#[inline(always)]
fn put_text_of<P: Parts, O: Output>(before: &str, key: &P::Key, behind: &str, out: O) -> O
    ensures { AppendsText O.holds out result (before.now ++ (flat_map escaped (P.key_of key.now) ++ behind.now)) }
{
    match P::plain_key(key) {
        Some(plain) => out.put_plain(before, plain, behind),
        None => out.put_text(before, P::key_text(key), behind),
    }
}

/// Appends what stands before a member's value: the mark, which `marked` has with a quote behind it,
/// the key and a colon.
#[inline(always)]
fn put_key<P: Parts, O: Output>(mark: &str, marked: &str, key: &P::Key, layout: Layout, out: O) -> O
    requires { marked.now ≡ mark.now ++ 34 ∷ [] }
    ensures { Lays O.holds out result layout (λ s. (mark.now ++ gap s) ++ (quoted (P.key_of key.now) ++ key_end s)) }
{
    match layout {
        Layout::Compact => put_text_of::<P, O>(marked, key, "\":", out),
        Layout::Pretty { .. } => {
            put_text_of::<P, O>("\"", key, "\": ", put_then_gap(mark, layout, out))
        }
    }
}

/// Appends what stands before an item: an array's beginning, or a comma.
#[inline(always)]
fn put_before_item<O: Output>(is_begun: bool, layout: Layout, out: O) -> O
    ensures { Lays O.holds out result layout (λ s. items_mark is_begun ∷ gap s) }
{
    if is_begun {
        put_then_gap(",", layout, out)
    } else {
        put_then_gap("[", layout, out)
    }
}

/// Appends the end of an array, or all of an empty one.
#[inline(always)]
fn put_items_end<O: Output>(is_begun: bool, layout: Layout, out: O) -> O
    ensures { Lays O.holds out result layout (λ s. items_laid is_begun s no_items) }
{
    if is_begun {
        put_gap_then(layout, "]", out)
    } else {
        out.put("[]")
    }
}

/// Appends what stands before a member's value, with an object's beginning or a comma in front.
#[inline(always)]
fn put_before_member<P: Parts, O: Output>(is_begun: bool, key: &P::Key, layout: Layout, out: O) -> O
    ensures { Lays O.holds out result layout (λ s. (members_mark is_begun ∷ gap s) ++ (quoted (P.key_of key.now) ++ key_end s)) }
{
    if is_begun {
        put_key::<P, O>(",", ",\"", key, layout, out)
    } else {
        put_key::<P, O>("{", "{\"", key, layout, out)
    }
}

/// Appends the end of an object, or all of an empty one.
#[inline(always)]
fn put_members_end<O: Output>(is_begun: bool, layout: Layout, out: O) -> O
    ensures { Lays O.holds out result layout (λ s. members_laid is_begun s no_members) }
{
    if is_begun {
        put_gap_then(layout, "}", out)
    } else {
        out.put("{}")
    }
}

/// Appends the value's print. Memory is asked for past so many levels alone; where it is refused, the
/// walk goes on by itself for as many.
#[inline(always)]
pub(crate) fn print<P: Parts, O: Output>(value: &P, layout: Layout, alloc: Global, out: O) -> O
    ensures { Lays O.holds out result layout (λ s. laid s (P.tree_of value.now)) }
{
    print_within(value, layout, LEVELS, alloc, out)
}

/// Appends the value's print, with so many levels before the pile.
#[cycle(print)]
#[inline(always)]
fn print_within<P: Parts, O: Output>(
    value: &P,
    layout: Layout,
    levels: usize,
    alloc: Global,
    out: O,
) -> O
    ensures { Lays O.holds out result layout (λ s. laid s (P.tree_of value.now)) }
{
    match value.level() {
        Level::Static(node) => out.put_static(node),
        Level::String(text) => out.put_quoted(text),
        Level::Plain(plain) => out.put_quoted_plain(plain),
        Level::Array(items) => print_items::<P, O>(items, layout, levels, alloc, out),
        Level::Object(members) => print_members::<P, O>(members, layout, levels, alloc, out),
    }
}

#[cycle(print)]
fn print_items<P: Parts, O: Output>(
    mut items: P::Items,
    layout: Layout,
    levels: usize,
    alloc: Global,
    out: O,
) -> O
    ensures { Lays O.holds out result layout (λ s. laid s (list (items_from (P.items_left items)))) }
{
    if levels == 0 {
        return pile_items::<P, O>(items, layout, alloc, out);
    }
    let Some(first) = P::next_item(&mut items) else {
        return out.put("[]");
    };
    let inner = layout.deeper();
    let mut out = print_within(
        &first,
        inner,
        levels - 1,
        alloc,
        put_then_gap("[", inner, out),
    );
    while let Some(item) = P::next_item(&mut items) {
        out = print_within(
            &item,
            inner,
            levels - 1,
            alloc,
            put_then_gap(",", inner, out),
        );
    }
    put_gap_then(layout, "]", out)
}

#[cycle(print)]
fn print_members<P: Parts, O: Output>(
    mut members: P::Members,
    layout: Layout,
    levels: usize,
    alloc: Global,
    out: O,
) -> O
    ensures { Lays O.holds out result layout (λ s. laid s (obj (members_from (P.members_left members)))) }
{
    if levels == 0 {
        return pile_members::<P, O>(members, layout, alloc, out);
    }
    let Some((key, first)) = P::next_member(&mut members) else {
        return out.put("{}");
    };
    let inner = layout.deeper();
    let begun = put_key::<P, O>("{", "{\"", &key, inner, out);
    let mut out = print_within(&first, inner, levels - 1, alloc, begun);
    while let Some((key, value)) = P::next_member(&mut members) {
        let begun = put_key::<P, O>(",", ",\"", &key, inner, out);
        out = print_within(&value, inner, levels - 1, alloc, begun);
    }
    put_gap_then(layout, "}", out)
}

/// Appends an array's print, with a pile. Apart from `print_items`, which has no place for the pile's entry.
#[cycle(print)]
#[cold]
#[inline(never)]
fn pile_items<P: Parts, O: Output>(items: P::Items, layout: Layout, alloc: Global, out: O) -> O
    ensures { Lays O.holds out result layout (λ s. laid s (list (items_from (P.items_left items)))) }
{
    print_piled::<P, O>(Ahead::Items(items), layout, alloc, out)
}

/// Appends an object's print, with a pile. Apart from `print_members`, as for items.
#[cycle(print)]
#[cold]
#[inline(never)]
fn pile_members<P: Parts, O: Output>(
    members: P::Members,
    layout: Layout,
    alloc: Global,
    out: O,
) -> O
    ensures { Lays O.holds out result layout (λ s. laid s (obj (members_from (P.members_left members)))) }
{
    print_piled::<P, O>(Ahead::Members(members), layout, alloc, out)
}

/// Appends a container's print, with no pile before so many levels.
#[cycle(print)]
fn print_ahead<P: Parts, O: Output>(
    ahead: Ahead<P::Items, P::Members>,
    layout: Layout,
    alloc: Global,
    out: O,
) -> O
    ensures { Lays O.holds out result layout (λ s. laid s (ahead_tree P.items_left P.members_left ahead)) }
{
    match ahead {
        Ahead::Items(items) => print_items::<P, O>(items, layout, LEVELS, alloc, out),
        Ahead::Members(members) => print_members::<P, O>(members, layout, LEVELS, alloc, out),
    }
}

/// Appends a container's print, with its parts on a pile.
#[cycle(print)]
fn print_piled<P: Parts, O: Output>(
    ahead: Ahead<P::Items, P::Members>,
    layout: Layout,
    alloc: Global,
    out: O,
) -> O
    ensures { Lays O.holds out result layout (λ s. laid s (ahead_tree P.items_left P.members_left ahead)) }
{
    let mut pile = Vec::new(alloc);
    let mut out = pile_up::<P, O>(ahead, layout, &mut pile, alloc, out);
    while let Some(opened) = pile.pop() {
        out = further::<P, O>(opened, &mut pile, alloc, out);
    }
    out
}

/// Puts a container onto the pile, or, where that has no room, appends its print.
#[cycle(print)]
fn pile_up<P: Parts, O: Output>(
    ahead: Ahead<P::Items, P::Members>,
    layout: Layout,
    pile: &mut Vec<Open<P::Items, P::Members>>,
    alloc: Global,
    out: O,
) -> O
    ensures piled { PilesUp P.items_left P.members_left O.holds pile.old.items out pile.new.items result layout (λ s. laid s (ahead_tree P.items_left P.members_left ahead)) }
    ensures fewer { pile_weight P.items_left P.members_left pile.new.items < weight (ahead_tree P.items_left P.members_left ahead) + pile_weight P.items_left P.members_left pile.old.items }
{
    let open = Open {
        ahead,
        layout,
        is_begun: false,
    };
    match pile.push(open) {
        Ok(()) => out,
        Err(refused) => print_ahead::<P, O>(refused.value.ahead, layout, alloc, out),
    }
}

/// Appends a scalar's print, or puts a container onto the pile.
#[cycle(print)]
fn print_part<P: Parts, O: Output>(
    value: &P,
    layout: Layout,
    pile: &mut Vec<Open<P::Items, P::Members>>,
    alloc: Global,
    out: O,
) -> O
    ensures piled { PilesUp P.items_left P.members_left O.holds pile.old.items out pile.new.items result layout (λ s. laid s (P.tree_of value.now)) }
    ensures fewer { pile_weight P.items_left P.members_left pile.new.items < weight (P.tree_of value.now) + pile_weight P.items_left P.members_left pile.old.items }
{
    match value.level() {
        Level::Static(node) => out.put_static(node),
        Level::String(text) => out.put_quoted(text),
        Level::Plain(plain) => out.put_quoted_plain(plain),
        Level::Array(items) => pile_up::<P, O>(Ahead::Items(items), layout, pile, alloc, out),
        Level::Object(members) => {
            pile_up::<P, O>(Ahead::Members(members), layout, pile, alloc, out)
        }
    }
}

/// Appends what comes next of the container that was on top of the pile: a part and what stands
/// before it, or its end.
#[cycle(print)]
fn further<P: Parts, O: Output>(
    opened: Open<P::Items, P::Members>,
    pile: &mut Vec<Open<P::Items, P::Members>>,
    alloc: Global,
    out: O,
) -> O
    requires { vec_len pile.old < vec_capacity pile.old }
    ensures piled { PilesUp P.items_left P.members_left O.holds pile.old.items out pile.new.items result opened.layout (λ s. open_laid P.items_left P.members_left s opened) }
    ensures fewer { pile_weight P.items_left P.members_left pile.new.items < open_weight P.items_left P.members_left opened + pile_weight P.items_left P.members_left pile.old.items }
{
    let Open {
        ahead,
        layout,
        is_begun,
    } = opened;
    match ahead {
        Ahead::Items(items) => { further_item::<P, O>(items, layout, is_begun, pile, alloc, out) }
        Ahead::Members(members) => {
            further_member::<P, O>(members, layout, is_begun, pile, alloc, out)
        }
    }
}

#[cycle(print)]
fn further_item<P: Parts, O: Output>(
    mut items: P::Items,
    layout: Layout,
    is_begun: bool,
    pile: &mut Vec<Open<P::Items, P::Members>>,
    alloc: Global,
    out: O,
) -> O
    requires { vec_len pile.old < vec_capacity pile.old }
    ensures piled { PilesUp P.items_left P.members_left O.holds pile.old.items out pile.new.items result layout (λ s. items_laid is_begun s (items_from (P.items_left items))) }
    ensures fewer { pile_weight P.items_left P.members_left pile.new.items ≤ items_weight (items_from (P.items_left items)) + pile_weight P.items_left P.members_left pile.old.items }
{
    let Some(item) = P::next_item(&mut items) else {
        return put_items_end(is_begun, layout, out);
    };
    let inner = layout.deeper();
    let out = put_before_item(is_begun, inner, out);
    let open = Open {
        ahead: Ahead::Items(items),
        layout,
        is_begun: true,
    };
    pile.push(open).unwrap();
    print_part(&item, inner, pile, alloc, out)
}

#[cycle(print)]
fn further_member<P: Parts, O: Output>(
    mut members: P::Members,
    layout: Layout,
    is_begun: bool,
    pile: &mut Vec<Open<P::Items, P::Members>>,
    alloc: Global,
    out: O,
) -> O
    requires { vec_len pile.old < vec_capacity pile.old }
    ensures piled { PilesUp P.items_left P.members_left O.holds pile.old.items out pile.new.items result layout (λ s. members_laid is_begun s (members_from (P.members_left members))) }
    ensures fewer { pile_weight P.items_left P.members_left pile.new.items ≤ members_weight (members_from (P.members_left members)) + pile_weight P.items_left P.members_left pile.old.items }
{
    let Some((key, value)) = P::next_member(&mut members) else {
        return put_members_end(is_begun, layout, out);
    };
    let inner = layout.deeper();
    let out = put_before_member::<P, O>(is_begun, &key, inner, out);
    let open = Open {
        ahead: Ahead::Members(members),
        layout,
        is_begun: true,
    };
    pile.push(open).unwrap();
    print_part(&value, inner, pile, alloc, out)
}
