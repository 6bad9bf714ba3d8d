//! Reads at a path.

ghost use Rattle.std.specs.Prelude.{◌≡◌, ◌↔◌, map, option_map, length, IfOk, IfSome, OnOk, OnErr, IsErrOf};
ghost use Rattle.sj_text_core.specs.Paths.{step_into_by, token_into_by, tree_at_by};
ghost use Rattle.sj_text_core.specs.inner.Begun.{IsBegunBy};
ghost use Rattle.sj_run.specs.Answers.{fits_in, IsLong};
ghost use Rattle.sj_run.specs.inner.Answered.{AnswersCommand, PassesOne};
ghost use Rattle.sj_commands.specs.Commands as command;
ghost use Rattle.sj_run.specs.inner.Found.{found_meant};
ghost use Rattle.sj_commands.specs.Meant.{read_meant, step_meant, width_meant};
ghost use Rattle.sj_run.specs.Meant.{reply_meant};
ghost use Rattle.sj_run.specs.Repeats.{answer_by, reply_to_by};

mod found;
mod place;

use crate::document::Way;
use crate::reply::Reply;
use crate::runs::Why;
use found::Found;
pub(crate) use place::Place;
use sj_commands::{Read, Step, Width};
use sj_pointer::position;
use sj_text_core::{TypedValue, ValueAsScalar};
use std::alloc::Global;

/// What a token finds: on an array the item at the position that it names, else the value of a key.
fn follow_token<P: Place>(place: &P, way: Way, token: &str) -> Option<P>
    ensures value { option_map P.tree_of result ≡ token_into_by (P.choice place.now) token.now (P.tree_of place.now) }
    ensures choice { IfSome result (λ p. P.choice p ≡ P.choice place.now) }
{
    if place.value().is_array() {
        place.item(position(token)?)
    } else {
        place.member(way, token)
    }
}

/// What one step finds.
fn follow<P: Place>(place: &P, way: Way, step: &Step) -> Option<P>
    ensures value { option_map P.tree_of result ≡ step_into_by (P.choice place.now) (step_meant step.now) (P.tree_of place.now) }
    ensures choice { IfSome result (λ p. P.choice p ≡ P.choice place.now) }
{
    match step {
        Step::Key(key) => place.member(way, key.as_str()),
        Step::Idx(index) => place.item(*index),
        Step::Token(token) => follow_token(place, way, token.as_str()),
    }
}

/// What stands at the path; None where a step finds nothing.
fn place_at<P: Place>(place: P, way: Way, path: &[Step]) -> Option<P>
    ensures value { option_map P.tree_of result ≡ tree_at_by (P.choice place) (map step_meant path.now) (P.tree_of place) }
    ensures choice { IfSome result (λ p. P.choice p ≡ P.choice place) }
{
    let mut at = place;
    for step in path {
        at = follow(&at, way, step)?;
    }
    Some(at)
}

/// Whether the value is a whole number in the type's range.
fn fits<V: ValueAsScalar>(value: &V, width: Width) -> bool
    ensures { result ≡ fits_in (width_meant width) (V.tree value.now) }
{
    match width {
        Width::I8 => value.is_i8(),
        Width::I16 => value.is_i16(),
        Width::I32 => value.is_i32(),
        Width::I64 => value.is_i64(),
        Width::I128 => value.is_i128(),
        Width::U8 => value.is_u8(),
        Width::U16 => value.is_u16(),
        Width::U32 => value.is_u32(),
        Width::U64 => value.is_u64(),
        Width::U128 => value.is_u128(),
        Width::Usize => value.is_usize(),
    }
}

/// What is read of a value.
fn read_value<'v, P: Place>(place: &'v P, way: Way, read: &Read) -> Found<'v, P>
    ensures { found_meant P.tree_of result ≡ reply_to_by (P.choice place.now) (read_meant read.now) (P.tree_of place.now) }
{
    match read {
        Read::Kind => Found::Kind(place.value().value_type()),
        Read::Fits(width) => Found::Truth(fits(place.value(), *width)),
        Read::Str => match place.value().as_str() {
            Some(text) => Found::Text(text),
            None => Found::NotAString,
        },
        Read::Len => match place.len() {
            Some(count) => Found::Count(count),
            None => Found::NoLength,
        },
        Read::Keys => Found::Keys(place),
        Read::Has(key) => Found::Truth(place.member(way, key.as_str()).is_some()),
        Read::Encode => Found::Print(place),
        Read::EncodePp => Found::Pretty(place),
    }
}

/// The reply to a read at a path.
pub(crate) fn reply_at<P: Place>(
    alloc: Global,
    place: P,
    way: Way,
    path: &[Step],
    read: &Read,
) -> Result<Reply, Why>
    ensures ok { IfOk result (λ reply. reply_meant reply ≡ (answer_by (P.choice place, P.tree_of place) (command.read (map step_meant path.now) (read_meant read.now))).1) }
    ensures too_long { IsErrOf result Why.TooLong ↔ IsLong (answer_by (P.choice place, P.tree_of place) (command.read (map step_meant path.now) (read_meant read.now))).1 }
{
    match place_at(place, way, path) {
        Some(at) => read_value(&at, way, read).into_reply(alloc),
        None => Ok(Reply::Missing),
    }
}

/// Appends the text of the reply to a read at a path. Nothing is copied first.
pub(crate) fn write_at<P: Place>(
    place: P,
    way: Way,
    path: &[Step],
    read: &Read,
    out: &mut Vec<u8>,
) -> Result<(), Why>
    ensures ok { OnOk result (AnswersCommand (P.choice place, P.tree_of place) (command.read (map step_meant path.now) (read_meant read.now)) (P.choice place, P.tree_of place) out.old.items out.new.items) }
    ensures err { OnErr result (IsBegunBy out.old.items out.new.items) }
    ensures too_long { IsErrOf result Why.TooLong → PassesOne (P.choice place, P.tree_of place) (command.read (map step_meant path.now) (read_meant read.now)) (length out.old.items) }
{
    match place_at(place, way, path) {
        Some(at) => read_value(&at, way, read).write(out),
        None => Ok(out.extend_from_slice(b"missing")?),
    }
}
