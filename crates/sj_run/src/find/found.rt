//! What a read finds, lent by the document until it is copied into a reply or written out.

ghost use Rattle.std.specs.Prelude.{◌≡◌, ◌↔◌, ◌+◌, ◌^◌, ◌≤◌, ◌++◌, pos, map, option_map, length, IfOk, OnOk, OnErr, IsErrOf, string_bytes};
ghost use Rattle.std.specs.Fmt.{signed_decimal};
ghost use Rattle.sj_text_core.specs.Print.{quoted};
ghost use Rattle.sj_text_core.specs.Reads.{as_members};
ghost use Rattle.sj_text_core.specs.Tree.{keys_of, members_from};
ghost use Rattle.sj_text_core.specs.inner.Begun.{IsBegunBy};
ghost use Rattle.sj_run.specs.Answers.{IsLong, keys_reply};
ghost use Rattle.sj_run.specs.inner.Found.{found_meant};
ghost use Rattle.sj_run.specs.Meant.{reply_meant};
ghost use Rattle.sj_run.specs.Shown.{kind_name, truth_name, text_array, reply_text};

use super::Place;
use crate::reply::Reply;
use crate::runs::Why;
use sj_print::{BaseGenerator, Level, WriterGenerator};
use sj_text_core::{StaticNode, ValueType, Writable};
use std::alloc::{AllocError, Global};

/// What a read finds.
#[derive(Drop)]
pub(crate) enum Found<'v, P> {
    Kind(ValueType),
    Truth(bool),
    Text(&'v str),
    Count(usize),
    /// The keys, where it is an object.
    Keys(&'v P),
    Print(&'v P),
    Pretty(&'v P),
    NotAString,
    NoLength,
}

/// The name of a kind.
fn kind_text(kind: ValueType) -> &'static str
    ensures { result.now ≡ kind_name kind }
{
    match kind {
        ValueType::Null => "Null",
        ValueType::Bool => "Bool",
        ValueType::I64 => "I64",
        ValueType::U64 => "U64",
        ValueType::I128 => "I128",
        ValueType::U128 => "U128",
        ValueType::String => "String",
        ValueType::Array => "Array",
        ValueType::Object => "Object",
        ValueType::Extended(_) => "",
    }
}

fn truth_text(truth: bool) -> &'static str
    ensures { result.now ≡ truth_name truth }
{
    if truth { "true" } else { "false" }
}

/// Keys, copied, with room at once for so many.
fn keys_copied<P: Place>(
    alloc: Global,
    mut members: P::Members,
    count: usize,
) -> Result<Vec<String>, AllocError>
    ensures { IfOk result (λ keys. map string_bytes keys.items ≡ keys_of (members_from (P.members_left members))) }
{
    let mut copies = Vec::with_capacity(alloc, count)?;
    while let Some((key, _)) = P::next_member(&mut members) {
        copies.push(String::from_str(alloc, P::key_text(&key))?)?;
    }
    Ok(copies)
}

fn put_keys<P: Place, G: BaseGenerator>(
    mut members: P::Members,
    generator: &mut G,
) -> Result<(), AllocError>
    ensures ok { OnOk result (G.written generator.new ≡ G.written generator.old ++ text_array (keys_of (members_from (P.members_left members)))) }
    ensures begun { IsBegunBy (G.written generator.old) (G.written generator.new) }
    ensures sink { G.sink generator.new ≡ G.sink generator.old }
{
    let Some((first, _)) = P::next_member(&mut members) else {
        return generator.write("[]");
    };
    generator.write("[")?;
    generator.write_string(P::key_text(&first))?;
    while let Some((key, _)) = P::next_member(&mut members) {
        generator.write(",")?;
        generator.write_string(P::key_text(&key))?;
    }
    generator.write("]")
}

/// The members, where it is an object.
fn members_of<P: Place>(place: &P) -> Option<P::Members>
    ensures { option_map (λ members. members_from (P.members_left members)) result ≡ as_members (P.tree_of place.now) }
{
    match place.level() {
        Level::Object(members) => Some(members),
        _ => None,
    }
}

/// The reply that has the keys of an object.
fn reply_of_keys<P: Place>(alloc: Global, place: &P) -> Result<Reply, AllocError>
    ensures { IfOk result (λ reply. reply_meant reply ≡ keys_reply (as_members (P.tree_of place.now))) }
{
    match members_of(place) {
        Some(members) => {
            let count = place.len().unwrap_or(0);
            Ok(Reply::Keys(keys_copied::<P>(alloc, members, count)?))
        }
        None => Ok(Reply::NotAnObject),
    }
}

/// Appends the keys of an object as a compact array of texts.
fn write_keys<P: Place>(place: &P, out: &mut Vec<u8>) -> Result<(), AllocError>
    ensures ok { OnOk result (out.new.items ≡ out.old.items ++ reply_text (keys_reply (as_members (P.tree_of place.now)))) }
    ensures err { OnErr result (IsBegunBy out.old.items out.new.items) }
{
    match members_of(place) {
        Some(members) => {
            put_keys::<P, WriterGenerator<'_>>(members, &mut WriterGenerator::new(out))
        }
        None => out.extend_from_slice(b"not an object"),
    }
}

/// Appends a text between quotes, with escapes.
fn write_quoted(text: &str, out: &mut Vec<u8>) -> Result<(), AllocError>
    ensures ok { OnOk result (out.new.items ≡ out.old.items ++ quoted text.now) }
    ensures err { OnErr result (out.new.items ≡ out.old.items) }
{
    WriterGenerator::new(out).write_string(text)
}

/// Appends a number in decimal.
fn write_count(count: usize, out: &mut Vec<u8>) -> Result<(), AllocError>
    ensures ok { OnOk result (out.new.items ≡ out.old.items ++ signed_decimal (pos count)) }
    ensures err { OnErr result (out.new.items ≡ out.old.items) }
{
    WriterGenerator::new(out).write_static(StaticNode::U64(count as u64))
}

impl<'v, P: Place> Found<'v, P> {
    /// The reply, with copies of what it holds.
    pub(crate) fn into_reply(self, alloc: Global) -> Result<Reply, Why>
        ensures ok { IfOk result (λ reply. reply_meant reply ≡ found_meant P.tree_of self.entry) }
        ensures too_long { IsErrOf result Why.TooLong ↔ IsLong (found_meant P.tree_of self.entry) }
    {
        match self {
            Found::Kind(kind) => Ok(Reply::Kind(kind)),
            Found::Truth(truth) => Ok(Reply::Truth(truth)),
            Found::Text(text) => Ok(Reply::Text(String::from_str(alloc, text)?)),
            Found::Count(count) => Ok(Reply::Count(count)),
            Found::Keys(place) => Ok(reply_of_keys(alloc, place)?),
            Found::Print(place) => Ok(Reply::Printed(place.value().encode(alloc)?)),
            Found::Pretty(place) => Ok(Reply::Printed(place.value().encode_pp(alloc)?)),
            Found::NotAString => Ok(Reply::NotAString),
            Found::NoLength => Ok(Reply::NoLength),
        }
    }

    /// Appends the text of the reply.
    pub(crate) fn write(self, out: &mut Vec<u8>) -> Result<(), Why>
        ensures ok { OnOk result (out.new.items ≡ out.old.items ++ reply_text (found_meant P.tree_of self.entry)) }
        ensures err { OnErr result (IsBegunBy out.old.items out.new.items) }
        ensures too_long { IsErrOf result Why.TooLong → 2 ^ 64 ≤ length out.old.items + length (reply_text (found_meant P.tree_of self.entry)) }
    {
        match self {
            Found::Kind(kind) => out.extend_from_slice(kind_text(kind).as_bytes())?,
            Found::Truth(truth) => out.extend_from_slice(truth_text(truth).as_bytes())?,
            Found::Text(text) => write_quoted(text, out)?,
            Found::Count(count) => write_count(count, out)?,
            Found::Keys(place) => write_keys(place, out)?,
            Found::Print(place) => place.value().write(out)?,
            Found::Pretty(place) => place.value().write_pp(out)?,
            Found::NotAString => out.extend_from_slice(b"not a string")?,
            Found::NoLength => out.extend_from_slice(b"no length")?,
        }
        Ok(())
    }
}
