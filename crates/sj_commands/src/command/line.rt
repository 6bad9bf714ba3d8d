//! The request of a line, and its command. The line is read to a tape, of whose parts the request
//! has copies: a document is built only of a value that it takes.

ghost use Rattle.std.specs.Prelude.{◌≡◌, IfOk, option_map, unwrap_or, map, string_bytes};
ghost use Rattle.sj_text_core.specs.Tree.{list, items_from};
ghost use Rattle.sj_tape.specs.Value.{tape_part};
ghost use Rattle.sj_tape.specs.Items.{items_parts_ahead};
ghost use Rattle.sj_pointer.specs.Pointed.{path_of};
ghost use Rattle.sj_commands.specs.Commands.{PlainCommand, bad};
ghost use Rattle.sj_commands.specs.CommandLines.{IsCommandOf, command_in as command_in_tree, command_with, command_with_path, command_with_text, command_with_value, command_with_member, path_in as path_in_tree, pointer_in as pointer_in_text, step_in as step_in_tree, steps_in as steps_in_items, width_named as width_of_name};
ghost use Rattle.sj_commands.specs.Meant.{command_meant, request_meant, step_meant, path_meant, width_meant};
ghost use Rattle.sj_commands.specs.inner.Parts.{kept_part, parts_in};

use super::{Command, Step, Width};
use crate::request::{Read, Request, Write};
use sj_document::owned_from_tape;
use sj_pointer::{PointerError, pointer};
use sj_tape::{Array, Buffers, Value, array, to_bare_tape_with_buffers};
use sj_text_core::{ErrorKind, ValueAsScalar};
use std::alloc::{AllocError, Global};

/// For the nodes of how many bytes of a line there is room at once.
const ROOM: usize = 256;

fn width_named(name: &str) -> Option<Width>
    ensures { option_map width_meant result ≡ width_of_name name.now }
{
    match name {
        "i8" => Some(Width::I8),
        "i16" => Some(Width::I16),
        "i32" => Some(Width::I32),
        "i64" => Some(Width::I64),
        "i128" => Some(Width::I128),
        "u8" => Some(Width::U8),
        "u16" => Some(Width::U16),
        "u32" => Some(Width::U32),
        "u64" => Some(Width::U64),
        "u128" => Some(Width::U128),
        "usize" => Some(Width::Usize),
        _ => None,
    }
}

/// A text is a key, a whole number below 2^64 a place.
fn step_in(alloc: Global, value: Value<'_, '_>) -> Result<Option<Step>, AllocError>
    ensures { IfOk result (λ step. option_map step_meant step ≡ step_in_tree (kept_part (tape_part value.entry))) }
{
    if let Some(key) = value.into_string() {
        return Ok(Some(Step::Key(String::from_str(alloc, key)?)));
    }
    match value.as_usize() {
        Some(place) => Ok(Some(Step::Idx(place))),
        None => Ok(None),
    }
}

fn steps_in(alloc: Global, items: Array<'_, '_>) -> Result<Option<Vec<Step>>, AllocError>
    ensures { IfOk result (λ p. option_map (λ steps. path_meant steps.items) p ≡ steps_in_items (items_from (map kept_part (parts_in items.entry)))) }
{
    let mut steps = Vec::with_capacity(alloc, items.len())?;
    for item in items.iter() {
        match step_in(alloc, item)? {
            Some(step) => steps.push(step)?,
            None => return Ok(None),
        }
    }
    Ok(Some(steps))
}

/// The steps of tokens, which move into them.
fn token_steps(alloc: Global, tokens: Vec<String>) -> Result<Vec<Step>, AllocError>
    ensures { IfOk result (λ steps. path_meant steps.items ≡ path_of (map string_bytes tokens.items)) }
{
    let mut steps = Vec::with_capacity(alloc, tokens.len())?;
    for token in tokens {
        steps.push(Step::Token(token))?;
    }
    Ok(steps)
}

/// The path of a text, where it is a pointer.
fn pointer_in(alloc: Global, text: &str) -> Result<Option<Vec<Step>>, AllocError>
    ensures { IfOk result (λ p. option_map (λ steps. path_meant steps.items) p ≡ pointer_in_text text.now) }
{
    match pointer(alloc, text) {
        Ok(pointer) => Ok(Some(token_steps(alloc, pointer.into_tokens())?)),
        Err(PointerError::OutOfMemory) => Err(AllocError),
        Err(PointerError::NoSlash | PointerError::BadTilde) => Ok(None),
    }
}

fn path_in(alloc: Global, value: Value<'_, '_>) -> Result<Option<Vec<Step>>, AllocError>
    ensures { IfOk result (λ p. option_map (λ steps. path_meant steps.items) p ≡ path_in_tree (kept_part (tape_part value.entry))) }
{
    if let Some(text) = value.into_string() {
        return pointer_in(alloc, text);
    }
    match value.as_array() {
        Some(items) => steps_in(alloc, items),
        None => Ok(None),
    }
}

fn with_path(name: &str, path: Vec<Step>) -> Request
    ensures { request_meant result ≡ unwrap_or (command_with_path name.now (path_meant path.items)) bad }
{
    match name {
        "kind" => Request::Read(path, Read::Kind),
        "str" => Request::Read(path, Read::Str),
        "len" => Request::Read(path, Read::Len),
        "keys" => Request::Read(path, Read::Keys),
        "encode" => Request::Read(path, Read::Encode),
        "encode_pp" => Request::Read(path, Read::EncodePp),
        "pop" => Request::Write(path, Write::Pop),
        _ => Request::Bad,
    }
}

fn with_text(alloc: Global, name: &str, path: Vec<Step>, text: &str) -> Result<Request, AllocError>
    ensures { IfOk result (λ request. request_meant request ≡ unwrap_or (command_with_text name.now (path_meant path.items) text.now) bad) }
{
    match name {
        "fits" => match width_named(text) {
            Some(width) => Ok(Request::Read(path, Read::Fits(width))),
            None => Ok(Request::Bad),
        },
        "has" => Ok(Request::Read(path, Read::Has(String::from_str(alloc, text)?))),
        "remove" => Ok(Request::Write(path, Write::Remove(String::from_str(alloc, text)?))),
        _ => Ok(Request::Bad),
    }
}

fn with_value(
    alloc: Global,
    name: &str,
    path: Vec<Step>,
    value: Value<'_, '_>,
) -> Result<Request, AllocError>
    ensures { IfOk result (λ request. request_meant request ≡ unwrap_or (command_with_value name.now (path_meant path.items) (kept_part (tape_part value.entry))) bad) }
{
    match name {
        "push" => Ok(Request::Write(path, Write::Push(owned_from_tape(alloc, value)?))),
        "put" => Ok(Request::Write(path, Write::Put(owned_from_tape(alloc, value)?))),
        _ => match value.into_string() {
            Some(text) => with_text(alloc, name, path, text),
            None => Ok(Request::Bad),
        },
    }
}

fn with_member(
    alloc: Global,
    name: &str,
    path: Vec<Step>,
    key: Value<'_, '_>,
    value: Value<'_, '_>,
) -> Result<Request, AllocError>
    ensures { IfOk result (λ request. request_meant request ≡ unwrap_or (command_with_member name.now (path_meant path.items) (kept_part (tape_part key.entry)) (kept_part (tape_part value.entry))) bad) }
{
    let Some(key) = key.into_string() else {
        return Ok(Request::Bad);
    };
    if name == "insert" {
        let key = String::from_str(alloc, key)?;
        Ok(Request::Write(path, Write::Insert(key, owned_from_tape(alloc, value)?)))
    } else {
        Ok(Request::Bad)
    }
}

/// What a name, a path and the items behind them are.
fn with_items(
    alloc: Global,
    name: &str,
    path: Vec<Step>,
    mut items: array::Iter<'_, '_>,
) -> Result<Request, AllocError>
    ensures { IfOk result (λ request. request_meant request ≡ unwrap_or (command_with name.now (path_meant path.items) (items_from (map kept_part (items_parts_ahead items.entry)))) bad) }
{
    let Some(first) = items.next() else {
        return Ok(with_path(name, path));
    };
    let Some(second) = items.next() else {
        return with_value(alloc, name, path, first);
    };
    match items.next() {
        Some(_) => Ok(Request::Bad),
        None => with_member(alloc, name, path, first, second),
    }
}

fn in_items(alloc: Global, items: Array<'_, '_>) -> Result<Request, AllocError>
    ensures { IfOk result (λ request. request_meant request ≡ command_in_tree (list (items_from (map kept_part (parts_in items.entry))))) }
{
    let mut items = items.iter();
    let Some(first) = items.next() else {
        return Ok(Request::Bad);
    };
    let Some(name) = first.into_string() else {
        return Ok(Request::Bad);
    };
    let Some(steps) = items.next() else {
        return Ok(Request::Bad);
    };
    match path_in(alloc, steps)? {
        Some(path) => with_items(alloc, name, path, items),
        None => Ok(Request::Bad),
    }
}

fn request_in(alloc: Global, value: Value<'_, '_>) -> Result<Request, AllocError>
    ensures { IfOk result (λ request. request_meant request ≡ command_in_tree (kept_part (tape_part value.entry))) }
{
    match value.as_array() {
        Some(items) => in_items(alloc, items),
        None => Ok(Request::Bad),
    }
}

/// For a text of how many bytes a reading of the line is to make room at once. Nothing is asked for
/// in front of the first node of a line that does not begin with `[`, and a list makes a node of
/// its first byte, so no line makes a request more than without.
fn room_of(line: &[u8]) -> usize {
    // Most commands have no more nodes than a fourth of their bytes, and then ask for them once. A
    // shorter line's first node has room for four made, which are no fewer.
    match line.first() {
        Some(b'[') if line.len() >= 16 => 2 * line.len().min(ROOM),
        _ => 0,
    }
}

/// The request of a line: that of the tree which it spells, with the first member of each key kept,
/// and `Bad` where that tree fits no row, or the line is not readable. What is read of the line is
/// the request's own. Refused only where memory is.
pub fn request_of(alloc: Global, line: &mut [u8]) -> Result<Request, AllocError>
    ensures is { IfOk result (λ request. IsCommandOf line.old (request_meant request)) }
    ensures only { IfOk result (λ request. (c : PlainCommand) → IsCommandOf line.old c → c ≡ request_meant request) }
{
    let mut buffers = Buffers::new(alloc, room_of(line))?;
    match to_bare_tape_with_buffers(alloc, line, &mut buffers) {
        Ok(tape) => request_in(alloc, tape.as_value()),
        Err(kind) => {
            if kind == ErrorKind::OutOfMemory {
                return Err(AllocError);
            }
            Ok(Request::Bad)
        }
    }
}

/// The command of a line: that of the tree which it spells, with the first member of each key kept,
/// and `Bad` where that tree fits no row, or the line is not readable. What is read of the line is
/// the command's own. Refused only where memory is.
pub fn command_of(alloc: Global, line: &mut [u8]) -> Result<Command, AllocError>
    ensures is { IfOk result (λ command. IsCommandOf line.old (command_meant command)) }
    ensures only { IfOk result (λ command. (c : PlainCommand) → IsCommandOf line.old c → c ≡ command_meant command) }
{
    let request = request_of(alloc, line)?;
    Ok(Command::from(request))
}
