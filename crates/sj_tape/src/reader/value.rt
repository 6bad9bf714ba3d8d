//! Values, from left to right: each step takes what it reads off the front of the bytes, puts the
//! nodes of it at the end, and answers the bytes that are left.

ghost use Rattle.std.specs.Prelude.{◌≡◌, ◌≢◌, ◌<◌, ◌≤◌, Some, None, [], length, get_or, drop, IfOk, IfErr, OnOk, OnErr, IsUtf8};
ghost use Rattle.sj_text_core.specs.Scalars.{static_tree};
ghost use Rattle.sj_tape.specs.inner.Gives.{EndsUtf8, Gives, GivesItems, GivesMember, GivesMembers, Scans};
ghost use Rattle.sj_tape.specs.Marks.{packed_marks};
ghost use Rattle.sj_text_core.specs.inner.Parse as parse;

use crate::node::Node;
use crate::packed::Packed;
use crate::reader::blank::{byte_at, skip};
use crate::reader::nodes::{count, push_node, set_node};
use crate::reader::number::{read_number, read_short_number};
use crate::reader::structure::{Behind, separator, word_end};
use crate::reader::text::text;
use sj_text_core::{ErrorKind, StaticNode};

/// Reads the string or the number at the front, where no other value begins.
#[inline(always)]
fn text_or_number<'i>(
    rest: &'i mut [u8],
    nodes: &mut Vec<Packed<'i>>,
) -> Result<&'i mut [u8], ErrorKind>
    requires some { 0 < length rest.old }
    requires first { get_or rest.old 0 0 ≤ 57 }
    requires ends { EndsUtf8 rest.old }
    ensures ok { IfOk result (λ r. Gives (parse.value_by parse.nothing_at parse.nothing_at rest.old) r.now (packed_marks nodes.old.items) (packed_marks nodes.new.items)) }
    ensures shorter { IfOk result (λ r. length r.now < length rest.old) }
    ensures ends { IfOk result (λ r. EndsUtf8 r.now) }
    ensures err { IfErr result (λ e. e ≢ ErrorKind.OutOfMemory → parse.value_by parse.nothing_at parse.nothing_at rest.old ≡ None) }
    ensures kind { IfErr result (λ e. e ≢ ErrorKind.InvalidUtf8) }
{
    if rest[0] == b'"' {
        let (_, inside) = rest.split_at_mut(1);
        return text(inside, nodes);
    }
    let Some((number, end)) = read_short_number(rest) else {
        return long_number(rest, nodes);
    };
    push_node(nodes, Node::Static(number))?;
    let (_, rest) = rest.split_at_mut(end);
    Ok(rest)
}

/// Reads the number at the front, of whatever length.
#[inline(never)]
fn any_number<'i>(
    rest: &'i mut [u8],
    nodes: &mut Vec<Packed<'i>>,
) -> Result<&'i mut [u8], ErrorKind>
    requires some { 0 < length rest.old }
    requires first { get_or rest.old 0 0 ≤ 57 }
    requires no_text { get_or rest.old 0 0 ≢ 34 }
    requires ends { EndsUtf8 rest.old }
    ensures ok { IfOk result (λ r. Gives (parse.value_by parse.nothing_at parse.nothing_at rest.old) r.now (packed_marks nodes.old.items) (packed_marks nodes.new.items)) }
    ensures shorter { IfOk result (λ r. length r.now < length rest.old) }
    ensures ends { IfOk result (λ r. EndsUtf8 r.now) }
    ensures err { IfErr result (λ e. e ≢ ErrorKind.OutOfMemory → parse.value_by parse.nothing_at parse.nothing_at rest.old ≡ None) }
    ensures kind { IfErr result (λ e. e ≢ ErrorKind.InvalidUtf8) }
{
    let (number, end) = read_number(rest)?;
    push_node(nodes, Node::Static(number))?;
    let (_, rest) = rest.split_at_mut(end);
    Ok(rest)
}

/// The same, apart from the way of the short ones: what it keeps for the answer is not made there.
#[inline(always)]
fn long_number<'i>(
    rest: &'i mut [u8],
    nodes: &mut Vec<Packed<'i>>,
) -> Result<&'i mut [u8], ErrorKind>
    requires some { 0 < length rest.old }
    requires first { get_or rest.old 0 0 ≤ 57 }
    requires no_text { get_or rest.old 0 0 ≢ 34 }
    requires ends { EndsUtf8 rest.old }
    ensures ok { IfOk result (λ r. Gives (parse.value_by parse.nothing_at parse.nothing_at rest.old) r.now (packed_marks nodes.old.items) (packed_marks nodes.new.items)) }
    ensures shorter { IfOk result (λ r. length r.now < length rest.old) }
    ensures ends { IfOk result (λ r. EndsUtf8 r.now) }
    ensures err { IfErr result (λ e. e ≢ ErrorKind.OutOfMemory → parse.value_by parse.nothing_at parse.nothing_at rest.old ≡ None) }
    ensures kind { IfErr result (λ e. e ≢ ErrorKind.InvalidUtf8) }
{
    let rest = any_number(rest, nodes)?;
    Ok(rest)
}

/// The word at the front, and the place behind it.
#[inline(always)]
fn read_word(bytes: &[u8]) -> Result<(StaticNode, usize), ErrorKind>
    requires some { 0 < length bytes.now }
    requires first { 57 < get_or bytes.now 0 0 }
    requires no_list { get_or bytes.now 0 0 ≢ 91 }
    requires no_object { get_or bytes.now 0 0 ≢ 123 }
    ensures within { IfOk result (λ p. (0 < p.1) × (p.1 ≤ length bytes.now)) }
    ensures ok { IfOk result (λ p. parse.value_by parse.nothing_at parse.nothing_at bytes.now ≡ Some (static_tree p.0, drop p.1 bytes.now)) }
    ensures err { OnErr result (parse.value_by parse.nothing_at parse.nothing_at bytes.now ≡ None) }
    ensures kind { IfErr result (λ e. e ≢ ErrorKind.InvalidUtf8) }
{
    match bytes[0] {
        b'n' => Ok((StaticNode::Null, word_end(bytes, 0, b"null")?)),
        b't' => Ok((StaticNode::Bool(true), word_end(bytes, 0, b"true")?)),
        b'f' => Ok((StaticNode::Bool(false), word_end(bytes, 0, b"false")?)),
        _ => Err(ErrorKind::Syntax),
    }
}

/// Reads the word at the front.
#[inline(never)]
fn any_word<'i>(rest: &'i mut [u8], nodes: &mut Vec<Packed<'i>>) -> Result<&'i mut [u8], ErrorKind>
    requires some { 0 < length rest.old }
    requires first { 57 < get_or rest.old 0 0 }
    requires no_list { get_or rest.old 0 0 ≢ 91 }
    requires no_object { get_or rest.old 0 0 ≢ 123 }
    requires ends { EndsUtf8 rest.old }
    ensures ok { IfOk result (λ r. Gives (parse.value_by parse.nothing_at parse.nothing_at rest.old) r.now (packed_marks nodes.old.items) (packed_marks nodes.new.items)) }
    ensures shorter { IfOk result (λ r. length r.now < length rest.old) }
    ensures ends { IfOk result (λ r. EndsUtf8 r.now) }
    ensures err { IfErr result (λ e. e ≢ ErrorKind.OutOfMemory → parse.value_by parse.nothing_at parse.nothing_at rest.old ≡ None) }
    ensures kind { IfErr result (λ e. e ≢ ErrorKind.InvalidUtf8) }
{
    let (word, end) = read_word(rest)?;
    push_node(nodes, Node::Static(word))?;
    let (_, rest) = rest.split_at_mut(end);
    Ok(rest)
}

/// Reads the value at the front. What each way answers is taken apart and put together, so that it
/// stays in registers where the way is inlined.
#[cycle(read)]
#[inline(always)]
fn value<'i>(
    rest: &'i mut [u8],
    depth: usize,
    nodes: &mut Vec<Packed<'i>>,
) -> Result<&'i mut [u8], ErrorKind>
    requires { EndsUtf8 rest.old }
    ensures ok { IfOk result (λ r. Gives (parse.read_value depth rest.old) r.now (packed_marks nodes.old.items) (packed_marks nodes.new.items)) }
    ensures shorter { IfOk result (λ r. length r.now < length rest.old) }
    ensures ends { IfOk result (λ r. EndsUtf8 r.now) }
    ensures err { IfErr result (λ e. e ≢ ErrorKind.OutOfMemory → parse.read_value depth rest.old ≡ None) }
    ensures kind { IfErr result (λ e. e ≢ ErrorKind.InvalidUtf8) }
{
    if rest.is_empty() {
        return Err(ErrorKind::Syntax);
    }
    let byte = rest[0];
    if byte <= b'9' {
        let left = text_or_number(rest, nodes)?;
        return Ok(left);
    }
    let left = other_value(rest, depth, nodes)?;
    Ok(left)
}

/// Reads the array, the object or the word at the front.
#[cycle(read)]
#[inline(always)]
fn other_value<'i>(
    rest: &'i mut [u8],
    depth: usize,
    nodes: &mut Vec<Packed<'i>>,
) -> Result<&'i mut [u8], ErrorKind>
    requires some { 0 < length rest.old }
    requires first { 57 < get_or rest.old 0 0 }
    requires ends { EndsUtf8 rest.old }
    ensures ok { IfOk result (λ r. Gives (parse.read_value depth rest.old) r.now (packed_marks nodes.old.items) (packed_marks nodes.new.items)) }
    ensures shorter { IfOk result (λ r. length r.now < length rest.old) }
    ensures ends { IfOk result (λ r. EndsUtf8 r.now) }
    ensures err { IfErr result (λ e. e ≢ ErrorKind.OutOfMemory → parse.read_value depth rest.old ≡ None) }
    ensures kind { IfErr result (λ e. e ≢ ErrorKind.InvalidUtf8) }
{
    let byte = rest[0];
    if byte == b'[' {
        if depth == 0 {
            return Err(ErrorKind::TooDeep);
        }
        let (_, inside) = rest.split_at_mut(1);
        let left = array(inside, depth - 1, nodes)?;
        return Ok(left);
    }
    if byte == b'{' {
        if depth == 0 {
            return Err(ErrorKind::TooDeep);
        }
        let (_, inside) = rest.split_at_mut(1);
        let left = object(inside, depth - 1, nodes)?;
        return Ok(left);
    }
    let left = any_word(rest, nodes)?;
    Ok(left)
}

/// Reads an array behind its first bracket.
#[cycle(read)]
#[inline(never)]
fn array<'i>(
    rest: &'i mut [u8],
    depth: usize,
    nodes: &mut Vec<Packed<'i>>,
) -> Result<&'i mut [u8], ErrorKind>
    requires { EndsUtf8 rest.old }
    ensures ok { IfOk result (λ r. Gives (parse.list_at (parse.read_value depth) rest.old) r.now (packed_marks nodes.old.items) (packed_marks nodes.new.items)) }
    ensures shorter { IfOk result (λ r. length r.now < length rest.old) }
    ensures ends { IfOk result (λ r. EndsUtf8 r.now) }
    ensures err { IfErr result (λ e. e ≢ ErrorKind.OutOfMemory → parse.list_at (parse.read_value depth) rest.old ≡ None) }
    ensures kind { IfErr result (λ e. e ≢ ErrorKind.InvalidUtf8) }
{
    let place = count(nodes);
    push_node(nodes, Node::Array { len: 0, count: 0 })?;
    let first = skip(rest, 0);
    if byte_at(rest, first) == b']' {
        let (_, rest) = rest.split_at_mut(first + 1);
        return Ok(rest);
    }
    let (_, inside) = rest.split_at_mut(first);
    let (rest, len) = items(inside, depth, nodes)?;
    let inner = count(nodes) - place - 1;
    set_node(nodes, place, Node::Array { len, count: inner });
    Ok(rest)
}

/// Reads the items of an array, with its last bracket, and answers how many they are, too.
#[cycle(read)]
#[inline(always)]
fn items<'i>(
    bytes: &'i mut [u8],
    depth: usize,
    nodes: &mut Vec<Packed<'i>>,
) -> Result<(&'i mut [u8], usize), ErrorKind>
    requires { EndsUtf8 bytes.old }
    ensures ok { IfOk result (λ p. GivesItems (parse.parts_at 93 (parse.read_value depth) (length bytes.old) bytes.old) p.0.now p.1 (packed_marks nodes.old.items) (packed_marks nodes.new.items)) }
    ensures shorter { IfOk result (λ p. length p.0.now < length bytes.old) }
    ensures ends { IfOk result (λ p. EndsUtf8 p.0.now) }
    ensures err { IfErr result (λ e. e ≢ ErrorKind.OutOfMemory → parse.parts_at 93 (parse.read_value depth) (length bytes.old) bytes.old ≡ None) }
    ensures kind { IfErr result (λ e. e ≢ ErrorKind.InvalidUtf8) }
{
    let mut rest: &'i mut [u8] = bytes;
    let mut len = 0;
    loop {
        let after = value(rest, depth, nodes)?;
        len += 1;
        let stop = separator(after, 0, b']');
        match stop.behind {
            Behind::Comma => {
                let (_, next) = after.split_at_mut(stop.next);
                rest = next;
            }
            Behind::Close => {
                let (_, behind) = after.split_at_mut(stop.next);
                return Ok((behind, len));
            }
            Behind::Other => return Err(ErrorKind::Syntax),
        }
    }
}

/// Reads an object behind its first brace.
#[cycle(read)]
#[inline(never)]
fn object<'i>(
    rest: &'i mut [u8],
    depth: usize,
    nodes: &mut Vec<Packed<'i>>,
) -> Result<&'i mut [u8], ErrorKind>
    requires { EndsUtf8 rest.old }
    ensures ok { IfOk result (λ r. Gives (parse.obj_at (parse.read_value depth) rest.old) r.now (packed_marks nodes.old.items) (packed_marks nodes.new.items)) }
    ensures shorter { IfOk result (λ r. length r.now < length rest.old) }
    ensures ends { IfOk result (λ r. EndsUtf8 r.now) }
    ensures err { IfErr result (λ e. e ≢ ErrorKind.OutOfMemory → parse.obj_at (parse.read_value depth) rest.old ≡ None) }
    ensures kind { IfErr result (λ e. e ≢ ErrorKind.InvalidUtf8) }
{
    let place = count(nodes);
    push_node(nodes, Node::Object { len: 0, count: 0 })?;
    let first = skip(rest, 0);
    if byte_at(rest, first) == b'}' {
        let (_, rest) = rest.split_at_mut(first + 1);
        return Ok(rest);
    }
    let (_, inside) = rest.split_at_mut(first);
    let (rest, len) = members(inside, depth, nodes)?;
    let inner = count(nodes) - place - 1;
    set_node(nodes, place, Node::Object { len, count: inner });
    Ok(rest)
}

/// Reads the members of an object, with its last brace, and answers how many they are, too.
#[cycle(read)]
#[inline(always)]
fn members<'i>(
    bytes: &'i mut [u8],
    depth: usize,
    nodes: &mut Vec<Packed<'i>>,
) -> Result<(&'i mut [u8], usize), ErrorKind>
    requires { EndsUtf8 bytes.old }
    ensures ok { IfOk result (λ p. GivesMembers (parse.parts_at 125 (parse.read_member (parse.read_value depth)) (length bytes.old) bytes.old) p.0.now p.1 (packed_marks nodes.old.items) (packed_marks nodes.new.items)) }
    ensures shorter { IfOk result (λ p. length p.0.now < length bytes.old) }
    ensures ends { IfOk result (λ p. EndsUtf8 p.0.now) }
    ensures err { IfErr result (λ e. e ≢ ErrorKind.OutOfMemory → parse.parts_at 125 (parse.read_member (parse.read_value depth)) (length bytes.old) bytes.old ≡ None) }
    ensures kind { IfErr result (λ e. e ≢ ErrorKind.InvalidUtf8) }
{
    let mut rest: &'i mut [u8] = bytes;
    let mut len = 0;
    loop {
        let after = member(rest, depth, nodes)?;
        len += 1;
        let stop = separator(after, 0, b'}');
        match stop.behind {
            Behind::Comma => {
                let (_, next) = after.split_at_mut(stop.next);
                rest = next;
            }
            Behind::Close => {
                let (_, behind) = after.split_at_mut(stop.next);
                return Ok((behind, len));
            }
            Behind::Other => return Err(ErrorKind::Syntax),
        }
    }
}

/// Reads one member of an object.
#[cycle(read)]
#[inline(always)]
fn member<'i>(
    rest: &'i mut [u8],
    depth: usize,
    nodes: &mut Vec<Packed<'i>>,
) -> Result<&'i mut [u8], ErrorKind>
    requires { EndsUtf8 rest.old }
    ensures ok { IfOk result (λ r. GivesMember (parse.read_member (parse.read_value depth) rest.old) r.now (packed_marks nodes.old.items) (packed_marks nodes.new.items)) }
    ensures shorter { IfOk result (λ r. length r.now < length rest.old) }
    ensures ends { IfOk result (λ r. EndsUtf8 r.now) }
    ensures err { IfErr result (λ e. e ≢ ErrorKind.OutOfMemory → parse.read_member (parse.read_value depth) rest.old ≡ None) }
    ensures kind { IfErr result (λ e. e ≢ ErrorKind.InvalidUtf8) }
{
    if byte_at(rest, 0) != b'"' {
        return Err(ErrorKind::Syntax);
    }
    let (_, inside) = rest.split_at_mut(1);
    let behind = text(inside, nodes)?;
    let colon = skip(behind, 0);
    if byte_at(behind, colon) != b':' {
        return Err(ErrorKind::Syntax);
    }
    let place = skip(behind, colon + 1);
    let (_, next) = behind.split_at_mut(place);
    value(next, depth, nodes)
}

/// Puts the nodes of the one value that the bytes spell.
pub(crate) fn read_tree<'i>(
    bytes: &'i mut [u8],
    depth: usize,
    nodes: &mut Vec<Packed<'i>>,
) -> Result<(), ErrorKind>
    requires utf8 { IsUtf8 bytes.old }
    requires empty { packed_marks nodes.old.items ≡ [] }
    ensures ok { OnOk result (Scans (parse.read_tree depth bytes.old) (packed_marks nodes.new.items)) }
    ensures err { IfErr result (λ e. e ≢ ErrorKind.OutOfMemory → parse.read_tree depth bytes.old ≡ None) }
    ensures kind { IfErr result (λ e. e ≢ ErrorKind.InvalidUtf8) }
{
    let first = skip(bytes, 0);
    let (_, rest) = bytes.split_at_mut(first);
    let left = value(rest, depth, nodes)?;
    if skip(left, 0) < left.len() {
        return Err(ErrorKind::Syntax);
    }
    Ok(())
}
