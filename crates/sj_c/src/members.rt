//! Items and members in order, as many at a call as there is room for.

ghost use Rattle.std.specs.Prelude.{◌≡◌, ◌≢◌, ◌⊎◌, ◌-◌, ℕ, List, IsUtf8, Some, None, IfOk, IfErr, IfSome, length, map, min, option_map, option_and_then, string_bytes};
ghost use Rattle.std.specs.List.{slice_get};
ghost use Rattle.sj_text_core.specs.Tree.{Tree, listed, paired};
ghost use Rattle.sj_text_core.specs.Reads.{as_items, as_members};
ghost use Rattle.sj_object.specs.Members.{entry_members};
ghost use Rattle.sj_document.specs.Document.{document_tree};
ghost use Rattle.sj_pointer.specs.Pointed.{pointed};
ghost use Rattle.sj_pointer.specs.Tokens.{tokens_of};
ghost use Rattle.sj_c.specs.Meant.{held_tree};
ghost use Rattle.sj_c.specs.Refusals.{Blames, IsReply};
ghost use Rattle.sj_c.specs.Shown.{Shows, ShowsMember, ShowsFrom};

use crate::doc::Doc;
use crate::finds::show;
use crate::found::{Found, pointer_of};
use crate::lent::start_of;
use crate::status::{EMPTY, MISSING, NOT_AN_ARRAY, NOT_AN_OBJECT, OK};
use sj_document::{Object, OwnedValue};
use sj_path::Pointer;
use sj_path::owned::find;
use std::alloc::Global;

/// A member. To C it is `sj_member`.
#[repr(C)]
#[derive(Drop)]
pub struct Member {
    /// Where the bytes of the key lie.
    pub key: *const u8,
    pub key_len: usize,
    pub value: Found,
}

/// The items of the array at the pointer; refused with a status.
fn items_at<'d>(document: &'d OwnedValue, path: &Pointer) -> Result<&'d Vec<OwnedValue>, u32>
    ensures ok { IfOk result (λ items. option_map listed (option_and_then as_items (pointed path.now (document_tree string_bytes document.now))) ≡ Some (map (document_tree string_bytes) items.now.items)) }
    ensures err { IfErr result (λ code. ((code ≡ MISSING) × (pointed path.now (document_tree string_bytes document.now) ≡ None)) ⊎ ((code ≡ NOT_AN_ARRAY) × (option_and_then as_items (pointed path.now (document_tree string_bytes document.now)) ≡ None))) }
{
    let Some(value) = find(document, path) else {
        return Err(MISSING);
    };
    match value.as_array() {
        Some(items) => Ok(items),
        None => Err(NOT_AN_ARRAY),
    }
}

/// The members of the object at the pointer; refused with a status.
fn members_at<'d>(document: &'d OwnedValue, path: &Pointer) -> Result<&'d Object<String>, u32>
    ensures ok { IfOk result (λ members. option_map paired (option_and_then as_members (pointed path.now (document_tree string_bytes document.now))) ≡ Some (paired (entry_members (document_tree string_bytes) members.now.entries))) }
    ensures err { IfErr result (λ code. ((code ≡ MISSING) × (pointed path.now (document_tree string_bytes document.now) ≡ None)) ⊎ ((code ≡ NOT_AN_OBJECT) × (option_and_then as_members (pointed path.now (document_tree string_bytes document.now)) ≡ None))) }
{
    let Some(value) = find(document, path) else {
        return Err(MISSING);
    };
    match value.as_object() {
        Some(members) => Ok(members),
        None => Err(NOT_AN_OBJECT),
    }
}

/// How many are told, of so many from a position on, where there is room for so many.
fn count_of(len: usize, from: usize, room: usize) -> usize
    ensures { result ≡ min room (len - from) }
{
    room.min(len.saturating_sub(from))
}

/// Says what the items from a position on are, and answers how many that were.
fn show_items(items: &[OwnedValue], from: usize, out: &mut [Found]) -> usize
    ensures count { result ≡ min (length out.old) (length (map (document_tree string_bytes) items.now) - from) }
    ensures len { length out.new ≡ length out.old }
    ensures shown { ShowsFrom Shows from result out.new (map (document_tree string_bytes) items.now) }
{
    let count = count_of(items.len(), from, out.len());
    for at in 0..count {
        show(&items[from + at], &mut out[at]);
    }
    count
}

/// Says what the member at a position is.
fn show_member(members: &Object<String>, index: usize, member: &mut Member)
    ensures { IfSome (slice_get (paired (entry_members (document_tree string_bytes) members.now.entries)) index) (λ p. ShowsMember member.new p) }
{
    match members.get_index(index) {
        Some((key, value)) => {
            let text = key.as_bytes();
            member.key = start_of(text);
            member.key_len = text.len();
            show(value, &mut member.value);
        }
        None => {}
    }
}

/// Says what the members from a position on are, and answers how many that were.
fn show_members(members: &Object<String>, from: usize, out: &mut [Member]) -> usize
    ensures count { result ≡ min (length out.old) (length (paired (entry_members (document_tree string_bytes) members.now.entries)) - from) }
    ensures len { length out.new ≡ length out.old }
    ensures shown { ShowsFrom ShowsMember from result out.new (paired (entry_members (document_tree string_bytes) members.now.entries)) }
{
    let count = count_of(members.len(), from, out.len());
    for at in 0..count {
        show_member(members, from + at, &mut out[at]);
    }
    count
}

/// Says what the items of the array at the pointer are, from a position on.
fn items_into(
    document: &OwnedValue,
    path: &Pointer,
    from: usize,
    out: &mut [Found],
    count: &mut usize,
) -> u32
    ensures items { result ≡ OK → (us : List Tree) × (option_map listed (option_and_then as_items (pointed path.now (document_tree string_bytes document.now))) ≡ Some us) × (count.new ≡ min (length out.old) (length us - from)) × ShowsFrom Shows from count.new out.new us }
    ensures missing { result ≡ MISSING → pointed path.now (document_tree string_bytes document.now) ≡ None }
    ensures kind { result ≡ NOT_AN_ARRAY → option_and_then as_items (pointed path.now (document_tree string_bytes document.now)) ≡ None }
    ensures answers { (result ≡ OK) ⊎ (result ≡ MISSING) ⊎ (result ≡ NOT_AN_ARRAY) }
{
    match items_at(document, path) {
        Ok(items) => {
            *count = show_items(items.as_slice(), from, out);
            OK
        }
        Err(code) => code,
    }
}

/// Says what the members of the object at the pointer are, from a position on.
fn members_into(
    document: &OwnedValue,
    path: &Pointer,
    from: usize,
    out: &mut [Member],
    count: &mut usize,
) -> u32
    ensures members { result ≡ OK → (ps : List (List ℕ × Tree)) × (option_map paired (option_and_then as_members (pointed path.now (document_tree string_bytes document.now))) ≡ Some ps) × (count.new ≡ min (length out.old) (length ps - from)) × ShowsFrom ShowsMember from count.new out.new ps }
    ensures missing { result ≡ MISSING → pointed path.now (document_tree string_bytes document.now) ≡ None }
    ensures kind { result ≡ NOT_AN_OBJECT → option_and_then as_members (pointed path.now (document_tree string_bytes document.now)) ≡ None }
    ensures answers { (result ≡ OK) ⊎ (result ≡ MISSING) ⊎ (result ≡ NOT_AN_OBJECT) }
{
    match members_at(document, path) {
        Ok(members) => {
            *count = show_members(members, from, out);
            OK
        }
        Err(code) => code,
    }
}

/// Says which items stand in the array at a pointer, from a position on, as many as there is room for,
/// and how many that were.
#[unsafe(no_mangle)]
pub extern "C" fn sj_items(
    alloc: Global,
    doc: &mut Doc,
    path: &[u8],
    from: usize,
    out: &mut [Found],
    count: &mut usize,
) -> u32
    ensures items { result ≡ OK → (t : Tree) × (us : List Tree) × (held_tree doc.old.kept.holds ≡ Some t) × (option_map listed (option_and_then as_items (pointed (tokens_of path.now) t)) ≡ Some us) × (count.new ≡ min (length out.old) (length us - from)) × ShowsFrom Shows from count.new out.new us }
    ensures missing { result ≡ MISSING → (t : Tree) × (held_tree doc.old.kept.holds ≡ Some t) × (pointed (tokens_of path.now) t ≡ None) }
    ensures kind { result ≡ NOT_AN_ARRAY → (t : Tree) × (held_tree doc.old.kept.holds ≡ Some t) × (option_and_then as_items (pointed (tokens_of path.now) t) ≡ None) }
    ensures answers { IsReply result → result ≢ OK → (result ≡ MISSING) ⊎ (result ≡ NOT_AN_ARRAY) }
    ensures blames { Blames result (doc.old.kept.holds ≡ None) path.now (¬ (IsUtf8 path.now)) }
    ensures kept { doc.new.kept.holds ≡ doc.old.kept.holds }
{
    let path = match pointer_of(alloc, path) {
        Ok(path) => path,
        Err(code) => return code,
    };
    let Some(held) = doc.take(alloc) else {
        return EMPTY;
    };
    let code = items_into(&held.value, &path, from, out, count);
    doc.put(held);
    code
}

/// Says which members stand in the object at a pointer, in order, from a position on, as many as there
/// is room for, and how many that were.
#[unsafe(no_mangle)]
pub extern "C" fn sj_members(
    alloc: Global,
    doc: &mut Doc,
    path: &[u8],
    from: usize,
    out: &mut [Member],
    count: &mut usize,
) -> u32
    ensures members { result ≡ OK → (t : Tree) × (ps : List (List ℕ × Tree)) × (held_tree doc.old.kept.holds ≡ Some t) × (option_map paired (option_and_then as_members (pointed (tokens_of path.now) t)) ≡ Some ps) × (count.new ≡ min (length out.old) (length ps - from)) × ShowsFrom ShowsMember from count.new out.new ps }
    ensures missing { result ≡ MISSING → (t : Tree) × (held_tree doc.old.kept.holds ≡ Some t) × (pointed (tokens_of path.now) t ≡ None) }
    ensures kind { result ≡ NOT_AN_OBJECT → (t : Tree) × (held_tree doc.old.kept.holds ≡ Some t) × (option_and_then as_members (pointed (tokens_of path.now) t) ≡ None) }
    ensures answers { IsReply result → result ≢ OK → (result ≡ MISSING) ⊎ (result ≡ NOT_AN_OBJECT) }
    ensures blames { Blames result (doc.old.kept.holds ≡ None) path.now (¬ (IsUtf8 path.now)) }
    ensures kept { doc.new.kept.holds ≡ doc.old.kept.holds }
{
    let path = match pointer_of(alloc, path) {
        Ok(path) => path,
        Err(code) => return code,
    };
    let Some(held) = doc.take(alloc) else {
        return EMPTY;
    };
    let code = members_into(&held.value, &path, from, out, count);
    doc.put(held);
    code
}
