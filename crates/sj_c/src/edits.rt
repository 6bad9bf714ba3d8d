//! Edits of the documents of handles.

ghost use Rattle.std.specs.Prelude.{◌≡◌, ◌≢◌, ◌⊎◌, IsUtf8, None, Some, IsSome, IfOk, IfErr, option_map, option_and_then, string_bytes};
ghost use Rattle.sj_text_core.specs.Tree.{Tree};
ghost use Rattle.sj_text_core.specs.Find.{find};
ghost use Rattle.sj_text_core.specs.Reads.{as_items, as_members};
ghost use Rattle.sj_document.specs.Document.{document_tree, with_member, without_member, with_item, without_last, last_item};
ghost use Rattle.sj_pointer.specs.Pointed.{pointed, set_pointed};
ghost use Rattle.sj_pointer.specs.Tokens.{tokens_of};
ghost use Rattle.sj_path.specs.Changes.{changed_at};
ghost use Rattle.sj_path.specs.Made.{set_made};
ghost use Rattle.sj_c.specs.Meant.{held_tree};
ghost use Rattle.sj_c.specs.Edits.{or_before, given, value_before, left, value_taken, IsGiven, IsNotGiven, IsTaken, IsNotTaken};
ghost use Rattle.sj_c.specs.Refusals.{Blames, IsReply};

use crate::doc::Doc;
use crate::edit::{Giving, Taking, give_at, take_at};
use crate::found::pointer_of;
use crate::held::Held;
use crate::status::{
    BAD_ARGUMENT, BAD_POINTER, EMPTY, MISSING, NOT_AN_ARRAY, NOT_AN_OBJECT, OK, OUT_OF_MEMORY,
};
use sj_document::OwnedValue;
use sj_path::Pointer;
use std::alloc::Global;
use std::mem::replace;

/// A key read; refused with a status.
fn key_of(alloc: Global, key: &[u8]) -> Result<String, u32>
    ensures ok { IfOk result (λ text. string_bytes text ≡ key.now) }
    ensures err { IfErr result (λ code. code ≢ OK) }
    ensures refused { IfErr result (λ code. ¬ (IsReply code)) }
    ensures blames { IfErr result (λ code. (code ≢ EMPTY) × (code ≢ BAD_POINTER) × (code ≡ BAD_ARGUMENT → ¬ (IsUtf8 key.now))) }
{
    let Ok(key) = std::str::from_utf8(key) else {
        return Err(BAD_ARGUMENT);
    };
    match String::from_str(alloc, key) {
        Ok(key) => Ok(key),
        Err(_) => Err(OUT_OF_MEMORY),
    }
}

/// Puts the value that was there into its handle, in the block at hand, and lets go what that had.
fn hand_out(alloc: Global, room: Box<Held>, before: Option<OwnedValue>, old: &mut Doc)
    ensures { held_tree old.new.kept.holds ≡ or_before (option_map (document_tree string_bytes) before) (held_tree old.old.kept.holds) }
{
    let mut room = room;
    if let Some(before) = before {
        room.value = before;
        drop(old.take(alloc));
        old.put(room);
    }
}

/// Gives the value of a handle to where the pointer leads, and puts what was there into `old`, in the
/// block of the value. Refused, all stay as they were.
fn give_to(
    alloc: Global,
    doc: &mut Doc,
    path: &Pointer,
    giving: Giving,
    value: &mut Doc,
    old: &mut Doc,
) -> u32
    ensures done { result ≡ OK → (t : Tree) × (v : Tree) × (held_tree doc.old.kept.holds ≡ Some t) × (held_tree value.old.kept.holds ≡ Some v) × IsGiven giving path.now v t × (held_tree doc.new.kept.holds ≡ given giving path.now v t) × (held_tree old.new.kept.holds ≡ or_before (value_before giving path.now t) (held_tree old.old.kept.holds)) }
    ensures kind { IsReply result → result ≢ OK → (t : Tree) × (v : Tree) × (held_tree doc.old.kept.holds ≡ Some t) × (held_tree value.old.kept.holds ≡ Some v) × IsNotGiven giving path.now v t result }
    ensures empty { result ≡ EMPTY → (doc.old.kept.holds ≡ None) ⊎ (value.old.kept.holds ≡ None) }
    ensures texts { (result ≢ BAD_POINTER) × (result ≢ BAD_ARGUMENT) }
    ensures given { result ≡ OK → value.new.kept.holds ≡ None }
    ensures refused { result ≢ OK → held_tree doc.new.kept.holds ≡ held_tree doc.old.kept.holds }
    ensures back { result ≢ OK → value.new.kept.holds ≡ value.old.kept.holds }
    ensures old { result ≢ OK → old.new.kept.holds ≡ old.old.kept.holds }
{
    let Some(mut held) = doc.take(alloc) else {
        return EMPTY;
    };
    let Some(mut room) = value.take(alloc) else {
        doc.put(held);
        return EMPTY;
    };
    let new = replace(&mut room.value, OwnedValue::null());
    match give_at(alloc, &mut held.value, path, giving, new) {
        Ok(before) => {
            doc.put(held);
            hand_out(alloc, room, before, old);
            OK
        }
        Err(refused) => {
            doc.put(held);
            room.value = refused.value;
            value.put(room);
            refused.why
        }
    }
}

/// Takes out of the document, and puts what is taken into `old`. Refused, all stay as they were.
fn take_from(alloc: Global, doc: &mut Doc, path: &Pointer, taking: Taking, old: &mut Doc) -> u32
    ensures done { result ≡ OK → (t : Tree) × (held_tree doc.old.kept.holds ≡ Some t) × IsTaken taking path.now t × (held_tree doc.new.kept.holds ≡ Some (left taking path.now t)) × (held_tree old.new.kept.holds ≡ or_before (value_taken taking path.now t) (held_tree old.old.kept.holds)) }
    ensures kind { IsReply result → result ≢ OK → (t : Tree) × (held_tree doc.old.kept.holds ≡ Some t) × IsNotTaken taking path.now t result }
    ensures empty { result ≡ EMPTY → doc.old.kept.holds ≡ None }
    ensures texts { (result ≢ BAD_POINTER) × (result ≢ BAD_ARGUMENT) }
    ensures refused { result ≢ OK → held_tree doc.new.kept.holds ≡ held_tree doc.old.kept.holds }
    ensures old { result ≢ OK → old.new.kept.holds ≡ old.old.kept.holds }
{
    let value = OwnedValue::null();
    let Ok(room) = Box::new(alloc, Held { value }) else {
        return OUT_OF_MEMORY;
    };
    let Some(mut held) = doc.take(alloc) else {
        return EMPTY;
    };
    let taken = take_at(&mut held.value, path, taking);
    doc.put(held);
    match taken {
        Ok(before) => {
            hand_out(alloc, room, before, old);
            OK
        }
        Err(code) => code,
    }
}

/// Sets the value of the key of the object at the pointer. A key that is there keeps its place, and
/// its value goes to `old`; a new one goes last. Done, the value's handle has none; refused, all stay.
#[unsafe(no_mangle)]
pub extern "C" fn sj_insert(
    alloc: Global,
    doc: &mut Doc,
    path: &[u8],
    key: &[u8],
    value: &mut Doc,
    old: &mut Doc,
) -> u32
    ensures done { result ≡ OK → (t : Tree) × (v : Tree) × (held_tree doc.old.kept.holds ≡ Some t) × (held_tree value.old.kept.holds ≡ Some v) × IsSome (option_and_then as_members (pointed (tokens_of path.now) t)) × (held_tree doc.new.kept.holds ≡ Some (changed_at (tokens_of path.now) (with_member key.now v) t)) × (held_tree old.new.kept.holds ≡ or_before (option_and_then (find key.now) (pointed (tokens_of path.now) t)) (held_tree old.old.kept.holds)) }
    ensures kind { IsReply result → result ≢ OK → (result ≡ NOT_AN_OBJECT) × ((t : Tree) × (held_tree doc.old.kept.holds ≡ Some t) × (option_and_then as_members (pointed (tokens_of path.now) t) ≡ None)) }
    ensures blames { Blames result ((doc.old.kept.holds ≡ None) ⊎ (value.old.kept.holds ≡ None)) path.now (¬ (IsUtf8 path.now) ⊎ ¬ (IsUtf8 key.now)) }
    ensures given { result ≡ OK → value.new.kept.holds ≡ None }
    ensures refused { result ≢ OK → held_tree doc.new.kept.holds ≡ held_tree doc.old.kept.holds }
    ensures back { result ≢ OK → value.new.kept.holds ≡ value.old.kept.holds }
    ensures old { result ≢ OK → old.new.kept.holds ≡ old.old.kept.holds }
{
    let path = match pointer_of(alloc, path) {
        Ok(path) => path,
        Err(code) => return code,
    };
    let key = match key_of(alloc, key) {
        Ok(key) => key,
        Err(code) => return code,
    };
    give_to(alloc, doc, &path, Giving::Insert(key), value, old)
}

/// Puts the value behind the items of the array at the pointer. Done, the value's handle has none;
/// refused, all stay.
#[unsafe(no_mangle)]
pub extern "C" fn sj_push(
    alloc: Global,
    doc: &mut Doc,
    path: &[u8],
    value: &mut Doc,
    old: &mut Doc,
) -> u32
    ensures done { result ≡ OK → (t : Tree) × (v : Tree) × (held_tree doc.old.kept.holds ≡ Some t) × (held_tree value.old.kept.holds ≡ Some v) × IsSome (option_and_then as_items (pointed (tokens_of path.now) t)) × (held_tree doc.new.kept.holds ≡ Some (changed_at (tokens_of path.now) (with_item v) t)) × (held_tree old.new.kept.holds ≡ held_tree old.old.kept.holds) }
    ensures kind { IsReply result → result ≢ OK → (result ≡ NOT_AN_ARRAY) × ((t : Tree) × (held_tree doc.old.kept.holds ≡ Some t) × (option_and_then as_items (pointed (tokens_of path.now) t) ≡ None)) }
    ensures blames { Blames result ((doc.old.kept.holds ≡ None) ⊎ (value.old.kept.holds ≡ None)) path.now (¬ (IsUtf8 path.now)) }
    ensures given { result ≡ OK → value.new.kept.holds ≡ None }
    ensures refused { result ≢ OK → held_tree doc.new.kept.holds ≡ held_tree doc.old.kept.holds }
    ensures back { result ≢ OK → value.new.kept.holds ≡ value.old.kept.holds }
    ensures old { result ≢ OK → old.new.kept.holds ≡ old.old.kept.holds }
{
    let path = match pointer_of(alloc, path) {
        Ok(path) => path,
        Err(code) => return code,
    };
    give_to(alloc, doc, &path, Giving::Push, value, old)
}

/// Puts the value in the place of what stands at the pointer, which goes to `old`. Done, the value's
/// handle has none; refused, all stay.
#[unsafe(no_mangle)]
pub extern "C" fn sj_put(
    alloc: Global,
    doc: &mut Doc,
    path: &[u8],
    value: &mut Doc,
    old: &mut Doc,
) -> u32
    ensures done { result ≡ OK → (t : Tree) × (v : Tree) × (held_tree doc.old.kept.holds ≡ Some t) × (held_tree value.old.kept.holds ≡ Some v) × (held_tree doc.new.kept.holds ≡ Some (set_pointed (tokens_of path.now) v t)) × ((u : Tree) × (pointed (tokens_of path.now) t ≡ Some u) × (held_tree old.new.kept.holds ≡ Some u)) }
    ensures kind { IsReply result → result ≢ OK → (result ≡ MISSING) × ((t : Tree) × (held_tree doc.old.kept.holds ≡ Some t) × (pointed (tokens_of path.now) t ≡ None)) }
    ensures blames { Blames result ((doc.old.kept.holds ≡ None) ⊎ (value.old.kept.holds ≡ None)) path.now (¬ (IsUtf8 path.now)) }
    ensures given { result ≡ OK → value.new.kept.holds ≡ None }
    ensures refused { result ≢ OK → held_tree doc.new.kept.holds ≡ held_tree doc.old.kept.holds }
    ensures back { result ≢ OK → value.new.kept.holds ≡ value.old.kept.holds }
    ensures old { result ≢ OK → old.new.kept.holds ≡ old.old.kept.holds }
{
    let path = match pointer_of(alloc, path) {
        Ok(path) => path,
        Err(code) => return code,
    };
    give_to(alloc, doc, &path, Giving::Put, value, old)
}

/// Sets what the pointer leads to, and makes the objects that are missing on the way; what stood there
/// goes to `old`. Where a token finds nothing in an array, or meets a scalar, it is refused as
/// `NOT_AN_OBJECT`. Done, the value's handle has none; refused, all stay.
#[unsafe(no_mangle)]
pub extern "C" fn sj_set(
    alloc: Global,
    doc: &mut Doc,
    path: &[u8],
    value: &mut Doc,
    old: &mut Doc,
) -> u32
    ensures done { result ≡ OK → (t : Tree) × (v : Tree) × (held_tree doc.old.kept.holds ≡ Some t) × (held_tree value.old.kept.holds ≡ Some v) × IsSome (set_made (tokens_of path.now) v t) × (held_tree doc.new.kept.holds ≡ set_made (tokens_of path.now) v t) × (held_tree old.new.kept.holds ≡ or_before (pointed (tokens_of path.now) t) (held_tree old.old.kept.holds)) }
    ensures kind { IsReply result → result ≢ OK → (result ≡ NOT_AN_OBJECT) × ((t : Tree) × (v : Tree) × (held_tree doc.old.kept.holds ≡ Some t) × (held_tree value.old.kept.holds ≡ Some v) × (set_made (tokens_of path.now) v t ≡ None)) }
    ensures blames { Blames result ((doc.old.kept.holds ≡ None) ⊎ (value.old.kept.holds ≡ None)) path.now (¬ (IsUtf8 path.now)) }
    ensures given { result ≡ OK → value.new.kept.holds ≡ None }
    ensures refused { result ≢ OK → held_tree doc.new.kept.holds ≡ held_tree doc.old.kept.holds }
    ensures back { result ≢ OK → value.new.kept.holds ≡ value.old.kept.holds }
    ensures old { result ≢ OK → old.new.kept.holds ≡ old.old.kept.holds }
{
    let path = match pointer_of(alloc, path) {
        Ok(path) => path,
        Err(code) => return code,
    };
    give_to(alloc, doc, &path, Giving::Set, value, old)
}

/// Takes the member of the key out of the object at the pointer; its value goes to `old`. Where there
/// is no such key, all stay.
#[unsafe(no_mangle)]
pub extern "C" fn sj_remove(
    alloc: Global,
    doc: &mut Doc,
    path: &[u8],
    key: &[u8],
    old: &mut Doc,
) -> u32
    ensures done { result ≡ OK → (t : Tree) × (held_tree doc.old.kept.holds ≡ Some t) × IsSome (option_and_then as_members (pointed (tokens_of path.now) t)) × (held_tree doc.new.kept.holds ≡ Some (changed_at (tokens_of path.now) (without_member key.now) t)) × (held_tree old.new.kept.holds ≡ or_before (option_and_then (find key.now) (pointed (tokens_of path.now) t)) (held_tree old.old.kept.holds)) }
    ensures kind { IsReply result → result ≢ OK → (result ≡ NOT_AN_OBJECT) × ((t : Tree) × (held_tree doc.old.kept.holds ≡ Some t) × (option_and_then as_members (pointed (tokens_of path.now) t) ≡ None)) }
    ensures blames { Blames result (doc.old.kept.holds ≡ None) path.now (¬ (IsUtf8 path.now) ⊎ ¬ (IsUtf8 key.now)) }
    ensures refused { result ≢ OK → held_tree doc.new.kept.holds ≡ held_tree doc.old.kept.holds }
    ensures old { result ≢ OK → old.new.kept.holds ≡ old.old.kept.holds }
{
    let path = match pointer_of(alloc, path) {
        Ok(path) => path,
        Err(code) => return code,
    };
    let key = match key_of(alloc, key) {
        Ok(key) => key,
        Err(code) => return code,
    };
    take_from(alloc, doc, &path, Taking::Remove(key), old)
}

/// Takes the last item of the array at the pointer, which goes to `old`. Where there is none, all stay.
#[unsafe(no_mangle)]
pub extern "C" fn sj_pop(alloc: Global, doc: &mut Doc, path: &[u8], old: &mut Doc) -> u32
    ensures done { result ≡ OK → (t : Tree) × (held_tree doc.old.kept.holds ≡ Some t) × IsSome (option_and_then as_items (pointed (tokens_of path.now) t)) × (held_tree doc.new.kept.holds ≡ Some (changed_at (tokens_of path.now) without_last t)) × (held_tree old.new.kept.holds ≡ or_before (option_and_then last_item (pointed (tokens_of path.now) t)) (held_tree old.old.kept.holds)) }
    ensures kind { IsReply result → result ≢ OK → (result ≡ NOT_AN_ARRAY) × ((t : Tree) × (held_tree doc.old.kept.holds ≡ Some t) × (option_and_then as_items (pointed (tokens_of path.now) t) ≡ None)) }
    ensures blames { Blames result (doc.old.kept.holds ≡ None) path.now (¬ (IsUtf8 path.now)) }
    ensures refused { result ≢ OK → held_tree doc.new.kept.holds ≡ held_tree doc.old.kept.holds }
    ensures old { result ≢ OK → old.new.kept.holds ≡ old.old.kept.holds }
{
    let path = match pointer_of(alloc, path) {
        Ok(path) => path,
        Err(code) => return code,
    };
    take_from(alloc, doc, &path, Taking::Pop, old)
}
