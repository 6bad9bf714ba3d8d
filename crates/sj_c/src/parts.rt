//! Prints and copies of what stands at a pointer.

ghost use Rattle.std.specs.Prelude.{◌≡◌, ◌≢◌, ◌⊎◌, ◌^◌, ◌≤◌, IsUtf8, Some, None, length, string_bytes};
ghost use Rattle.sj_text_core.specs.Tree.{Tree};
ghost use Rattle.sj_document.specs.Document.{document_tree};
ghost use Rattle.sj_pointer.specs.Pointed.{pointed};
ghost use Rattle.sj_pointer.specs.Tokens.{tokens_of};
ghost use Rattle.sj_c.specs.Meant.{held_tree, print_of, print_by};
ghost use Rattle.sj_c.specs.Refusals.{Blames, IsReply};

use crate::doc::Doc;
use crate::documents::copy_into;
use crate::found::pointer_of;
use crate::prints::{hold_print, printed};
use crate::status::{EMPTY, MISSING, OK, OUT_OF_MEMORY, TOO_LONG, code_of_write};
use crate::text::Text;
use sj_document::OwnedValue;
use sj_path::Pointer;
use sj_path::owned::find;
use std::alloc::Global;

/// Prints what stands at the pointer into the handle of a print. Refused, that keeps what it had.
#[unsafe(no_mangle)]
pub extern "C" fn sj_print_at(
    alloc: Global,
    doc: &mut Doc,
    path: &[u8],
    text: &mut Text,
    is_pretty: bool,
) -> u32
    ensures printed { result ≡ OK → (t : Tree) × (u : Tree) × (held_tree doc.old.kept.holds ≡ Some t) × (pointed (tokens_of path.now) t ≡ Some u) × (print_of text.new.kept.holds ≡ Some (print_by is_pretty u)) }
    ensures missing { result ≡ MISSING → (t : Tree) × (held_tree doc.old.kept.holds ≡ Some t) × (pointed (tokens_of path.now) t ≡ None) }
    ensures too_long { result ≡ TOO_LONG → (t : Tree) × (u : Tree) × (held_tree doc.old.kept.holds ≡ Some t) × (pointed (tokens_of path.now) t ≡ Some u) × (2 ^ 64 ≤ length (print_by is_pretty u)) }
    ensures answers { IsReply result → result ≢ OK → (result ≡ MISSING) ⊎ (result ≡ TOO_LONG) }
    ensures blames { Blames result (doc.old.kept.holds ≡ None) path.now (¬ (IsUtf8 path.now)) }
    ensures text_kept { result ≢ OK → text.new.kept.holds ≡ text.old.kept.holds }
    ensures kept { doc.new.kept.holds ≡ doc.old.kept.holds }
{
    let path = match pointer_of(alloc, path) {
        Ok(path) => path,
        Err(code) => return code,
    };
    let Some(held) = doc.take(alloc) else {
        return EMPTY;
    };
    let code = match find(&held.value, &path) {
        Some(value) => match printed(alloc, value, is_pretty) {
            Ok(bytes) => hold_print(alloc, text, bytes),
            Err(error) => code_of_write(error),
        },
        None => MISSING,
    };
    doc.put(held);
    code
}

/// Copies what stands at the pointer in the value into the handle.
fn part_into(alloc: Global, value: &OwnedValue, path: &Pointer, copy: &mut Doc) -> u32
    ensures copied { result ≡ OK → (u : Tree) × (pointed path.now (document_tree string_bytes value.now) ≡ Some u) × (held_tree copy.new.kept.holds ≡ Some u) }
    ensures missing { result ≡ MISSING → pointed path.now (document_tree string_bytes value.now) ≡ None }
    ensures answers { (result ≡ OK) ⊎ (result ≡ OUT_OF_MEMORY) ⊎ (result ≡ MISSING) }
    ensures err { result ≢ OK → copy.new.kept.holds ≡ copy.old.kept.holds }
{
    match find(value, path) {
        Some(value) => copy_into(alloc, value, copy),
        None => MISSING,
    }
}

/// Copies what stands at the pointer into another handle. Refused, that keeps what it had.
#[unsafe(no_mangle)]
pub extern "C" fn sj_clone_at(alloc: Global, doc: &mut Doc, path: &[u8], copy: &mut Doc) -> u32
    ensures copied { result ≡ OK → (t : Tree) × (u : Tree) × (held_tree doc.old.kept.holds ≡ Some t) × (pointed (tokens_of path.now) t ≡ Some u) × (held_tree copy.new.kept.holds ≡ Some u) }
    ensures missing { result ≡ MISSING → (t : Tree) × (held_tree doc.old.kept.holds ≡ Some t) × (pointed (tokens_of path.now) t ≡ None) }
    ensures answers { IsReply result → result ≢ OK → result ≡ MISSING }
    ensures blames { Blames result (doc.old.kept.holds ≡ None) path.now (¬ (IsUtf8 path.now)) }
    ensures err { result ≢ OK → copy.new.kept.holds ≡ copy.old.kept.holds }
    ensures kept { doc.new.kept.holds ≡ doc.old.kept.holds }
{
    let path = match pointer_of(alloc, path) {
        Ok(path) => path,
        Err(code) => return code,
    };
    let Some(held) = doc.take(alloc) else {
        return EMPTY;
    };
    let code = part_into(alloc, &held.value, &path, copy);
    doc.put(held);
    code
}
