//! Reads at a pointer.

ghost use Rattle.std.specs.Prelude.{◌≡◌, ◌≢◌, ◌⊎◌, IsUtf8, Some, None, length, IfSome, string_bytes};
ghost use Rattle.sj_text_core.specs.Tree.{Tree, items_len, members_len};
ghost use Rattle.sj_text_core.specs.Reads.{as_text, as_items, as_members};
ghost use Rattle.sj_pointer.specs.Pointed.{pointed};
ghost use Rattle.sj_pointer.specs.Tokens.{tokens_of};
ghost use Rattle.sj_document.specs.Document.{document_tree};
ghost use Rattle.sj_c.specs.Meant.{held_tree};
ghost use Rattle.sj_c.specs.Refusals.{Blames, IsReply};
ghost use Rattle.sj_c.specs.Shown.{Shows};

use crate::doc::Doc;
use crate::found::{Found, pointer_of, tell};
use crate::status::{EMPTY, MISSING, OK};
use sj_document::OwnedValue;
use sj_path::Pointer;
use sj_path::owned::find;
use std::alloc::Global;

/// How many items or members; the bytes of a text.
fn len_of(value: &OwnedValue) -> usize
    ensures text { IfSome (as_text (document_tree string_bytes value.now)) (λ s. result ≡ length s) }
    ensures items { IfSome (as_items (document_tree string_bytes value.now)) (λ is. result ≡ items_len is) }
    ensures members { IfSome (as_members (document_tree string_bytes value.now)) (λ ms. result ≡ members_len ms) }
{
    match value {
        OwnedValue::String(text) => text.len(),
        OwnedValue::Array(items) => items.len(),
        OwnedValue::Object(members) => members.len(),
        OwnedValue::Static(_) => 0,
    }
}

/// Writes out what the value is.
pub fn show(value: &OwnedValue, found: &mut Found)
    ensures { Shows found.new (document_tree string_bytes value.now) }
{
    tell(value, found);
    found.len = len_of(value);
}

/// Says what stands at the pointer in the document.
fn show_at(document: &OwnedValue, path: &Pointer, found: &mut Found) -> u32
    ensures ok { result ≡ OK → (u : Tree) × (pointed path.now (document_tree string_bytes document.now) ≡ Some u) × Shows found.new u }
    ensures missing { result ≡ MISSING → pointed path.now (document_tree string_bytes document.now) ≡ None }
    ensures either { (result ≡ OK) ⊎ (result ≡ MISSING) }
{
    match find(document, path) {
        Some(value) => {
            show(value, found);
            OK
        }
        None => MISSING,
    }
}

// Why so: docs/REFUSED.md, "Reads take a handle as `&mut`".
/// Says what stands at a pointer (RFC 6901). Where nothing does, it answers `MISSING`.
#[unsafe(no_mangle)]
pub extern "C" fn sj_find(alloc: Global, doc: &mut Doc, path: &[u8], found: &mut Found) -> u32
    ensures ok { result ≡ OK → (t : Tree) × (u : Tree) × (held_tree doc.old.kept.holds ≡ Some t) × (pointed (tokens_of path.now) t ≡ Some u) × Shows found.new u }
    ensures missing { result ≡ MISSING → (t : Tree) × (held_tree doc.old.kept.holds ≡ Some t) × (pointed (tokens_of path.now) t ≡ None) }
    ensures answers { IsReply result → result ≢ OK → result ≡ MISSING }
    ensures blames { Blames result (doc.old.kept.holds ≡ None) path.now (¬ (IsUtf8 path.now)) }
    ensures kept { doc.new.kept.holds ≡ doc.old.kept.holds }
{
    let path = match pointer_of(alloc, path) {
        Ok(path) => path,
        Err(code) => return code,
    };
    let Some(held) = doc.take(alloc) else {
        return EMPTY;
    };
    let code = show_at(&held.value, &path, found);
    doc.put(held);
    code
}
