//! Whole documents: read, copied, let go.

ghost use Rattle.std.specs.Prelude.{◌≡◌, ◌≢◌, ◌↔◌, IsUtf8, Some, None, string_bytes};
ghost use Rattle.sj_text_core.specs.Tree.{Tree, IsWithin};
ghost use Rattle.sj_text_core.specs.Grammar.{Spells, IsReadable};
ghost use Rattle.sj_text_core.specs.Keep.{keep};
ghost use Rattle.sj_text_core.specs.Repeats.{keep_by};
ghost use Rattle.sj_document.specs.Document.{document_tree};
ghost use Rattle.sj_c.specs.Meant.{held_tree, choice};

use crate::doc::Doc;
use crate::held::Held;
use crate::status::{EMPTY, INVALID_UTF8, OK, OUT_OF_MEMORY, choice_of, code_of_kind};
use sj_document::OwnedValue;
use sj_owned::{Buffers, to_value_repeats, to_value_with_buffers};
use std::alloc::Global;

/// Puts the document into the handle, and lets go what it had.
pub fn hold(alloc: Global, doc: &mut Doc, value: OwnedValue) -> u32
    ensures either { result ≢ OK → result ≡ OUT_OF_MEMORY }
    ensures ok { result ≡ OK → doc.new.kept.holds ≡ Some (record { value = value }) }
    ensures err { result ≢ OK → doc.new.kept.holds ≡ doc.old.kept.holds }
{
    match Box::new(alloc, Held { value }) {
        Ok(held) => {
            drop(doc.take(alloc));
            doc.put(held);
            OK
        }
        Err(_) => OUT_OF_MEMORY,
    }
}

/// Reads one text (RFC 8259 without fractions and exponents) into the handle, and lets go what it
/// had. The bytes are written over. Refused, the handle keeps what it had.
#[unsafe(no_mangle)]
pub extern "C" fn sj_read(alloc: Global, doc: &mut Doc, bytes: &mut [u8], last: bool) -> u32
    ensures means { result ≡ OK → (t : Tree) × Spells bytes.old t × IsWithin t × (held_tree doc.new.kept.holds ≡ Some (keep_by (choice last) t)) }
    ensures only { result ≡ OK → (u : Tree) → Spells bytes.old u → held_tree doc.new.kept.holds ≡ Some (keep_by (choice last) u) }
    ensures utf8 { (result ≡ INVALID_UTF8) ↔ ¬ (IsUtf8 bytes.old) }
    ensures err { result ≢ OK → result ≢ INVALID_UTF8 → result ≢ OUT_OF_MEMORY → ¬ (IsReadable bytes.old) }
    ensures kept { result ≢ OK → doc.new.kept.holds ≡ doc.old.kept.holds }
{
    match to_value_repeats(alloc, bytes, choice_of(last)) {
        Ok(value) => hold(alloc, doc, value),
        Err(kind) => code_of_kind(kind),
    }
}

/// Reads as `sj_read` does where the first member of each key counts, with room at once for as many
/// nodes as the largest text had that was read with the buffers. These can be used again whatever is
/// answered.
#[unsafe(no_mangle)]
pub extern "C" fn sj_read_with_buffers(
    alloc: Global,
    doc: &mut Doc,
    bytes: &mut [u8],
    buffers: &mut Buffers,
) -> u32
    ensures means { result ≡ OK → (t : Tree) × Spells bytes.old t × IsWithin t × (held_tree doc.new.kept.holds ≡ Some (keep t)) }
    ensures only { result ≡ OK → (u : Tree) → Spells bytes.old u → held_tree doc.new.kept.holds ≡ Some (keep u) }
    ensures utf8 { (result ≡ INVALID_UTF8) ↔ ¬ (IsUtf8 bytes.old) }
    ensures err { result ≢ OK → result ≢ INVALID_UTF8 → result ≢ OUT_OF_MEMORY → ¬ (IsReadable bytes.old) }
    ensures kept { result ≢ OK → doc.new.kept.holds ≡ doc.old.kept.holds }
{
    match to_value_with_buffers(alloc, bytes, buffers) {
        Ok(value) => hold(alloc, doc, value),
        Err(why) => code_of_kind(why),
    }
}

/// Lets the document go. The handle has none then.
#[unsafe(no_mangle)]
pub extern "C" fn sj_free(alloc: Global, doc: &mut Doc)
    ensures { doc.new.kept.holds ≡ None }
{
    drop(doc.take(alloc));
}

/// Copies the value into the handle, and lets go what it had.
pub fn copy_into(alloc: Global, value: &OwnedValue, copy: &mut Doc) -> u32
    ensures either { result ≢ OK → result ≡ OUT_OF_MEMORY }
    ensures ok { result ≡ OK → held_tree copy.new.kept.holds ≡ Some (document_tree string_bytes value.now) }
    ensures err { result ≢ OK → copy.new.kept.holds ≡ copy.old.kept.holds }
{
    match value.clone() {
        Ok(value) => hold(alloc, copy, value),
        Err(_) => OUT_OF_MEMORY,
    }
}

/// Copies the document into another handle, and lets go what that had. Refused, it keeps it.
#[unsafe(no_mangle)]
pub extern "C" fn sj_clone(alloc: Global, doc: &mut Doc, copy: &mut Doc) -> u32
    ensures ok { result ≡ OK → held_tree copy.new.kept.holds ≡ held_tree doc.old.kept.holds }
    ensures empty { (result ≡ EMPTY) ↔ (doc.old.kept.holds ≡ None) }
    ensures answers { result ≢ OK → result ≢ EMPTY → result ≡ OUT_OF_MEMORY }
    ensures err { result ≢ OK → copy.new.kept.holds ≡ copy.old.kept.holds }
    ensures kept { doc.new.kept.holds ≡ doc.old.kept.holds }
{
    let Some(held) = doc.take(alloc) else {
        return EMPTY;
    };
    let code = copy_into(alloc, &held.value, copy);
    doc.put(held);
    code
}
