//! Prints, and what they are read by.

ghost use Rattle.std.specs.Prelude.{◌≡◌, ◌≢◌, ◌↔◌, ◌^◌, ◌≤◌, List, ℕ, Some, None, option_map, length, string_bytes, IfOk, IsErrOf, take, drop, min};
ghost use Rattle.sj_text_core.specs.Tree.{Tree};
ghost use Rattle.sj_document.specs.Document.{document_tree};
ghost use Rattle.sj_text_core.specs.Print.{compact};
ghost use Rattle.sj_canonical.specs.Canonical.{canonical};
ghost use Rattle.sj_c.specs.Meant.{held_tree, print_of, print_by};
ghost use Rattle.sj_c.specs.Refusals.{IsReply};

use crate::doc::Doc;
use crate::held::Printed;
use crate::lent::start_of;
use crate::status::{EMPTY, OK, OUT_OF_MEMORY, TOO_LONG, code_of_write};
use crate::text::Text;
use sj_canonical::Canonical;
use sj_document::OwnedValue;
use sj_text_core::{Writable, WriteError};
use std::alloc::Global;

/// Puts the print into the handle, and lets go what it had.
pub fn hold_print(alloc: Global, text: &mut Text, bytes: Vec<u8>) -> u32
    ensures either { result ≢ OK → result ≡ OUT_OF_MEMORY }
    ensures ok { result ≡ OK → print_of text.new.kept.holds ≡ Some bytes.items }
    ensures err { result ≢ OK → text.new.kept.holds ≡ text.old.kept.holds }
{
    match Box::new(alloc, Printed { bytes }) {
        Ok(made) => {
            drop(text.take(alloc));
            text.put(made);
            OK
        }
        Err(_) => OUT_OF_MEMORY,
    }
}

/// The compact or the pretty text.
pub fn printed(alloc: Global, value: &OwnedValue, is_pretty: bool) -> Result<Vec<u8>, WriteError>
    ensures ok { IfOk result (λ bytes. bytes.items ≡ print_by is_pretty (document_tree string_bytes value.now)) }
    ensures too_long { IsErrOf result WriteError.TooLong ↔ (2 ^ 64 ≤ length (print_by is_pretty (document_tree string_bytes value.now))) }
{
    let mut bytes = Vec::new(alloc);
    if is_pretty {
        value.write_pp(&mut bytes)?;
    } else {
        value.write(&mut bytes)?;
    }
    Ok(bytes)
}

/// Prints the document into the handle of a print, and lets go what that had. Refused, it keeps it.
#[unsafe(no_mangle)]
pub extern "C" fn sj_print(alloc: Global, doc: &mut Doc, text: &mut Text, is_pretty: bool) -> u32
    ensures printed { result ≡ OK → (t : Tree) × (held_tree doc.old.kept.holds ≡ Some t) × (print_of text.new.kept.holds ≡ Some (print_by is_pretty t)) }
    ensures too_long { result ≡ TOO_LONG → (t : Tree) × (held_tree doc.old.kept.holds ≡ Some t) × (2 ^ 64 ≤ length (print_by is_pretty t)) }
    ensures empty { (result ≡ EMPTY) ↔ (doc.old.kept.holds ≡ None) }
    ensures answers { IsReply result → result ≢ OK → result ≡ TOO_LONG }
    ensures text_kept { result ≢ OK → text.new.kept.holds ≡ text.old.kept.holds }
    ensures kept { doc.new.kept.holds ≡ doc.old.kept.holds }
{
    let Some(held) = doc.take(alloc) else {
        return EMPTY;
    };
    let code = match printed(alloc, &held.value, is_pretty) {
        Ok(bytes) => hold_print(alloc, text, bytes),
        Err(error) => code_of_write(error),
    };
    doc.put(held);
    code
}

/// The canonical text.
fn printed_canonical(alloc: Global, value: &OwnedValue) -> Result<Vec<u8>, WriteError>
    ensures ok { IfOk result (λ bytes. bytes.items ≡ compact (canonical (document_tree string_bytes value.now))) }
    ensures too_long { IsErrOf result WriteError.TooLong ↔ (2 ^ 64 ≤ length (compact (document_tree string_bytes value.now))) }
{
    let mut bytes = Vec::new(alloc);
    value.write_canonical(&mut bytes)?;
    Ok(bytes)
}

/// Prints the document's canonical form (RFC 8785) into the handle of a print, and lets go what that
/// had. Refused, it keeps it.
#[unsafe(no_mangle)]
pub extern "C" fn sj_print_canonical(alloc: Global, doc: &mut Doc, text: &mut Text) -> u32
    ensures printed { result ≡ OK → (t : Tree) × (held_tree doc.old.kept.holds ≡ Some t) × (print_of text.new.kept.holds ≡ Some (compact (canonical t))) }
    ensures too_long { result ≡ TOO_LONG → (t : Tree) × (held_tree doc.old.kept.holds ≡ Some t) × (2 ^ 64 ≤ length (compact t)) }
    ensures empty { (result ≡ EMPTY) ↔ (doc.old.kept.holds ≡ None) }
    ensures answers { IsReply result → result ≢ OK → result ≡ TOO_LONG }
    ensures text_kept { result ≢ OK → text.new.kept.holds ≡ text.old.kept.holds }
    ensures kept { doc.new.kept.holds ≡ doc.old.kept.holds }
{
    let Some(held) = doc.take(alloc) else {
        return EMPTY;
    };
    let code = match printed_canonical(alloc, &held.value) {
        Ok(bytes) => hold_print(alloc, text, bytes),
        Err(error) => code_of_write(error),
    };
    doc.put(held);
    code
}

/// Where the bytes of the print lie and how many they are, until the handle is used otherwise.
#[unsafe(no_mangle)]
pub extern "C" fn sj_text_bytes(
    alloc: Global,
    text: &mut Text,
    at: &mut *const u8,
    len: &mut usize,
) -> u32
    ensures len { result ≡ OK → option_map length (print_of text.old.kept.holds) ≡ Some len.new }
    ensures empty { (result ≡ EMPTY) ↔ (text.old.kept.holds ≡ None) }
    ensures answers { result ≢ OK → (result ≡ EMPTY) × (len.new ≡ len.old) }
    ensures kept { text.new.kept.holds ≡ text.old.kept.holds }
{
    let Some(printed) = text.take(alloc) else {
        return EMPTY;
    };
    *at = start_of(printed.bytes.as_slice());
    *len = printed.bytes.len();
    text.put(printed);
    OK
}

/// Copies the print, as much of it as there is room for, and answers how many bytes that were.
#[unsafe(no_mangle)]
pub extern "C" fn sj_text_copy(alloc: Global, text: &mut Text, out: &mut [u8]) -> usize
    ensures len { (bytes : List ℕ) → print_of text.old.kept.holds ≡ Some bytes → result ≡ min (length bytes) (length out.old) }
    ensures copied { (bytes : List ℕ) → print_of text.old.kept.holds ≡ Some bytes → take result out.new ≡ take result bytes }
    ensures rest { drop result out.new ≡ drop result out.old }
    ensures kept { text.new.kept.holds ≡ text.old.kept.holds }
{
    let Some(printed) = text.take(alloc) else {
        return 0;
    };
    let len = printed.bytes.len().min(out.len());
    out[..len].copy_from_slice(&printed.bytes[..len]);
    text.put(printed);
    len
}

/// Lets the print go. The handle has none then.
#[unsafe(no_mangle)]
pub extern "C" fn sj_text_free(alloc: Global, text: &mut Text)
    ensures { text.new.kept.holds ≡ None }
{
    drop(text.take(alloc));
}
