//! Documents of scalars, and empty arrays and objects.

ghost use Rattle.std.specs.Prelude.{◌≡◌, ◌≢◌, ◌↔◌, ◌^◌, ◌<◌, ◌≤◌, ℤ, ◌+ℤ◌, pos, true, false, Some, IsUtf8};
ghost use Rattle.sj_text_core.specs.Tree.{null, boolean, int, text, list, obj, no_items, no_members, i64, u64, i128, u128};
ghost use Rattle.sj_c.specs.Meant.{held_tree};
ghost use Rattle.sj_c.specs.Shown.{wide};

use crate::doc::Doc;
use crate::documents::hold;
use crate::status::{BAD_ARGUMENT, OK, OUT_OF_MEMORY};
use crate::words::{number_below, number_of};
use sj_document::OwnedValue;
use std::alloc::Global;

/// A null.
#[unsafe(no_mangle)]
pub extern "C" fn sj_of_null(alloc: Global, doc: &mut Doc) -> u32
    ensures ok { result ≡ OK → held_tree doc.new.kept.holds ≡ Some null }
    ensures answers { result ≢ OK → result ≡ OUT_OF_MEMORY }
    ensures err { result ≢ OK → doc.new.kept.holds ≡ doc.old.kept.holds }
{
    hold(alloc, doc, OwnedValue::from(()))
}

/// The truth value.
#[unsafe(no_mangle)]
pub extern "C" fn sj_of_bool(alloc: Global, doc: &mut Doc, truth: bool) -> u32
    ensures ok { result ≡ OK → held_tree doc.new.kept.holds ≡ Some (boolean truth) }
    ensures answers { result ≢ OK → result ≡ OUT_OF_MEMORY }
    ensures err { result ≢ OK → doc.new.kept.holds ≡ doc.old.kept.holds }
{
    hold(alloc, doc, OwnedValue::from(truth))
}

/// The number.
#[unsafe(no_mangle)]
pub extern "C" fn sj_of_signed(alloc: Global, doc: &mut Doc, number: i64) -> u32
    ensures ok { result ≡ OK → held_tree doc.new.kept.holds ≡ Some (int number i64) }
    ensures answers { result ≢ OK → result ≡ OUT_OF_MEMORY }
    ensures err { result ≢ OK → doc.new.kept.holds ≡ doc.old.kept.holds }
{
    hold(alloc, doc, OwnedValue::from(number))
}

/// The number.
#[unsafe(no_mangle)]
pub extern "C" fn sj_of_unsigned(alloc: Global, doc: &mut Doc, number: u64) -> u32
    ensures ok { result ≡ OK → held_tree doc.new.kept.holds ≡ Some (int (pos number) u64) }
    ensures answers { result ≢ OK → result ≡ OUT_OF_MEMORY }
    ensures err { result ≢ OK → doc.new.kept.holds ≡ doc.old.kept.holds }
{
    hold(alloc, doc, OwnedValue::from(number))
}

/// The number of 128 bits in two words: in two's complement, or without a sign.
#[unsafe(no_mangle)]
pub extern "C" fn sj_of_wide(
    alloc: Global,
    doc: &mut Doc,
    low: u64,
    high: u64,
    is_signed: bool,
) -> u32
    ensures unsigned { is_signed ≡ false → result ≡ OK → held_tree doc.new.kept.holds ≡ Some (int (pos (wide low high)) u128) }
    ensures above { is_signed ≡ true → high < 2 ^ 63 → result ≡ OK → held_tree doc.new.kept.holds ≡ Some (int (pos (wide low high)) u128) }
    ensures below { is_signed ≡ true → 2 ^ 63 ≤ high → result ≡ OK → (n : ℤ) × (n +ℤ pos (2 ^ 128) ≡ pos (wide low high)) × (held_tree doc.new.kept.holds ≡ Some (int n i128)) }
    ensures answers { result ≢ OK → result ≡ OUT_OF_MEMORY }
    ensures err { result ≢ OK → doc.new.kept.holds ≡ doc.old.kept.holds }
{
    if is_signed && high >= 1 << 63 {
        hold(alloc, doc, OwnedValue::from(number_below(low, high)))
    } else {
        hold(alloc, doc, OwnedValue::from(number_of(low, high)))
    }
}

/// The text. Bytes that are not UTF-8 are refused.
#[unsafe(no_mangle)]
pub extern "C" fn sj_of_text(alloc: Global, doc: &mut Doc, bytes: &[u8]) -> u32
    ensures ok { result ≡ OK → held_tree doc.new.kept.holds ≡ Some (text bytes.now) }
    ensures utf8 { (result ≡ BAD_ARGUMENT) ↔ ¬ (IsUtf8 bytes.now) }
    ensures answers { result ≢ OK → result ≢ BAD_ARGUMENT → result ≡ OUT_OF_MEMORY }
    ensures err { result ≢ OK → doc.new.kept.holds ≡ doc.old.kept.holds }
{
    let Ok(text) = std::str::from_utf8(bytes) else {
        return BAD_ARGUMENT;
    };
    match String::from_str(alloc, text) {
        Ok(text) => hold(alloc, doc, OwnedValue::from(text)),
        Err(_) => OUT_OF_MEMORY,
    }
}

/// An array without items.
#[unsafe(no_mangle)]
pub extern "C" fn sj_of_array(alloc: Global, doc: &mut Doc) -> u32
    ensures ok { result ≡ OK → held_tree doc.new.kept.holds ≡ Some (list no_items) }
    ensures answers { result ≢ OK → result ≡ OUT_OF_MEMORY }
    ensures err { result ≢ OK → doc.new.kept.holds ≡ doc.old.kept.holds }
{
    match OwnedValue::array(alloc) {
        Ok(value) => hold(alloc, doc, value),
        Err(_) => OUT_OF_MEMORY,
    }
}

/// An object without members.
#[unsafe(no_mangle)]
pub extern "C" fn sj_of_object(alloc: Global, doc: &mut Doc) -> u32
    ensures ok { result ≡ OK → held_tree doc.new.kept.holds ≡ Some (obj no_members) }
    ensures answers { result ≢ OK → result ≡ OUT_OF_MEMORY }
    ensures err { result ≢ OK → doc.new.kept.holds ≡ doc.old.kept.holds }
{
    match OwnedValue::object(alloc) {
        Ok(value) => hold(alloc, doc, value),
        Err(_) => OUT_OF_MEMORY,
    }
}
