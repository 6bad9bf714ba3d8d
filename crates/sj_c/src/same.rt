//! Documents compared.

ghost use Rattle.std.specs.Prelude.{◌≡◌, ◌≢◌, ◌⊎◌, ◌↔◌, ◌<◌, ◌≤◌, IsTrue, IsFalse, IfOk, Some, None, string_bytes};
ghost use Rattle.sj_text_core.specs.Tree.{Tree, depth};
ghost use Rattle.sj_text_core.specs.Same.{Same};
ghost use Rattle.sj_document.specs.Document.{document_tree};
ghost use Rattle.sj_c.specs.Meant.{held_tree};

use crate::doc::Doc;
use crate::status::{EMPTY, OK, OUT_OF_MEMORY, TOO_DEEP};
use sj_document::OwnedValue;
use std::alloc::{AllocError, Global};

/// How many arrays and objects may stand inside one another in one of two documents that are
/// compared: as many as in a text that is read. A comparison calls itself for each.
pub const COMPARED: usize = 1024;

/// Whether one of the two is within the depth to which documents are compared.
pub fn are_comparable(
    alloc: Global,
    one: &OwnedValue,
    other: &OwnedValue,
) -> Result<bool, AllocError>
    ensures deep { IfOk result (λ are. IsFalse are → (1024 < depth (document_tree string_bytes one.now)) × (1024 < depth (document_tree string_bytes other.now))) }
    ensures within { IfOk result (λ are. IsTrue are → (depth (document_tree string_bytes one.now) ≤ 1024) ⊎ (depth (document_tree string_bytes other.now) ≤ 1024)) }
{
    if one.is_within_depth(COMPARED, alloc)? {
        return Ok(true);
    }
    other.is_within_depth(COMPARED, alloc)
}

/// Compares two values; past the depth it is refused.
fn compare(alloc: Global, one: &OwnedValue, other: &OwnedValue, same: &mut bool) -> u32
    ensures ok { result ≡ OK → (IsTrue same.new ↔ Same (document_tree string_bytes one.now) (document_tree string_bytes other.now)) }
    ensures within { result ≡ OK → (depth (document_tree string_bytes one.now) ≤ 1024) ⊎ (depth (document_tree string_bytes other.now) ≤ 1024) }
    ensures deep { result ≡ TOO_DEEP → (1024 < depth (document_tree string_bytes one.now)) × (1024 < depth (document_tree string_bytes other.now)) }
    ensures answers { (result ≡ OK) ⊎ (result ≡ TOO_DEEP) ⊎ (result ≡ OUT_OF_MEMORY) }
{
    match are_comparable(alloc, one, other) {
        Ok(true) => {
            *same = *one == *other;
            OK
        }
        Ok(false) => TOO_DEEP,
        Err(_) => OUT_OF_MEMORY,
    }
}

// Why so: docs/REFUSED.md, "Reads take a handle as `&mut`".
/// Whether two documents are the same: members in any order, numbers by their value. Where more than
/// 1,024 arrays and objects stand inside one another in both, it is refused as `TOO_DEEP`.
#[unsafe(no_mangle)]
pub extern "C" fn sj_same(alloc: Global, one: &mut Doc, other: &mut Doc, same: &mut bool) -> u32
    ensures ok { result ≡ OK → (t : Tree) × (u : Tree) × (held_tree one.old.kept.holds ≡ Some t) × (held_tree other.old.kept.holds ≡ Some u) × (IsTrue same.new ↔ Same t u) }
    ensures within { result ≡ OK → (t : Tree) × (u : Tree) × (held_tree one.old.kept.holds ≡ Some t) × (held_tree other.old.kept.holds ≡ Some u) × ((depth t ≤ 1024) ⊎ (depth u ≤ 1024)) }
    ensures deep { result ≡ TOO_DEEP → (t : Tree) × (u : Tree) × (held_tree one.old.kept.holds ≡ Some t) × (held_tree other.old.kept.holds ≡ Some u) × (1024 < depth t) × (1024 < depth u) }
    ensures empty { result ≡ EMPTY → (one.old.kept.holds ≡ None) ⊎ (other.old.kept.holds ≡ None) }
    ensures answers { result ≢ OK → result ≢ TOO_DEEP → result ≢ EMPTY → result ≡ OUT_OF_MEMORY }
    ensures one_kept { one.new.kept.holds ≡ one.old.kept.holds }
    ensures other_kept { other.new.kept.holds ≡ other.old.kept.holds }
{
    let Some(first) = one.take(alloc) else {
        return EMPTY;
    };
    let Some(second) = other.take(alloc) else {
        one.put(first);
        return EMPTY;
    };
    let code = compare(alloc, &first.value, &second.value, same);
    one.put(first);
    other.put(second);
    code
}
