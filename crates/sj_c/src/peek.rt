//! Reads of texts of which no document is built.

ghost use Rattle.std.specs.Prelude.{◌≡◌, ◌≢◌, IsUtf8, Some, None};
ghost use Rattle.sj_text_core.specs.Tree.{Tree, IsWithin};
ghost use Rattle.sj_text_core.specs.Grammar.{Spells, IsReadable};
ghost use Rattle.sj_pointer.specs.Pointed.{pointed_by};
ghost use Rattle.sj_pointer.specs.Tokens.{tokens_of};
ghost use Rattle.sj_c.specs.Meant.{choice};
ghost use Rattle.sj_c.specs.Refusals.{Blames, IsReply};
ghost use Rattle.sj_c.specs.Shown.{Tells};

use crate::found::{Found, pointer_of, tell};
use crate::status::{INVALID_UTF8, MISSING, OK, choice_of, code_of_kind};
use sj_path::lazy::{Value, find};
use sj_tape::to_tape;
use std::alloc::Global;

/// Says what stands at a pointer in a text, and builds no document. The bytes are written over, and
/// a text that is found lies in them. The length of an array or an object is not said.
#[unsafe(no_mangle)]
pub extern "C" fn sj_peek(
    alloc: Global,
    bytes: &mut [u8],
    last: bool,
    path: &[u8],
    found: &mut Found,
) -> u32
    ensures ok { result ≡ OK → (t : Tree) × (u : Tree) × Spells bytes.old t × IsWithin t × (pointed_by (choice last) (tokens_of path.now) t ≡ Some u) × Tells found.new u }
    ensures missing { result ≡ MISSING → (t : Tree) × Spells bytes.old t × (pointed_by (choice last) (tokens_of path.now) t ≡ None) }
    ensures utf8 { result ≡ INVALID_UTF8 → ¬ (IsUtf8 bytes.old) }
    ensures unread { IsReply result → result ≢ OK → result ≢ MISSING → result ≢ INVALID_UTF8 → ¬ (IsReadable bytes.old) }
    ensures blames { Blames result ⊥ path.now (¬ (IsUtf8 path.now)) }
{
    let path = match pointer_of(alloc, path) {
        Ok(path) => path,
        Err(code) => return code,
    };
    let tape = match to_tape(alloc, bytes) {
        Ok(tape) => tape,
        Err(kind) => return code_of_kind(kind),
    };
    let value: Value<'_, '_, '_> = Value::from_tape(tape.as_value_repeats(choice_of(last)));
    match find(&value, &path) {
        Some(part) => {
            tell(&part, found);
            OK
        }
        None => MISSING,
    }
}
