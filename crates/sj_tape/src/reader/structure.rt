//! Words, and what stands between values.

ghost use Rattle.std.specs.Prelude.{◌≡◌, ◌+◌, ◌-◌, ◌<◌, ◌≤◌, ℕ, Some, None, true, false, length, drop, IfOk, IfErr, OnOk, OnErr, MatchResult, IsTrue, ◌↔◌, ◌≢◌, ◌==◌, slice_index};
ghost use Rattle.sj_text_core.specs.Tree.{Tree};
ghost use Rattle.sj_text_core.specs.inner.Parse as parse;

use crate::reader::blank::{byte_at, skip};
use sj_text_core::ErrorKind;

/// The place behind the word, where it stands at `at`.
#[inline(always)]
pub(crate) fn word_end(bytes: &[u8], at: usize, word: &[u8]) -> Result<usize, ErrorKind>
    requires at { at ≤ length bytes.now }
    requires some { 0 < length word.now }
    ensures within { IfOk result (λ next. (at < next) × (next ≤ length bytes.now)) }
    ensures ok { IfOk result (λ next. (t : Tree) → parse.word_at word.now t (drop at bytes.now) ≡ Some (t, drop next bytes.now)) }
    ensures err { OnErr result ((t : Tree) → parse.word_at word.now t (drop at bytes.now) ≡ None) }
    ensures kind { IfErr result (λ e. e ≡ ErrorKind.Syntax) }
{
    if !bytes[at..].starts_with(word) {
        return Err(ErrorKind::Syntax);
    }
    Ok(at + word.len())
}

/// What stands behind a part of an array or an object.
#[derive(Clone, Copy)]
pub(crate) enum Behind {
    Comma,
    Close,
    Other,
}

/// What stands behind a part, and the place of the next part or the one after the closing byte.
#[derive(Clone, Copy)]
pub(crate) struct Stop {
    pub(crate) behind: Behind,
    pub(crate) next: usize,
}

/// The separator behind a part that ends at `at`: most often a comma right there.
#[inline(always)]
pub(crate) fn separator(bytes: &[u8], at: usize, close: u8) -> Stop
    requires at { at ≤ length bytes.now }
    requires close { 44 < close }
    ensures comma { result.behind ≡ Behind.Comma → (at < result.next) × (result.next ≤ length bytes.now) × (parse.separator_at close (drop at bytes.now) ≡ Some (true, drop result.next bytes.now)) }
    ensures close { result.behind ≡ Behind.Close → (at < result.next) × (result.next ≤ length bytes.now) × (parse.separator_at close (drop at bytes.now) ≡ Some (false, drop result.next bytes.now)) }
    ensures other { result.behind ≡ Behind.Other → parse.separator_at close (drop at bytes.now) ≡ None }
{
    if byte_at(bytes, at) == b',' {
        return Stop {
            behind: Behind::Comma,
            next: skip(bytes, at + 1),
        };
    }
    let place = skip(bytes, at);
    let byte = byte_at(bytes, place);
    if byte == b',' {
        return Stop {
            behind: Behind::Comma,
            next: skip(bytes, place + 1),
        };
    }
    if byte == close {
        return Stop {
            behind: Behind::Close,
            next: place + 1,
        };
    }
    Stop {
        behind: Behind::Other,
        next: 0,
    }
}
