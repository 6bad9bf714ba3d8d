//! Removals, of which those in one container, one after another, share the room that undoes them.

ghost use Rattle.std.specs.Prelude.{◌≡◌, ⊤, ◌↔◌, [], ◌∷◌, ◌++◌, Ok, map, string_bytes, OnOk, IfOk, IfErr, IsTrue};
ghost use Rattle.sj_text_core.specs.Tree.{Tree};
ghost use Rattle.sj_document.specs.Document.{document_tree};
ghost use Rattle.sj_patch.specs.Patch.{removed};
ghost use Rattle.sj_patch.specs.inner.Changed.{IsFirstGap, Refuses, RemovesBeside, filled_below, gaps_filled, undone, undone_at, undo_one};

use crate::change::Change;
use crate::error::Refusal;
use crate::gaps::{Gaps, TakeBeside};
use crate::reversal::Reversal;
use crate::steps::{Undo, change};
use sj_document::Document;
use sj_object::KeyText;
use sj_path::OwnedText;
use sj_path::owned::update_in;
use sj_pointer::Pointer;
use std::alloc::{AllocError, Global};

/// Whether the tokens are the same.
fn is_same(path: &[String], other: &[String]) -> bool
    ensures { IsTrue result ↔ (map string_bytes path.now ≡ map string_bytes other.now) }
{
    path == other
}

/// Whether the tokens lead to something in the container.
fn is_in(tokens: &[String], holder: &[String]) -> bool {
    match tokens {
        [] => false,
        [path @ .., _] => is_same(path, holder),
    }
}

/// The first of several gaps in a container, which the reversal fills with the value; of another
/// reversal, and where that is refused, both come back.
fn first_gap<T: KeyText + Drop>(
    alloc: Global,
    reversal: Reversal<T>,
    value: Document<T>,
) -> Result<Gaps<T>, (Reversal<T>, Document<T>, Result<(), AllocError>)>
    ensures gap { IfOk result (λ gaps. IsFirstGap T.text_of reversal value gaps) }
    ensures back { IfErr result (λ back. (back.0 ≡ reversal) × (back.1 ≡ value)) }
{
    match reversal {
        Reversal::MemberBack { room, index, key } => match Vec::with_capacity(alloc, 2) {
            Ok(mut taken) => {
                taken.push((index, key, value)).unwrap();
                Ok(Gaps::Members { room, taken })
            }
            Err(refused) => {
                let reversal = Reversal::MemberBack { room, index, key };
                Err((reversal, value, Err(refused)))
            }
        },
        Reversal::ItemBack { room, index } => match Vec::with_capacity(alloc, 2) {
            Ok(mut taken) => {
                taken.push((index, value)).unwrap();
                Ok(Gaps::Items { room, taken })
            }
            Err(refused) => Err((Reversal::ItemBack { room, index }, value, Err(refused))),
        },
        reversal => Err((reversal, value, Ok(()))),
    }
}

/// What undoes a change at the tokens, as the first of several gaps in the container where they end;
/// where it is none, or that is refused, as it is.
fn gathered<'o, T: KeyText + Drop>(
    alloc: Global,
    tokens: &'o [String],
    reversal: Reversal<T>,
    value: Document<T>,
) -> (Undo<'o, T>, Result<(), AllocError>)
    ensures { (u : Tree) → undo_one T.text_of result.0 u ≡ undone_at T.text_of reversal (document_tree T.text_of value) (map string_bytes tokens.now) u }
{
    let [path @ .., _] = tokens else {
        return (
            Undo::Change {
                tokens,
                reversal,
                value,
            },
            Ok(()),
        );
    };
    match first_gap(alloc, reversal, value) {
        Ok(gaps) => (Undo::Gaps { path, gaps }, Ok(())),
        Err((reversal, value, answer)) => (
            Undo::Change {
                tokens,
                reversal,
                value,
            },
            answer,
        ),
    }
}

/// So too where the change is one in the container, and of any other entry it itself.
fn gathered_in<'o, T: KeyText + Drop>(
    alloc: Global,
    last: Undo<'o, T>,
    holder: &[String],
) -> (Undo<'o, T>, Result<(), AllocError>)
    ensures { (u : Tree) → undo_one T.text_of result.0 u ≡ undo_one T.text_of last.entry u }
{
    match last {
        Undo::Change {
            tokens,
            reversal,
            value,
        } => {
            if is_in(tokens, holder) {
                gathered(alloc, tokens, reversal, value)
            } else {
                (
                    Undo::Change {
                        tokens,
                        reversal,
                        value,
                    },
                    Ok(()),
                )
            }
        }
        other => (other, Ok(())),
    }
}

/// So too of the last entry of a log.
fn gather<'o, T: KeyText + Drop>(
    holder: &[String],
    log: &mut Vec<Undo<'o, T>>,
) -> Result<(), AllocError>
    ensures { (u : Tree) → undone T.text_of log.new.items u ≡ undone T.text_of log.old.items u }
{
    let Some(last) = log.pop() else {
        return Ok(());
    };
    let (last, answer) = gathered_in(*log.allocator(), last, holder);
    log.push(last).unwrap();
    answer
}

/// Takes out what stands at the token of the container too, where the room of the gaps takes all, and
/// says whether it did. Otherwise the document is as it was.
fn take_more<T: OwnedText + Drop>(
    document: &mut Document<T>,
    holder: &[String],
    token: &str,
    gaps: &mut Gaps<T>,
) -> Result<bool, AllocError>
    ensures removes { RemovesBeside (map string_bytes holder.now ++ token.now ∷ []) (document_tree T.text_of document.old) (document_tree T.text_of document.new) result }
    ensures undo { filled_below (gaps_filled T.text_of gaps.new) (map string_bytes holder.now) (document_tree T.text_of document.new) ≡ filled_below (gaps_filled T.text_of gaps.old) (map string_bytes holder.now) (document_tree T.text_of document.old) }
{
    gaps.reserve()?;
    match update_in(
        document,
        holder,
        TakeBeside {
            token,
            gaps: &*gaps,
        },
    ) {
        Ok(Some(gap)) => {
            gaps.push(gap);
            Ok(true)
        }
        Ok(None) => Ok(false),
        Err(_) => Ok(false),
    }
}

/// So too, where the entry of the log has gaps of that container.
fn take_beside_last<'o, T: OwnedText + Drop>(
    document: &mut Document<T>,
    holder: &[String],
    token: &str,
    last: Undo<'o, T>,
) -> (Undo<'o, T>, Result<bool, AllocError>)
    ensures removes { RemovesBeside (map string_bytes holder.now ++ token.now ∷ []) (document_tree T.text_of document.old) (document_tree T.text_of document.new) result.1 }
    ensures undo { undo_one T.text_of result.0 (document_tree T.text_of document.new) ≡ undo_one T.text_of last.entry (document_tree T.text_of document.old) }
{
    match last {
        Undo::Gaps { path, gaps } => {
            let mut gaps = gaps;
            if is_same(path, holder) {
                let answer = take_more(document, path, token, &mut gaps);
                (Undo::Gaps { path, gaps }, answer)
            } else {
                (Undo::Gaps { path, gaps }, Ok(false))
            }
        }
        other => (other, Ok(false)),
    }
}

/// So too, where the last change that was logged is a removal in the same container.
fn remove_beside<'o, T: OwnedText + Drop>(
    document: &mut Document<T>,
    tokens: &[String],
    log: &mut Vec<Undo<'o, T>>,
) -> Result<bool, AllocError>
    ensures removes { RemovesBeside (map string_bytes tokens.now) (document_tree T.text_of document.old) (document_tree T.text_of document.new) result }
    ensures undo { undone T.text_of log.new.items (document_tree T.text_of document.new) ≡ undone T.text_of log.old.items (document_tree T.text_of document.old) }
{
    let [holder @ .., token] = tokens else {
        return Ok(false);
    };
    gather(holder, log)?;
    let Some(last) = log.pop() else {
        return Ok(false);
    };
    let (last, answer) = take_beside_last(document, holder, token.as_str(), last);
    log.push(last).unwrap();
    answer
}

/// Takes out what stands at the pointer, and logs what undoes it. The memory that undoes removals in
/// one container, one after another, is asked for once.
pub(crate) fn remove<'o, T: OwnedText + Drop>(
    document: &mut Document<T>,
    path: &'o Pointer,
    log: &mut Vec<Undo<'o, T>>,
) -> Result<(), Refusal>
    ensures ok { OnOk result (removed path.now (document_tree T.text_of document.old) ≡ Ok (document_tree T.text_of document.new)) }
    ensures fault { IfErr result (λ e. Refuses ⊤ e (removed path.now (document_tree T.text_of document.old))) }
    ensures undo { undone T.text_of log.new.items (document_tree T.text_of document.new) ≡ undone T.text_of log.old.items (document_tree T.text_of document.old) }
{
    if remove_beside(document, path.tokens(), log)? {
        return Ok(());
    }
    change(document, path, Change::Take, log)
}
