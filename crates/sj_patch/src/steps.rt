//! Changes at pointers, with a log of what undoes them.

ghost use Rattle.std.specs.Prelude.{◌≡◌, ⊤, [], ◌∷◌, ◌++◌, Ok, map, string_bytes, OnOk, IfErr};
ghost use Rattle.sj_document.specs.Document.{document_tree};
ghost use Rattle.sj_patch.specs.Patch.{added};
ghost use Rattle.sj_patch.specs.inner.Changed.{ChangesOrReturns, ChangesWhole, IsNoUndo, Refuses, carried, change_at, filled_below, gaps_filled, undone, undone_at, undo_one};

use crate::change::{AtToken, Change, Done, undone};
use crate::error::Refusal;
use crate::gaps::{Fill, Gaps};
use crate::reversal::Reversal;
use sj_document::Document;
use sj_object::KeyText;
use sj_path::OwnedText;
use sj_path::owned::update_in;
use sj_pointer::Pointer;
use sj_text_core::{OperationFault, Refused};
use std::mem;

/// What undoes a change, and where.
#[derive(Drop)]
pub(crate) enum Undo<'o, T: KeyText> {
    /// The change there is undone, given what it took out.
    Change {
        tokens: &'o [String],
        reversal: Reversal<T>,
        value: Document<T>,
    },
    /// What was put at the path is taken out again, and fills the gap that it left.
    Move {
        from: &'o [String],
        gap: Reversal<T>,
        path: &'o [String],
        reversal: Reversal<T>,
        value: Document<T>,
    },
    /// What was taken out of the container there goes back, the last part first.
    Gaps {
        path: &'o [String],
        gaps: Gaps<T>,
    },
}

/// Makes the change of the whole document.
fn change_whole<T: OwnedText + Drop>(
    document: &mut Document<T>,
    change: Change<T>,
) -> Result<Done<T>, OperationFault>
    ensures { ChangesWhole T.text_of change (document_tree T.text_of document.old) (document_tree T.text_of document.new) result }
{
    match change {
        Change::Put(value) | Change::Swap(value) => Ok(Done {
            undo: Reversal::Become,
            taken: mem::replace(document, value),
        }),
        Change::Take => Err(OperationFault::Whole),
        Change::Undo(Reversal::Become, value) => Ok(undone(mem::replace(document, value))),
        Change::Undo(_, _) => Err(OperationFault::Missing),
    }
}

/// Makes the change in the container to which all tokens but the last lead; of the whole document
/// where there are none. Refused, it leaves the document as it was, and hands back what was to be
/// put.
fn change_to<T: OwnedText + Drop>(
    document: &mut Document<T>,
    tokens: &[String],
    change: Change<T>,
) -> Result<Done<T>, Refused<Refusal, Document<T>>>
    ensures { ChangesOrReturns T.text_of change (map string_bytes tokens.now) (document_tree T.text_of document.old) (document_tree T.text_of document.new) result }
{
    match tokens {
        [] => match change_whole(document, change) {
            Ok(done) => Ok(done),
            Err(fault) => Err(Refused {
                why: Refusal::Fault(fault),
                value: Document::null(),
            }),
        },
        [path @ .., last] => change_below(document, path, last.as_str(), change),
    }
}

/// Makes the change in the container to which the path leads, at the token.
fn change_below<T: OwnedText + Drop>(
    document: &mut Document<T>,
    path: &[String],
    token: &str,
    change: Change<T>,
) -> Result<Done<T>, Refused<Refusal, Document<T>>>
    ensures { ChangesOrReturns T.text_of change (map string_bytes path.now ++ token.now ∷ []) (document_tree T.text_of document.old) (document_tree T.text_of document.new) result }
{
    match update_in(document, path, AtToken { token, change }) {
        Ok(answer) => answer,
        Err(back) => Err(Refused {
            why: Refusal::Fault(OperationFault::Missing),
            value: back.change.given(),
        }),
    }
}

/// Makes the change at the pointer, and logs what undoes it.
pub(crate) fn change<'o, T: OwnedText + Drop>(
    document: &mut Document<T>,
    path: &'o Pointer,
    change: Change<T>,
    log: &mut Vec<Undo<'o, T>>,
) -> Result<(), Refusal>
    requires { IsNoUndo T.text_of change }
    ensures ok { OnOk result (change_at T.text_of change path.now (document_tree T.text_of document.old) ≡ Ok (document_tree T.text_of document.new)) }
    ensures fault { IfErr result (λ e. Refuses ⊤ e (change_at T.text_of change path.now (document_tree T.text_of document.old))) }
    ensures undo { undone T.text_of log.new.items (document_tree T.text_of document.new) ≡ undone T.text_of log.old.items (document_tree T.text_of document.old) }
{
    log.reserve(1)?;
    let tokens = path.tokens();
    match change_to(document, tokens, change) {
        Ok(done) => {
            log.push(Undo::Change {
                tokens,
                reversal: done.undo,
                value: done.taken,
            })
            .unwrap();
            Ok(())
        }
        Err(refused) => Err(refused.why),
    }
}

/// Takes what stands at `from` out, puts it to `path`, and logs what undoes both.
pub(crate) fn carry<'o, T: OwnedText + Drop>(
    document: &mut Document<T>,
    from: &'o Pointer,
    path: &'o Pointer,
    log: &mut Vec<Undo<'o, T>>,
) -> Result<(), Refusal>
    ensures ok { OnOk result (carried from.now path.now (document_tree T.text_of document.old) ≡ Ok (document_tree T.text_of document.new)) }
    ensures fault { IfErr result (λ e. Refuses ⊤ e (carried from.now path.now (document_tree T.text_of document.old))) }
    ensures undo { undone T.text_of log.new.items (document_tree T.text_of document.new) ≡ undone T.text_of log.old.items (document_tree T.text_of document.old) }
{
    log.reserve(1)?;
    let tokens = from.tokens();
    match change_to(document, tokens, Change::Take) {
        Ok(gone) => {
            let (undo, answer) = put_taken(document, tokens, gone, path.tokens());
            log.push(undo).unwrap();
            answer
        }
        Err(refused) => Err(refused.why),
    }
}

/// Puts what a removal took out to the path. Answers what undoes both; where the value is refused
/// there, what undoes the removal alone, and why.
fn put_taken<'o, T: OwnedText + Drop>(
    document: &mut Document<T>,
    from: &'o [String],
    gone: Done<T>,
    path: &'o [String],
) -> (Undo<'o, T>, Result<(), Refusal>)
    ensures ok { OnOk result.1 (added (map string_bytes path.now) (document_tree T.text_of gone.taken) (document_tree T.text_of document.old) ≡ Ok (document_tree T.text_of document.new)) }
    ensures fault { IfErr result.1 (λ e. Refuses ⊤ e (added (map string_bytes path.now) (document_tree T.text_of gone.taken) (document_tree T.text_of document.old))) }
    ensures undo { undo_one T.text_of result.0 (document_tree T.text_of document.new) ≡ undone_at T.text_of gone.undo (document_tree T.text_of gone.taken) (map string_bytes from.now) (document_tree T.text_of document.old) }
{
    let Done { undo: gap, taken } = gone;
    match change_to(document, path, Change::Put(taken)) {
        Ok(done) => {
            let undo = Undo::Move {
                from,
                gap,
                path,
                reversal: done.undo,
                value: done.taken,
            };
            (undo, Ok(()))
        }
        Err(refused) => {
            let undo = Undo::Change {
                tokens: from,
                reversal: gap,
                value: refused.value,
            };
            (undo, Err(refused.why))
        }
    }
}

/// Undoes a change, given what it took out. It wants no memory.
fn undo_at<T: OwnedText + Drop>(
    document: &mut Document<T>,
    tokens: &[String],
    reversal: Reversal<T>,
    value: Document<T>,
)
    ensures { document_tree T.text_of document.new ≡ undone_at T.text_of reversal (document_tree T.text_of value) (map string_bytes tokens.now) (document_tree T.text_of document.old) }
{
    match change_to(document, tokens, Change::Undo(reversal, value)) {
        Ok(_) => (),
        Err(_) => (),
    }
}

/// Fills the gaps of the container there. It wants no memory.
fn fill_gaps<T: OwnedText + Drop>(document: &mut Document<T>, path: &[String], gaps: Gaps<T>)
    ensures { document_tree T.text_of document.new ≡ filled_below (gaps_filled T.text_of gaps) (map string_bytes path.now) (document_tree T.text_of document.old) }
{
    match update_in(document, path, Fill { gaps }) {
        Ok(()) => (),
        Err(_) => (),
    }
}

/// Undoes what one entry of the log says. It wants no memory.
fn undo_last<T: OwnedText + Drop>(document: &mut Document<T>, undo: Undo<'_, T>)
    ensures { document_tree T.text_of document.new ≡ undo_one T.text_of undo.entry (document_tree T.text_of document.old) }
{
    match undo {
        Undo::Change {
            tokens,
            reversal,
            value,
        } => undo_at(document, tokens, reversal, value),
        Undo::Move {
            from,
            gap,
            path,
            reversal,
            value,
        } => match change_to(document, path, Change::Undo(reversal, value)) {
            Ok(done) => undo_at(document, from, gap, done.taken),
            Err(_) => (),
        },
        Undo::Gaps { path, gaps } => fill_gaps(document, path, gaps),
    }
}

/// Undoes all changes that were logged, from the last to the first. It wants no memory.
pub(crate) fn undo_all<T: OwnedText + Drop>(document: &mut Document<T>, log: Vec<Undo<'_, T>>)
    ensures { document_tree T.text_of document.new ≡ undone T.text_of log.entry.items (document_tree T.text_of document.old) }
{
    let mut left = log;
    while let Some(last) = left.pop() {
        undo_last(document, last);
    }
}
