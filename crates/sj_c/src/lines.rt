//! Command lines on a document that is kept.

ghost use Rattle.std.specs.Prelude.{◌≡◌, ◌≢◌, ◌⊎◌, ℕ, List, [], Some, None, string_bytes};
ghost use Rattle.sj_text_core.specs.Tree.{Tree};
ghost use Rattle.sj_text_core.specs.declared.repeats.Repeats.TheVariants.{First};
ghost use Rattle.sj_document.specs.Document.{document_tree};
ghost use Rattle.sj_commands.specs.Lines.{full_lines, line_texts};
ghost use Rattle.sj_run.specs.Answered.{AnswersLines};
ghost use Rattle.sj_c.specs.Lines.{PassesAlone};
ghost use Rattle.sj_c.specs.Meant.{held_tree, print_of};

use crate::doc::Doc;
use crate::held::{Held, Printed};
use crate::status::{EMPTY, OK, OUT_OF_MEMORY, TOO_LONG, code_of_why};
use crate::text::Text;
use sj_document::OwnedValue;
use sj_run::{OwnedDoc, Way, answer_owned};
use std::alloc::Global;
use std::mem::replace;

/// Answers the lines on the document in its block. Of a status that is not `OK`, which commands were
/// done is not said.
#[tactic(auto, using(crate::proofs::Begun::answers_alone, crate::proofs::Begun::passes_alone))]
fn answer_lines(alloc: Global, held: &mut Held, lines: &mut [u8], out: &mut Vec<u8>) -> u32
    requires { out.old.items ≡ [] }
    ensures ok { result ≡ OK → AnswersLines (First, document_tree string_bytes held.old.value) (line_texts (full_lines lines.old)) (First, document_tree string_bytes held.new.value) [] out.new.items }
    ensures too_long { result ≡ TOO_LONG → PassesAlone (First, document_tree string_bytes held.old.value) (line_texts (full_lines lines.old)) }
    ensures answers { (result ≡ OK) ⊎ (result ≡ TOO_LONG) ⊎ (result ≡ OUT_OF_MEMORY) }
{
    let value = replace(&mut held.value, OwnedValue::null());
    let way = Way::ByText;
    let mut asked = OwnedDoc { way, value };
    let done = answer_owned(alloc, &mut asked, lines, out);
    held.value = asked.value;
    match done {
        Ok(()) => OK,
        Err(why) => code_of_why(why),
    }
}

/// Answers command lines in turn on the document, and leaves the replies, each with a line feed
/// behind it, in the handle of a print. Refused, that handle is as it was; of which commands were
/// done nothing is said. The lines are written over.
#[unsafe(no_mangle)]
pub extern "C" fn sj_lines(alloc: Global, doc: &mut Doc, lines: &mut [u8], text: &mut Text) -> u32
    ensures ok { result ≡ OK → (t : Tree) × (u : Tree) × (w : List ℕ) × (held_tree doc.old.kept.holds ≡ Some t) × (held_tree doc.new.kept.holds ≡ Some u) × (print_of text.new.kept.holds ≡ Some w) × AnswersLines (First, t) (line_texts (full_lines lines.old)) (First, u) [] w }
    ensures too_long { result ≡ TOO_LONG → (t : Tree) × (held_tree doc.old.kept.holds ≡ Some t) × PassesAlone (First, t) (line_texts (full_lines lines.old)) }
    ensures empty { result ≡ EMPTY → doc.old.kept.holds ≡ None }
    ensures answers { result ≢ OK → result ≢ TOO_LONG → result ≢ EMPTY → result ≡ OUT_OF_MEMORY }
    ensures err { result ≢ OK → text.new.kept.holds ≡ text.old.kept.holds }
    ensures held { doc.old.kept.holds ≢ None → doc.new.kept.holds ≢ None }
{
    let bytes = Vec::new(alloc);
    let Ok(mut made) = Box::new(alloc, Printed { bytes }) else {
        return OUT_OF_MEMORY;
    };
    let Some(mut held) = doc.take(alloc) else {
        return EMPTY;
    };
    let code = answer_lines(alloc, &mut held, lines, &mut made.bytes);
    doc.put(held);
    if code == OK {
        drop(text.take(alloc));
        text.put(made);
    }
    code
}
