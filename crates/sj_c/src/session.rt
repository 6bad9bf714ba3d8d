//! Sessions over bytes: a document and command lines behind it.

ghost use Rattle.std.specs.Prelude.{◌≡◌, ◌≢◌, ◌↔◌, ℕ, List, Some, None, IsUtf8};
ghost use Rattle.sj_text_core.specs.Grammar.{IsReadable};
ghost use Rattle.sj_commands.specs.Lines.{document};
ghost use Rattle.sj_run.specs.Session.{IsAnsweredBy, PassesAllBy};
ghost use Rattle.sj_c.specs.Meant.{print_of, choice};
ghost use Rattle.sj_c.specs.Statuses.{form_of};

use crate::prints::hold_print;
use crate::status::{
    INVALID_UTF8, OK, OUT_OF_MEMORY, TOO_LONG, USAGE, choice_of, code_of_session, form_by,
};
use crate::text::Text;
use sj_run::{Form, Way, session_repeats};
use std::alloc::Global;

/// Reads the document of the input, answers the command lines behind its first line `---` in turn,
/// and leaves the replies, each with a line feed behind it, in the handle of a print. `form` is 0
/// owned, 1 borrowed, 2 lazy. The input is written over. Refused, the handle is as it was.
#[unsafe(no_mangle)]
pub extern "C" fn sj_session(
    alloc: Global,
    input: &mut [u8],
    form: u32,
    last: bool,
    text: &mut Text,
) -> u32
    ensures ok { result ≡ OK → (f : Form) × (written : List ℕ) × (form_of form ≡ Some f) × (print_of text.new.kept.holds ≡ Some written) × IsAnsweredBy (choice last) f input.old written }
    ensures too_long { result ≡ TOO_LONG → (f : Form) × (form_of form ≡ Some f) × PassesAllBy (choice last) f input.old 0 }
    ensures usage { (result ≡ USAGE) ↔ (form_of form ≡ None) }
    ensures utf8 { form_of form ≢ None → ((result ≡ INVALID_UTF8) ↔ ¬ (IsUtf8 (document input.old))) }
    ensures unread { result ≢ OK → result ≢ USAGE → result ≢ TOO_LONG → result ≢ OUT_OF_MEMORY → ¬ (IsReadable (document input.old)) }
    ensures err { result ≢ OK → text.new.kept.holds ≡ text.old.kept.holds }
{
    let Some(form) = form_by(form) else {
        return USAGE;
    };
    let choice = choice_of(last);
    let mut bytes = Vec::new(alloc);
    match session_repeats(alloc, form, Way::ByText, choice, input, &mut bytes) {
        Ok(()) => hold_print(alloc, text, bytes),
        Err(fault) => code_of_session(fault),
    }
}
