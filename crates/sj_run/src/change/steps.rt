//! How the steps of a command lead into documents.

ghost use Rattle.sj_document.specs.Document.{document_tree};
ghost use Rattle.sj_document.specs.Descents.{Exchanged};
ghost use Rattle.sj_commands.specs.Meant.{step_meant};

use sj_commands::Step;
use sj_document::{Document, Leads, swap_item, swap_member, swap_token};
use sj_object::KeyText;
use sj_pointer::position;

/// Steps of commands, whose keys are looked up by text.
pub(super) struct BySteps;

impl Leads<Step> for BySteps {
    ghost step_of = { step_meant };

    fn swap<T: KeyText>(
        step: &Step,
        value: &mut Document<T>,
        other: Document<T>,
    ) -> Result<Document<T>, Document<T>>
        ensures { Exchanged T.text_of (step_meant step.now) other (document_tree T.text_of value.old) (document_tree T.text_of value.new) result }
    {
        match step {
            Step::Key(key) => swap_member(value, key.as_str(), other),
            Step::Idx(place) => swap_item(value, *place, other),
            Step::Token(token) => {
                let token = token.as_str();
                swap_token(value, token, position(token), other)
            }
        }
    }
}
