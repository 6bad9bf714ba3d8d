//! One document over another: objects member by member, anything else whole.

ghost use Rattle.std.specs.Prelude.{◌≡◌, OnOk};
ghost use Rattle.sj_object.specs.Members.{entry_members};
ghost use Rattle.sj_document.specs.Document.{document_tree};
ghost use Rattle.sj_uses.specs.Merge.{merged, merged_members, NothingOver};

use sj_document::{Document, Object, Taken};
use sj_object::KeyText;
use std::alloc::AllocError;

/// Puts one document over another: of two objects the members one by one, else the upper one whole.
/// Refused for want of memory, the lower one may have some of the upper one's members.
#[cycle(merge)]
pub fn merge<T: KeyText + Drop>(base: &mut Document<T>, over: Document<T>) -> Result<(), AllocError>
    ensures { OnOk result (document_tree T.text_of base.new ≡ merged (document_tree T.text_of base.old) (document_tree T.text_of over)) }
{
    match over.take_apart() {
        Taken::Object(members) => match base {
            Document::Object(into) => merge_members(into, Box::into_inner(members)),
            _ => {
                *base = Document::Object(members);
                Ok(())
            }
        },
        Taken::Array(items) => {
            *base = Document::Array(items);
            Ok(())
        }
        Taken::String(text) => {
            *base = Document::String(text);
            Ok(())
        }
        Taken::Static(scalar) => {
            *base = Document::Static(scalar);
            Ok(())
        }
    }
}

#[cycle(merge)]
fn merge_members<T: KeyText + Drop>(
    into: &mut Object<T>,
    members: Object<T>,
) -> Result<(), AllocError>
    ensures { OnOk result (entry_members (document_tree T.text_of) into.new.entries ≡ merged_members (entry_members (document_tree T.text_of) into.old.entries) (entry_members (document_tree T.text_of) members.entries)) }
{
    for (key, value) in members {
        match into.get_mut(key.text()) {
            Some(child) => merge(child, value)?,
            None => {
                into.insert(key, value)?;
            }
        }
    }
    Ok(())
}

/// An object without members leaves an object as it is.
pub fn nothing_over()
    ensures { NothingOver }
{}
