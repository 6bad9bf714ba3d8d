//! Settings that are patched by a text.

ghost use Rattle.std.specs.Prelude.{◌≡◌, List, Ok, OnOk, OnErr, string_bytes};
ghost use Rattle.sj_text_core.specs.Tree.{Tree};
ghost use Rattle.sj_text_core.specs.Grammar.{Spells};
ghost use Rattle.sj_text_core.specs.Keep.{keep};
ghost use Rattle.sj_document.specs.Document.{document_tree};
ghost use Rattle.sj_patch.specs.Operations.{patch_in};
ghost use Rattle.sj_patch.specs.Patch.{PlainOperation, patched};

use sj_owned::{JsonError, Value, to_value};
use sj_patch::{operations_of, patch};
use std::alloc::Global;

/// Patches the settings by the text of a JSON patch: all of it, or they mean what they meant.
pub fn patch_settings(alloc: Global, settings: &mut Value, text: &mut [u8]) -> Result<(), JsonError>
    ensures done { OnOk result ((t : Tree) × ((os : List PlainOperation) × (Spells text.old t × (patch_in (keep t) ≡ Ok os × patched os (document_tree string_bytes settings.old) ≡ Ok (document_tree string_bytes settings.new))))) }
    ensures kept { OnErr result (document_tree string_bytes settings.new ≡ document_tree string_bytes settings.old) }
{
    let listed = to_value(alloc, text)?;
    let operations = operations_of(alloc, listed)?;
    patch(alloc, settings, operations.as_slice())?;
    Ok(())
}
