//! Two callers, each with its contract.

ghost use Rattle.std.specs.Prelude.{◌≡◌, codes, IfOk, string_bytes};
ghost use Rattle.sj_text_core.specs.Tree.{Tree};
ghost use Rattle.sj_text_core.specs.Grammar.{Spells};
ghost use Rattle.sj_text_core.specs.Keep.{keep};
ghost use Rattle.sj_text_core.specs.Find.{find};
ghost use Rattle.sj_text_core.specs.Reads.{member_as, as_unsigned};
ghost use Rattle.sj_document.specs.Document.{document_tree};
ghost use Rattle.sj_pointer.specs.Pointed.{set_pointed};

use sj_owned::prelude::*;
use sj_owned::{ErrorKind, Value, to_value};
use sj_path::{Pointer, owned};
use std::alloc::Global;

/// The port of a configuration, where it has one.
pub fn port_of(alloc: Global, text: &mut [u8]) -> Result<Option<u16>, ErrorKind>
    ensures { IfOk result (λ port. (t : Tree) × Spells text.old t × (port ≡ member_as (as_unsigned 16) (find (codes "port") (keep t)))) }
{
    let settings = to_value(alloc, text)?;
    Ok(settings.get_u16("port"))
}

/// The document with a value at a pointer.
pub fn patched(document: &mut Value, pointer: &Pointer, new: Value) -> bool
    ensures { document_tree string_bytes document.new ≡ set_pointed pointer.now (document_tree string_bytes new) (document_tree string_bytes document.old) }
{
    owned::replace(document, pointer, new).is_ok()
}
