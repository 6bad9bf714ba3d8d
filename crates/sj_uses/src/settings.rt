//! Settings: a text that is read, and a document that is changed.

ghost use Rattle.std.specs.Prelude.{◌≡◌, true, codes, Some, IfOk, OnOk, string_bytes};
ghost use Rattle.sj_text_core.specs.Tree.{Tree, boolean};
ghost use Rattle.sj_text_core.specs.Grammar.{Spells};
ghost use Rattle.sj_text_core.specs.Keep.{keep};
ghost use Rattle.sj_text_core.specs.Find.{find};
ghost use Rattle.sj_text_core.specs.Print.{compact};
ghost use Rattle.sj_text_core.specs.Reads.{member_as, as_unsigned};
ghost use Rattle.sj_document.specs.Document.{document_tree, with_member};
ghost use Rattle.sj_pointer.specs.Pointed.{set_pointed};

use sj_owned::prelude::*;
use sj_owned::{AccessError, ErrorKind, JsonError, Refused, Value, to_value};
use sj_pointer::Pointer;
use std::alloc::Global;

/// The port of a configuration, where it has one.
pub fn port_of(alloc: Global, text: &mut [u8]) -> Result<Option<u16>, ErrorKind>
    ensures { IfOk result (λ port. (t : Tree) × Spells text.old t × (port ≡ member_as (as_unsigned 16) (find (codes "port") (keep t)))) }
{
    let settings = to_value(alloc, text)?;
    Ok(settings.get_u16("port"))
}

/// Sets a member: the whole document afterwards.
pub fn set_on(
    settings: &mut Value,
    key: String,
) -> Result<Option<Value>, Refused<AccessError, Value>>
    ensures { OnOk result (document_tree string_bytes settings.new ≡ with_member (string_bytes key) (boolean true) (document_tree string_bytes settings.old)) }
{
    settings.insert(key, Value::from(true))
}

/// Sets a member, which is then found.
pub fn set_found(
    settings: &mut Value,
    key: String,
) -> Result<Option<Value>, Refused<AccessError, Value>>
    ensures { OnOk result (find (string_bytes key) (document_tree string_bytes settings.new) ≡ Some (boolean true)) }
{
    settings.insert(key, Value::from(true))
}

/// The document with a value at a pointer.
pub fn patched(document: &mut Value, pointer: &Pointer, new: Value) -> bool
    ensures { document_tree string_bytes document.new ≡ set_pointed pointer.now (document_tree string_bytes new) (document_tree string_bytes document.old) }
{
    sj_path::owned::replace(document, pointer, new).is_ok()
}

/// The compact print of a text.
pub fn minified(alloc: Global, text: &mut [u8]) -> Result<String, JsonError>
    ensures { IfOk result (λ s. (t : Tree) × Spells text.old t × (string_bytes s ≡ compact (keep t))) }
{
    let document = to_value(alloc, text)?;
    Ok(document.encode(alloc)?)
}
