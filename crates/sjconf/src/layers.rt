//! Documents over documents.

ghost use Rattle.std.specs.Prelude.{◌≡◌, IfOk, map, string_bytes};
ghost use Rattle.sj_document.specs.Document.{document_tree};
ghost use Rattle.sjconf.specs.Layers.{layered};

use sj_merge::into_merged;
use sj_owned::Value;
use std::alloc::{AllocError, Global};

/// The document that the layers make, each merged over those before it (RFC 7396); a null where there
/// is none. Refused for want of memory, all are given up.
pub fn merge_all(alloc: Global, layers: Vec<Value>) -> Result<Value, AllocError>
    ensures { IfOk result (λ v. document_tree string_bytes v ≡ layered (map (document_tree string_bytes) layers.items)) }
{
    let mut left = layers.into_iter();
    let Some(mut whole) = left.next() else {
        return Ok(Value::null());
    };
    while let Some(layer) = left.next() {
        whole = into_merged(alloc, whole, layer)?;
    }
    Ok(whole)
}
