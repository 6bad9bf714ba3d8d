//! What is printed.

ghost use Rattle.std.specs.Prelude.{◌≡◌, ◌∷◌, ◌++◌, [], IfOk, if◌then◌else◌, string_bytes};
ghost use Rattle.sj_text_core.specs.Print.{compact, pretty};
ghost use Rattle.sj_document.specs.Document.{document_tree};

use sj_owned::prelude::*;
use sj_owned::{Value, WriteError};
use std::alloc::Global;

/// The value's print and a line feed; with `is_pretty` it is indented by two spaces a level.
pub fn print_of(alloc: Global, value: &Value, is_pretty: bool) -> Result<Vec<u8>, WriteError>
    ensures { IfOk result (λ text. text.items ≡ (if is_pretty then pretty 0 (document_tree string_bytes value.now) else compact (document_tree string_bytes value.now)) ++ 10 ∷ []) }
{
    let mut text = Vec::new(alloc);
    if is_pretty {
        value.write_pp(&mut text)?;
    } else {
        value.write(&mut text)?;
    }
    text.push(b'\n')?;
    Ok(text)
}

/// The characters of a text and a line feed; of any other value its print.
pub fn raw_of(alloc: Global, value: &Value, is_pretty: bool) -> Result<Vec<u8>, WriteError> {
    match value.as_str() {
        Some(text) => {
            let mut bytes = text.as_bytes().to_vec(alloc)?;
            bytes.push(b'\n')?;
            Ok(bytes)
        }
        None => print_of(alloc, value, is_pretty),
    }
}
