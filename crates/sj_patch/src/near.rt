//! Members looked for in their own place first.

ghost use Rattle.std.specs.Prelude.{◌≡◌, Some, IfSome};
ghost use Rattle.std.specs.Option.{option_copied};
ghost use Rattle.sj_object.specs.Edits.{lookup};

use sj_document::{Document, Object};
use sj_object::KeyText;
use sj_text_core::are_same_texts;

/// The value of the key, where `near` is a member that may have it: it is looked at first.
pub(crate) fn value_near<'m, T: KeyText>(
    members: &'m Object<T>,
    near: Option<(&'m T, &'m Document<T>)>,
    key: &str,
) -> Option<&'m Document<T>>
    requires { IfSome near (λ p. lookup (T.text_of p.0.now) members.now.entries ≡ Some p.1.now) }
    ensures { option_copied result ≡ lookup key.now members.now.entries }
{
    match near {
        Some((name, value)) if are_same_texts(name.text(), key) => Some(value),
        _ => members.get(key),
    }
}
