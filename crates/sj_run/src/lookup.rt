//! Members looked up by their keys: by text, or by known key.

ghost use Rattle.std.specs.Prelude.{◌≡◌, option_map};
ghost use Rattle.std.specs.Borrow.{sem};
ghost use Rattle.std.specs.Option.{option_copied_mut};
ghost use Rattle.sj_text_core.specs.Find.{find};
ghost use Rattle.sj_object.specs.Edits.{lookup};
ghost use Rattle.sj_borrowed.specs.Loans.{LendsKnown};
ghost use Rattle.sj_document.specs.Document.{document_tree};

use crate::document::Way;
use sj_borrowed::KnownKey;
use sj_document::Document;
use sj_object::{HashMap, KeyText, ObjectHasher};

/// The value of the key; None where it is absent, and on a non-object.
pub(crate) fn member<'v, T: KeyText>(
    value: &'v Document<T>,
    way: Way,
    key: &str,
) -> Option<&'v Document<T>>
    ensures { option_map (λ v. document_tree T.text_of v.now) result ≡ find key.now (document_tree T.text_of value.now) }
{
    match way {
        Way::ByText => value.get(key),
        Way::ByKnownKey => KnownKey::from(key).lookup(value),
    }
}

/// The value of the key, to write. The map is then as it was, with what the reference last held in
/// the place of that value.
pub(crate) fn member_mut<'m, K: KeyText, V>(
    map: &'m mut HashMap<K, V, ObjectHasher>,
    way: Way,
    key: &str,
) -> Option<&'m mut V>
    ensures* writes_back { sem 𝓛 (LendsKnown K.row V.row K.KeyText map.entry key.now result) }
    ensures value { option_copied_mut result ≡ lookup key.now map.old.entries }
{
    if let Way::ByKnownKey = way {
        // Why so: docs/REFUSED.md, "The steps of a command's write by known key".
        return KnownKey::map_lookup_mut(map, &KnownKey::from(key));
    }
    map.get_mut(key)
}
