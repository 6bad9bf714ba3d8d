//! Messages: a part of a tape, and a document asked by a known key.

ghost use Rattle.std.specs.Prelude.{◌≡◌, codes, true, option_map, option_and_then, string_bytes, IsSome};
ghost use Rattle.std.specs.Cow.{cow_str_bytes};
ghost use Rattle.sj_text_core.specs.Find.{find};
ghost use Rattle.sj_text_core.specs.Reads.{as_text};
ghost use Rattle.sj_document.specs.Document.{document_tree};
ghost use Rattle.sj_tape.specs.Value.{tape_found};

use sj_borrowed::KnownKey;
use sj_owned::Value;
use sj_tape::Value as Part;

/// The topic of a message.
pub fn topic_of<'i>(message: Part<'_, 'i>) -> Option<&'i str>
    ensures { option_map (λ s. s.now) result ≡ option_and_then as_text (tape_found message.entry (codes "topic")) }
{
    message.get("topic")?.into_string()
}

/// Whether a document has the known key.
pub fn has_known(document: &Value, key: &KnownKey<'_>) -> bool
    ensures { result ≡ true → IsSome (find (cow_str_bytes key.now) (document_tree string_bytes document.now)) }
{
    key.lookup(document).is_some()
}
