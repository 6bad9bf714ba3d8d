//! The words that name a call.

ghost use Rattle.std.specs.Prelude.{◌≡◌, [], MatchOption, slice_get, string_bytes};

/// The word at that place; empty where there is none.
pub fn word(words: &[String], place: usize) -> &str
    ensures { MatchOption (slice_get words.now place) (result.now ≡ []) (λ w. result.now ≡ string_bytes w) }
{
    match words.get(place) {
        Some(word) => word.as_str(),
        None => "",
    }
}
