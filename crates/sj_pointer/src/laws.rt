//! What holds of the definitions: each function's contract is a law, and its body is empty.

ghost use Rattle.sj_pointer.specs.Laws.{PlacesAreNumerals, TextsAreRead, TokensAreSpelled};

/// By the grammar of pointers a text spells its own tokens and no others, and none where it is refused.
pub fn tokens_are_spelled()
    ensures { TokensAreSpelled }
{}

/// A token names a position where it is a numeral of JSON that is no more than `usize::MAX`.
pub fn places_are_numerals()
    ensures { PlacesAreNumerals }
{}

/// The text that writes a pointer is one of which `pointer` makes the same pointer.
pub fn texts_are_read()
    ensures { TextsAreRead }
{}
