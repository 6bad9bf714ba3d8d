//! Pointers, as their tokens.

use std::marker::Model;

/// A JSON pointer (RFC 6901): the tokens by which a value is reached from the whole document, none
/// for the document itself. Contracts see it as the list of its tokens' bytes.
#[derive(Debug, Drop)]
pub struct Pointer {
    pub(crate) tokens: Vec<String>,
}

impl Model for Pointer {
    ghost use Rattle.std.specs.Prelude.{ℕ, List, map, string_bytes};

    ghost Value = { List (List ℕ) };

    ghost view = { λ p. map string_bytes p.tokens.items };
}

impl Pointer {
    ghost use Rattle.std.specs.Prelude.{◌≡◌, map, string_bytes};

    /// The pointer with these tokens, which are as they are decoded: a slash and a tilde in one
    /// stand for themselves.
    pub fn from_tokens(tokens: Vec<String>) -> Pointer
        ensures { result ≡ map string_bytes tokens.items }
    {
        Pointer { tokens }
    }

    /// The tokens in order, decoded, which the pointer gives up.
    pub fn into_tokens(self) -> Vec<String>
        ensures { map string_bytes result.items ≡ self }
    {
        self.tokens
    }

    /// The tokens in order, decoded.
    pub fn tokens(&self) -> &[String]
        ensures { map string_bytes result.now ≡ self.now }
    {
        self.tokens.as_slice()
    }
}
