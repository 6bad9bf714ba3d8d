//! Tokens that lead into a document, and the pointers that they make.

ghost use Rattle.std.specs.Prelude.{◌≡◌, map, string_bytes, IfOk};
ghost use Rattle.sj_patch.specs.inner.Noted.{token_meant};

use sj_pointer::Pointer;
use std::alloc::{AllocError, Global};

/// The key of a member, or the position of an item.
#[derive(Clone, Copy)]
pub(crate) enum Token<'d> {
    Key(&'d str),
    Position(usize),
}

/// The text of a token.
pub(crate) fn text_of(alloc: Global, token: Token) -> Result<String, AllocError>
    ensures { IfOk result (λ s. string_bytes s ≡ token_meant token.entry) }
{
    match token {
        Token::Key(key) => String::from_str(alloc, key),
        Token::Position(position) => format!(in alloc; "{position}"),
    }
}

/// The pointer of the tokens.
pub(crate) fn pointer_of(alloc: Global, tokens: &[Token]) -> Result<Pointer, AllocError>
    ensures { IfOk result (λ pointer. pointer ≡ map token_meant tokens.now) }
{
    let mut texts = Vec::with_capacity(alloc, tokens.len())?;
    for token in tokens {
        texts.push(text_of(alloc, *token)?)?;
    }
    Ok(Pointer::from_tokens(texts))
}
