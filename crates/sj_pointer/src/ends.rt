//! The end of a pointer, and pointers put behind one another.

ghost use Rattle.std.specs.Prelude.{◌≡◌, ◌∷◌, ◌++◌, [], List, ℕ, map, string_bytes, IfNone, IfSome, IfOk, OnOk, OnErr, IfErr, IsTrue, ◌↔◌, option_to_list};

use crate::tokens::Pointer;
use std::alloc::{AllocError, AllocFailed};

/// A copy of the tokens, with room for so many more.
fn copy_tokens(pointer: &Pointer, more: usize) -> Result<Vec<String>, AllocError>
    ensures { IfOk result (λ v. map string_bytes v.items ≡ pointer.now) }
{
    let mut copies = Vec::with_capacity(
        *pointer.tokens.allocator(),
        pointer.tokens.len().saturating_add(more),
    )?;
    for token in &pointer.tokens {
        copies.push(token.clone()?)?;
    }
    Ok(copies)
}

impl Pointer {
    /// The last token, decoded; None of the pointer to the whole document.
    pub fn last(&self) -> Option<&str>
        ensures some { IfSome result (λ token. (front : List (List ℕ)) × (self.now ≡ front ++ token.now ∷ [])) }
        ensures none { IfNone result (self.now ≡ []) }
    {
        match self.tokens.as_slice() {
            [] => None,
            [.., token] => Some(token.as_str()),
        }
    }

    /// The pointer without its last token: to what holds the value that it reaches. None of the
    /// pointer to the whole document. It is refused only for want of memory.
    pub fn parent(&self) -> Result<Option<Pointer>, AllocError>
        ensures some { IfOk result (λ answer. IfSome answer (λ front. (token : List ℕ) × (self.now ≡ front ++ token ∷ []))) }
        ensures none { IfOk result (λ answer. IfNone answer (self.now ≡ [])) }
    {
        let mut parent = self.clone()?;
        match parent.pop() {
            Some(_) => Ok(Some(parent)),
            None => Ok(None),
        }
    }

    /// Puts a token behind the last one. Refused for want of memory, it comes back, and the pointer
    /// is as it was.
    pub fn push(&mut self, token: String) -> Result<(), AllocFailed<String>>
        ensures after { OnOk result (self.new ≡ self.old ++ string_bytes token ∷ []) }
        ensures refused { OnErr result (self.new ≡ self.old) }
        ensures returned { IfErr result (λ failed. failed.value ≡ token) }
    {
        self.tokens.push(token)
    }

    /// Takes the last token off; None where there is none.
    pub fn pop(&mut self) -> Option<String>
        ensures after { self.old ≡ self.new ++ map string_bytes (option_to_list result) }
        ensures none { IfNone result (self.old ≡ []) }
    {
        self.tokens.pop()
    }

    /// The pointer that goes on with the tokens of `rest`: it finds in a document what `rest` finds
    /// in what `self` finds. It is refused only for want of memory.
    pub fn join(&self, rest: &Pointer) -> Result<Pointer, AllocError>
        ensures { IfOk result (λ whole. whole ≡ self.now ++ rest.now) }
    {
        let mut tokens = copy_tokens(self, rest.tokens.len())?;
        for token in &rest.tokens {
            tokens.push(token.clone()?)?;
        }
        Ok(Pointer { tokens })
    }

    /// Whether the pointer's first tokens are those of `front`: it reaches into what `front` reaches,
    /// or the same.
    pub fn begins_with(&self, front: &Pointer) -> bool
        ensures { IsTrue result ↔ (rest : List (List ℕ)) × (self.now ≡ front.now ++ rest) }
    {
        self.tokens.starts_with(&front.tokens)
    }
}

/// A copy. It is refused only for want of memory.
impl Clone for Pointer {
    ghost is_clone = { λ a b. a ≡ b };

    fn clone(&self) -> Result<Pointer, AllocError> {
        Ok(Pointer {
            tokens: copy_tokens(self, 0)?,
        })
    }
}

impl PartialEq for Pointer {
    ghost use Rattle.std.specs.Prelude.{bytes_eq};
    ghost use Rattle.std.specs.Cmp.{partial_equiv_from_equiv};
    ghost use Rattle.std.specs.Cmp.Lexicographic.{lists_equiv, nat_list_eq_equiv};
    ghost use lib.Pointwise.{pointwise};

    ghost eq = { pointwise bytes_eq };

    ghost laws = { partial_equiv_from_equiv (lists_equiv nat_list_eq_equiv) };

    fn eq(&self, other: &Pointer) -> bool
        ensures answer { result ≡ pointwise bytes_eq self.now other.now }
        ensures same { IsTrue result ↔ (self.now ≡ other.now) }
    {
        self.tokens == other.tokens
    }
}

impl Eq for Pointer {
    ghost use Rattle.std.specs.Cmp.Lexicographic.{lists_equiv, nat_list_eq_equiv};

    ghost laws = { lists_equiv nat_list_eq_equiv };
}
