//! Where values stand, as words and shapes name it.

use sj_pointer::{Pointer, PointerError, pointer};
use std::alloc::{AllocError, Global};

/// The pointer to what a word names: the word itself where it is empty or begins with a slash, else
/// keys with a dot between each two. Refused is a pointer with a tilde that has neither a 0 nor a 1
/// behind it.
pub fn pointer_of(alloc: Global, word: &str) -> Result<Pointer, PointerError> {
    if word.is_empty() || word.starts_with('/') {
        return pointer(alloc, word);
    }
    Ok(Pointer::from_tokens(keys_between_dots(alloc, word)?))
}

/// The keys between the dots.
fn keys_between_dots(alloc: Global, word: &str) -> Result<Vec<String>, AllocError> {
    let mut keys = Vec::new(alloc);
    for key in word.split('.') {
        keys.push(String::from_str(alloc, key)?)?;
    }
    Ok(keys)
}
