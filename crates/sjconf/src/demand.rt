//! What has to stand at a place of a document.

ghost use Rattle.std.specs.Prelude.{◌≡◌, ◌↔◌, IsTrue, map, string_bytes};
ghost use Rattle.sj_text_core.specs.Tree.{keys_of};
ghost use Rattle.sj_object.specs.Members.{entry_members};
ghost use Rattle.sj_document.specs.Document.{document_tree};
ghost use Rattle.sjconf.specs.Demands.{Admits, IsAsLong, IsAsShort, IsAtLeast, IsAtMost, IsKind, IsMet, IsWanted, Suits, are_of, characters, has_only, is_choice, is_one_of, is_same_as_one, length_in};

use sj_kinds::Kind;
use sj_owned::prelude::*;
use sj_owned::{Object, Value};
use sj_path::owned::find;
use sj_pointer::Pointer;

/// Which values may stand at a place, by their kinds and sizes.
#[derive(Clone, Copy, Debug)]
pub struct Limits {
    pub kind: Option<Kind>,
    /// The least whole number.
    pub least: Option<i128>,
    pub most: Option<i128>,
    /// The least number of a text's characters or an array's items.
    pub shortest: Option<usize>,
    pub longest: Option<usize>,
}

/// What has to stand at a place.
#[derive(Debug, Drop)]
pub struct Demand {
    pub place: Pointer,
    /// Whether something has to stand there.
    pub is_required: bool,
    pub limits: Limits,
    /// The values of which it has to be one.
    pub choices: Option<Vec<Value>>,
    /// The keys that an object may have.
    pub keys: Option<Vec<String>>,
}

/// Whether the value is of the kind, where one is asked for.
fn is_kind(value: &Value, kind: Option<Kind>) -> bool
    ensures { IsTrue result ↔ IsKind kind (document_tree string_bytes value.now) }
{
    match kind {
        Some(kind) => Kind::of(value) == kind,
        None => true,
    }
}

/// Whether the value is a whole number that is no less, where an end is asked for.
fn is_at_least(value: &Value, least: Option<i128>) -> bool
    ensures { IsTrue result ↔ IsAtLeast least (document_tree string_bytes value.now) }
{
    let Some(least) = least else {
        return true;
    };
    match value.as_i128() {
        Some(number) => least <= number,
        None => value.is_u128(),
    }
}

/// Whether the value is a whole number that is no more, where an end is asked for.
fn is_at_most(value: &Value, most: Option<i128>) -> bool
    ensures { IsTrue result ↔ IsAtMost most (document_tree string_bytes value.now) }
{
    let Some(most) = most else {
        return true;
    };
    match value.as_i128() {
        Some(number) => number <= most,
        None => false,
    }
}

/// How many characters the text has.
fn count_characters(text: &str) -> usize
    ensures { result ≡ characters text.now }
{
    let mut count = 0;
    for byte in text.as_bytes() {
        if !(128..192).contains(byte) {
            count += 1;
        }
    }
    count
}

/// How many characters a text has, or an array items; None of any other value.
fn length_of(value: &Value) -> Option<usize>
    ensures { result ≡ length_in (document_tree string_bytes value.now) }
{
    match value.as_str() {
        Some(text) => Some(count_characters(text)),
        None => Some(value.as_array()?.len()),
    }
}

/// Whether the value has a length that is no less, where an end is asked for.
fn is_as_long(value: &Value, shortest: Option<usize>) -> bool
    ensures { IsTrue result ↔ IsAsLong shortest (document_tree string_bytes value.now) }
{
    let Some(shortest) = shortest else {
        return true;
    };
    match length_of(value) {
        Some(length) => shortest <= length,
        None => false,
    }
}

/// Whether the value has a length that is no more, where an end is asked for.
fn is_as_short(value: &Value, longest: Option<usize>) -> bool
    ensures { IsTrue result ↔ IsAsShort longest (document_tree string_bytes value.now) }
{
    let Some(longest) = longest else {
        return true;
    };
    match length_of(value) {
        Some(length) => length <= longest,
        None => false,
    }
}

/// Whether the value is the same as one of those.
fn is_among(value: &Value, choices: &[Value]) -> bool
    ensures { result ≡ is_same_as_one (document_tree string_bytes value.now) choices.now }
{
    let mut rest = choices;
    while let [first, behind @ ..] = rest {
        if value == first {
            return true;
        }
        rest = behind;
    }
    false
}

/// Whether the value is one of the choices, where there are any.
fn is_chosen(value: &Value, choices: &Option<Vec<Value>>) -> bool
    ensures { result ≡ is_choice choices.now (document_tree string_bytes value.now) }
{
    match choices {
        Some(choices) => is_among(value, choices),
        None => true,
    }
}

/// Whether the key is one of those.
pub fn is_key_of(key: &str, keys: &[String]) -> bool
    ensures { result ≡ is_one_of key.now (map string_bytes keys.now) }
{
    let mut rest = keys;
    while let [first, behind @ ..] = rest {
        if first.as_str() == key {
            return true;
        }
        rest = behind;
    }
    false
}

/// Whether each member has one of those keys.
fn are_keys_of(members: &Object, keys: &[String]) -> bool
    ensures { result ≡ are_of (map string_bytes keys.now) (keys_of (entry_members (document_tree string_bytes) members.now.entries)) }
{
    let mut left = members.iter();
    while let Some((key, _)) = left.next() {
        if !is_key_of(key.as_str(), keys) {
            return false;
        }
    }
    true
}

/// Whether an object has no other keys, where they are asked for.
fn has_keys(value: &Value, keys: &Option<Vec<String>>) -> bool
    ensures { result ≡ has_only keys.now (document_tree string_bytes value.now) }
{
    match keys {
        Some(keys) => match value.as_object() {
            Some(members) => are_keys_of(members, keys),
            None => true,
        },
        None => true,
    }
}

impl Limits {
    /// Whether the value is within them.
    fn admit(&self, value: &Value) -> bool
        ensures { IsTrue result ↔ Admits self.now (document_tree string_bytes value.now) }
    {
        is_kind(value, self.kind)
            && is_at_least(value, self.least)
            && is_at_most(value, self.most)
            && is_as_long(value, self.shortest)
            && is_as_short(value, self.longest)
    }
}

impl Demand {
    /// Whether the value is what is asked for, whatever its keys.
    pub fn is_wanted(&self, value: &Value) -> bool
        ensures { IsTrue result ↔ IsWanted self.now (document_tree string_bytes value.now) }
    {
        self.limits.admit(value) && is_chosen(value, &self.choices)
    }

    /// Whether the value is what is asked for, and has no other keys.
    fn fits(&self, value: &Value) -> bool
        ensures { IsTrue result ↔ Suits self.now (document_tree string_bytes value.now) }
    {
        self.is_wanted(value) && has_keys(value, &self.keys)
    }

    /// Whether what stands at the place is what is asked for.
    pub fn is_met(&self, document: &Value) -> bool
        ensures { IsTrue result ↔ IsMet self.now (document_tree string_bytes document.now) }
    {
        match find(document, &self.place) {
            Some(value) => self.fits(value),
            None => !self.is_required,
        }
    }
}
