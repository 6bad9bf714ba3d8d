//! Two operations of a patch (RFC 6902): the whole document afterwards, and refused, the document as it
//! was.

ghost use Rattle.std.specs.Prelude.{◌≡◌, Some, OnErr, OnOk, option_map, string_bytes};
ghost use Rattle.sj_document.specs.Document.{document_tree};
ghost use Rattle.sj_uses.specs.Patch.{with_token, without_token, added, removed};

use sj_document::Change;
use sj_owned::prelude::*;
use sj_owned::{AccessError, JsonError, Refused, Value};
use sj_path::{Pointer, owned, position};

/// Where a value is put or taken out: the place of the container, and the token in it; none for the
/// whole document.
#[derive(Drop)]
pub struct Place {
    pub parent: Pointer,
    pub last: Option<String>,
}

/// Why a document was not patched.
#[derive(Clone, Copy, Debug, PartialEq, Eq)]
pub enum PatchError {
    /// Nothing stands there.
    Missing,
    Json(JsonError),
}

impl From<AccessError> for PatchError {
    fn from(error: AccessError) -> PatchError {
        PatchError::Json(JsonError::from(error))
    }
}

impl From<Refused<AccessError, Value>> for PatchError {
    fn from(refused: Refused<AccessError, Value>) -> PatchError {
        PatchError::Json(JsonError::from(refused))
    }
}

/// Puts a value at a token of a container.
#[derive(Drop)]
struct Put {
    token: String,
    value: Value,
}

impl Change<Value> for Put {
    type Answer = Result<(), PatchError>;

    ghost makes = { λ c v w r. OnOk r (Some (document_tree string_bytes w) ≡ with_token (string_bytes c.token) (document_tree string_bytes c.value) (document_tree string_bytes v)) × OnErr r (document_tree string_bytes w ≡ document_tree string_bytes v) };

    fn change(self, container: &mut Value) -> Result<(), PatchError> {
        let Put { token, value } = self;
        put_in(container, token, value)
    }
}

/// Takes what is at a token out of a container.
#[derive(Drop)]
struct Take<'t> {
    token: &'t str,
}

impl<'t> Change<Value> for Take<'t> {
    type Answer = Result<Value, PatchError>;

    ghost makes = { λ c v w r. OnOk r (Some (document_tree string_bytes w) ≡ without_token c.token.now (document_tree string_bytes v)) × OnErr r (document_tree string_bytes w ≡ document_tree string_bytes v) };

    fn change(self, container: &mut Value) -> Result<Value, PatchError> {
        take_from(container, self.token)
    }
}

/// Puts the value into the container.
fn put_in(container: &mut Value, token: String, new: Value) -> Result<(), PatchError>
    ensures done { OnOk result (Some (document_tree string_bytes container.new) ≡ with_token (string_bytes token) (document_tree string_bytes new) (document_tree string_bytes container.old)) }
    ensures kept { OnErr result (document_tree string_bytes container.new ≡ document_tree string_bytes container.old) }
{
    if container.is_object() {
        container.insert(token, new)?;
        return Ok(());
    }
    if token.as_str() == "-" {
        container.push(new)?;
        return Ok(());
    }
    match (position(token.as_str()), container.array_len()) {
        (Some(at), Some(len)) if at <= len => {
            container.insert_idx(at, new)?;
            Ok(())
        }
        _ => Err(PatchError::Missing),
    }
}

/// Takes out of the container what is at the token.
fn take_from(container: &mut Value, token: &str) -> Result<Value, PatchError>
    ensures done { OnOk result (Some (document_tree string_bytes container.new) ≡ without_token token.now (document_tree string_bytes container.old)) }
    ensures kept { OnErr result (document_tree string_bytes container.new ≡ document_tree string_bytes container.old) }
{
    if container.is_object() {
        return match container.remove(token)? {
            Some(old) => Ok(old),
            None => Err(PatchError::Missing),
        };
    }
    let Some(at) = position(token) else {
        return Err(PatchError::Missing);
    };
    match container.remove_idx(at)? {
        Some(old) => Ok(old),
        None => Err(PatchError::Missing),
    }
}

/// The operation `add`. Refused, the document is as it was, and the value is let go.
pub fn add(document: &mut Value, place: Place, new: Value) -> Result<(), PatchError>
    ensures done { OnOk result (Some (document_tree string_bytes document.new) ≡ added (place.parent, option_map string_bytes place.last) (document_tree string_bytes new) (document_tree string_bytes document.old)) }
    ensures kept { OnErr result (document_tree string_bytes document.new ≡ document_tree string_bytes document.old) }
{
    let Place { parent, last } = place;
    let Some(token) = last else {
        *document = new;
        return Ok(());
    };
    match owned::update(document, &parent, Put { token, value: new }) {
        Ok(answer) => answer,
        Err(_) => Err(PatchError::Missing),
    }
}

/// The operation `remove`, which answers what it took out. Refused, the document is as it was.
pub fn remove(document: &mut Value, place: &Place) -> Result<Value, PatchError>
    ensures done { OnOk result (Some (document_tree string_bytes document.new) ≡ removed (place.now.parent, option_map string_bytes place.now.last) (document_tree string_bytes document.old)) }
    ensures kept { OnErr result (document_tree string_bytes document.new ≡ document_tree string_bytes document.old) }
{
    let Some(token) = &place.last else {
        return Err(PatchError::Missing);
    };
    match owned::update(
        document,
        &place.parent,
        Take {
            token: token.as_str(),
        },
    ) {
        Ok(answer) => answer,
        Err(_) => Err(PatchError::Missing),
    }
}
