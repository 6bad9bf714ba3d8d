//! The texts that are read.

ghost use Rattle.std.specs.Prelude.{◌≡◌, IfErr};
ghost use Rattle.refusals_common.specs.Faults.{untold, unread};

use crate::fault::Fault;
use sj_text_core::ErrorKind;
use std::alloc::{AllocError, Global};

/// The text of that name, in bytes of its own: the first example where the name is empty. A number
/// names an object of so many members. A name that no text has is a fault of usage.
pub fn text_of(alloc: Global, name: &str) -> Result<Vec<u8>, Fault>
    ensures { IfErr result (λ why. why ≡ untold name.now) }
{
    match name {
        "" | "example" => Ok(b"{\"some\": [\"key\", \"value\", 2]}".to_vec(alloc)?),
        "repeat" => Ok(numbered(alloc, 32, ",\"k00\":99}")?),
        "0" => Ok(numbered(alloc, 0, "}")?),
        "32" => Ok(numbered(alloc, 32, "}")?),
        "64" => Ok(numbered(alloc, 64, "}")?),
        "items" => Ok(records(alloc, 300)?),
        "members" => Ok(named_records(alloc, 1024)?),
        "escapes" => Ok(b"{\"q\\\"k\":\"a\\/b\\u0041\"}".to_vec(alloc)?),
        "kinds" => Ok(KINDS.as_bytes().to_vec(alloc)?),
        _ => Err(Fault::Usage),
    }
}

/// What was read. A text that was not read is a fault of usage, unless memory was refused.
pub fn read<D: Drop>(read: Result<D, ErrorKind>) -> Result<D, Fault>
    ensures read { (d : D) → read ≡ Ok d → result ≡ Ok d }
    ensures unread { (why : ErrorKind) → read ≡ Err why → result ≡ Err (unread why) }
{
    match read {
        Ok(document) => Ok(document),
        Err(ErrorKind::OutOfMemory) => Err(Fault::OutOfMemory),
        Err(_) => Err(Fault::Usage),
    }
}

/// An array of so many objects, each with its position as the member `n` and a list as another.
fn records(alloc: Global, items: usize) -> Result<Vec<u8>, AllocError> {
    let mut text = String::from_str(alloc, "[")?;
    for i in 0..items {
        let comma = if i == 0 { "" } else { "," };
        text.push_str(format!(in alloc; "{comma}{{\"n\":{i},\"list\":[1,2,3,4,5,6]}}")?.as_str())?;
    }
    text.push(']')?;
    Ok(text.into_bytes())
}

/// An object of so many members, each an object with its position as the member `n` and a list as
/// another.
fn named_records(alloc: Global, members: usize) -> Result<Vec<u8>, AllocError> {
    let mut text = String::from_str(alloc, "{")?;
    for i in 0..members {
        let comma = if i == 0 { "" } else { "," };
        text.push_str(format!(in alloc;
            "{comma}\"key {i}\":{{\"n\":{i},\"list\":[1,2,3,4,5,6]}}"
        )?.as_str())?;
    }
    text.push('}')?;
    Ok(text.into_bytes())
}

/// An object with a member of each kind.
const KINDS: &str =
    "{\"null\":null,\"bool\":true,\"int\":7,\"str\":\"s\",\"array\":[7],\"object\":{\"int\":7}}";

/// An object of so many members, `k00` with 0, `k01` with 1 and so on, and of what stands behind
/// them.
fn numbered(alloc: Global, members: usize, behind: &str) -> Result<Vec<u8>, AllocError> {
    let mut text = String::from_str(alloc, "{")?;
    for i in 0..members {
        let comma = if i == 0 { "" } else { "," };
        text.push_str(format!(in alloc; "{comma}\"k{i:02}\":{i}")?.as_str())?;
    }
    text.push_str(behind)?;
    Ok(text.into_bytes())
}
