//! Documents that own their texts.
//!
//! A `Value` is a null, a truth value or a whole number (`Static`), a text, an array or an object.
//! It means one tree in which no object has two members of one key, whatever it was made from, and
//! each of its calls answers and changes that tree. The calls stand at `sj_document::Document`,
//! which has one body for this form and for the one that borrows its texts. Its own are the
//! `TryMake`s: of texts, of borrowed values, and of a map of std, whose pairs come in byte order.
//!
//! ```
//! let mut bytes = b"{\"some\":[\"key\",\"value\",2],\"some\":3}".to_vec(alloc)?;
//! let mut value = sj_owned::to_value(alloc, bytes.as_mut_slice())?;
//! value.get("some").and_then(|some| some.get_idx(2)); // the number 2
//! value.insert(String::from_str(alloc, "n")?, Value::from(true))?;
//! if let Some(some) = value.get_mut("some") {
//!     some.push(Value::null())?;
//! }
//! value.remove("n")?; // Some, a true
//! println!(rt; "{value}")?; // {"some":["key","value",2,null]}
//! ```
#![tactic(auto)]

mod copied;
pub mod laws;
pub mod prelude;
mod read;

pub use copied::{from_slice, from_str};
pub use read::{
    to_owned_value, to_owned_value_with_buffers, to_value, to_value_repeats, to_value_with_buffers,
};
pub use sj_document::{
    Change, OwnedValue, Replace, Taken, change_item, change_member, owned_from_tape, replace_at,
    same,
};
pub use sj_object::{HashMap, ObjectHasher};
pub use sj_tape::Buffers;
pub use sj_text_core::{
    AccessError, ErrorKind, ExtendedValueType, JsonError, Refused, Repeats, SameAs, StaticNode,
    TryMake, TryTypeError, TypedValue, ValueAsScalar, ValueObjectAccessAsScalar, ValueType,
    Writable, WriteError,
};

/// A document that owns its texts.
pub type Value = OwnedValue;

/// The members of an object, in the order of their insertion.
pub type Object = sj_document::Object<String>;

/// The items of an array.
pub type Array = Vec<Value>;
