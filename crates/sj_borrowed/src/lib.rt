//! Documents that borrow their texts.
//!
//! A `Value` is a null, a truth value or a whole number (`Static`), a text, an array or an object.
//! It means one tree in which no object has two members of one key, whatever it was made from, and
//! each of its calls answers and changes that tree. As it is read, each of its texts and keys lies
//! in the bytes that were read. The calls stand at `sj_document::Document`, which has one body for
//! this form and for the one that owns its texts. Its own are the `From`s of lent texts,
//! `clone_static` and `into_static`, the `TryMake` of an owned value, and known keys.
//!
//! ```
//! let mut bytes = b"{\"some\":[\"key\",\"value\",2],\"some\":3}".to_vec(alloc)?;
//! let mut value = sj_borrowed::to_value(alloc, bytes.as_mut_slice())?;
//! value.contains_key("some"); // true
//! value.insert(CowStr::Borrowed("n"), Value::from("lent"))?;
//! value.get_str("n"); // Some("lent")
//! let copy = value.clone_static(alloc)?;
//! value.pop(); // refused: an object is no array
//! println!(rt; "{copy}")?; // {"some":["key","value",2],"n":"lent"}
//! ```
#![tactic(auto)]

mod copied;
pub mod known_key;
pub mod laws;
pub mod prelude;
mod read;

pub use copied::{from_slice, from_str};
pub use known_key::KnownKey;
pub use read::{
    to_borrowed_value, to_borrowed_value_with_buffers, to_value, to_value_repeats,
    to_value_with_buffers,
};
pub use sj_document::{
    BorrowedValue, Change, Replace, Taken, borrowed_from_tape, change_item, change_member,
    replace_at, same,
};
pub use sj_object::{HashMap, ObjectHasher};
pub use sj_tape::Buffers;
pub use sj_text_core::{
    AccessError, ErrorKind, ExtendedValueType, JsonError, Refused, Repeats, SameAs, StaticNode,
    TryMake, TryTypeError, TypedValue, ValueAsScalar, ValueObjectAccessAsScalar, ValueType,
    Writable, WriteError,
};
use std::borrow::CowStr;

/// A document whose texts are lent where they were read, or given so.
pub type Value<'v> = BorrowedValue<'v>;

/// The members of an object, in the order of their insertion.
pub type Object<'v> = sj_document::Object<CowStr<'v>>;

/// The items of an array.
pub type Array<'v> = Vec<Value<'v>>;
