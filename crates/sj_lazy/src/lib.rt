//! Lazy documents: a part of a tape until the first write, a document from then on.
//!
//! A [`Value`] means one tree throughout. While it is a part of a tape, reads answer from there and
//! build nothing, and repeats of a key are shown. The first call that writes makes it a document that
//! keeps the member of each key that counts, also where the call is then refused for the kind. A
//! refused upgrade leaves the value as it was.
//!
//! ```
//! let mut text = br#"{"key": "value", "snot": 42}"#.to_vec(alloc)?;
//! let tape = to_tape(alloc, text.as_mut_slice())?;
//! let mut value = Value::from_tape(tape.as_value());
//! value.get_str("key"); // Some("value"); still a tape
//! value.insert(alloc, CowStr::Borrowed("new"), BorrowedValue::from(42_u8))?; // a document from here on
//! value.encode(alloc)?; // {"key":"value","snot":42,"new":42}
//! ```
#![tactic(auto)]

pub mod array;
pub mod laws;
pub mod object;
pub mod prelude;
mod same_as_lazy;
mod upgrade;
mod value;

pub use array::Array;
pub use object::Object;
pub use same_as_lazy::SameAsLazy;
pub use sj_document::{BorrowedValue, Document, OwnedValue};
pub use sj_tape::{Buffers, Tape, to_tape, to_tape_with_buffers};
pub use sj_text_core::{
    AccessError, ErrorKind, ExtendedValueType, JsonError, Refused, Repeats, SameAs, StaticNode,
    TryMake, TryTypeError, TypedValue, ValueAsScalar, ValueObjectAccessAsScalar, ValueType,
    Writable, WriteError,
};
pub use upgrade::{Lent, Upgrade};
pub use value::{Lazy, Shared, Value, ValueCow};
