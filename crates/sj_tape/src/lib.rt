//! Tapes: the nodes of one tree in preorder, the reader that makes them of a text, and reads of
//! them.
//!
//! The texts of a tape lie in the bytes that were read. A part of a tape (`Value`) is a few words
//! that may be copied; reads of it take no memory, and pass a member or an item over by its node's
//! count, however much lies inside it. A tape shows every member, repeats too; which one of several
//! with one key a look-up finds, the first or the last, is a choice (`Repeats`) that each part
//! carries.
//!
//! ```
//! let tape = to_tape(alloc, bytes)?; // {"the_answer": 42, "texts": ["a", "b"]}
//! let value = tape.as_value();
//! value.get_u64("the_answer"); // Some(42)
//! value.try_get("does_not_exist")?; // None
//! value.try_get_str("the_answer"); // a fault: expected a text, got a number
//! value.get("texts").and_then(|v| v.get_idx(1)); // the text b
//! value.encode(alloc)?; // {"the_answer":42,"texts":["a","b"]}
//! ```
#![tactic(auto)]

pub mod array;
mod item_places;
mod key_tags;
mod landmarks;
pub mod laws;
mod node;
mod node_list;
mod nodes;
pub mod object;
mod packed;
mod preorder;
mod reader;
mod search;
mod stored_node;
mod tag;
mod tape;
mod value;

pub use array::Array;
pub use node::Node;
pub use nodes::Nodes;
pub use object::Object;
pub use reader::{
    Buffers, DEPTH_LIMIT, Spare, to_bare_tape, to_bare_tape_with_buffers, to_tape,
    to_tape_with_buffers, to_tape_with_spare,
};
pub use sj_print::{
    BaseGenerator, DumpGenerator, PrettyGenerator, PrettyWriterGenerator, WriterGenerator,
};
pub use sj_text_core::{
    AccessError, BadTape, ErrorKind, ExtendedValueType, JsonError, Meaning, Refused, Repeats,
    SameAs, SameWith, Scalar, StaticNode, Steps, TryMake, TryTypeError, TypedValue, ValueAsScalar,
    ValueObjectAccessAsScalar, ValueType, Writable, WriteError, are_same_bytes,
};
pub use tape::Tape;
pub use value::Value;
