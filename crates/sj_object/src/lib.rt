//! Ordered maps from texts, and the keys and hashers that they take; and the reading of texts to
//! documents of any type that says how it is made (`Builder`).
//!
//! ```
//! let mut map = HashMap::new(alloc);
//! map.insert(String::from_str(alloc, "a")?, 1)?; // None
//! map.insert(String::from_str(alloc, "b")?, 2)?; // None
//! map.insert(String::from_str(alloc, "a")?, 3)?; // Some(1): the key keeps its place
//! map.remove("a"); // Some(3), and `b` is the first
//! ```
#![tactic(auto)]

mod build;
mod builder;
mod hasher;
mod key;
pub mod laws;
mod map;
mod read;

pub use build::build_from_tape;
pub use builder::{Builder, Made, MapOf};
pub use hasher::{KeyHasher, NotSoRandomState, ObjectHasher};
pub use key::{KeyMade, KeyOf, KeyText};
pub use map::{HashMap, IntoIter, Iter, Keys, Room, Values};
pub use read::{deserialize, deserialize_repeats, deserialize_with_buffers};
pub use sj_tape::Buffers;
// Why so: docs/REFUSED.md, "`sj_object` and `sj_run` do not offer `Repeats`".
pub use sj_text_core::{ErrorKind, JsonError, Refused, StaticNode};
