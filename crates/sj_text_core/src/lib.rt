//! Scalars, kinds and faults, and the trees that documents mean.
//!
//! ```
//! let number = StaticNode::U64(300);
//! number.as_u16(); // Some(300)
//! number.as_u8(); // None: 300 is none
//! number == StaticNode::I64(300); // true: numbers are compared by value
//! ```
#![tactic(auto)]

mod bytes;
mod error;
mod json_error;
pub mod laws;
mod meaning;
mod object_access;
mod patch_fault;
mod refused;
mod repeats;
mod same_as;
mod same_with;
mod scalar;
mod static_node;
mod steps;
mod try_make;
mod typed_value;
mod value_as_scalar;
mod value_type;
mod writable;

pub use bytes::{are_same_bytes, are_same_texts};
pub use error::{AccessError, BadTape, ErrorKind, PointerError, WriteError};
pub use json_error::{JsonError, Reason};
pub use meaning::Meaning;
pub use object_access::ValueObjectAccessAsScalar;
pub use patch_fault::{ItemFault, OperationFault, PatchFault, PatchReadFault};
pub use refused::Refused;
pub use repeats::Repeats;
pub use same_as::SameAs;
pub use same_with::SameWith;
pub use scalar::Scalar;
pub use static_node::StaticNode;
pub use steps::Steps;
pub use try_make::TryMake;
pub use typed_value::TypedValue;
pub use value_as_scalar::ValueAsScalar;
pub use value_type::{ExtendedValueType, TryTypeError, ValueType};
pub use writable::Writable;
