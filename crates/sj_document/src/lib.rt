//! Document values: one generic type for values that own their texts and values that borrow them.
//!
//! ```
//! let mut value = OwnedValue::object(alloc)?;
//! value.insert(String::from_str(alloc, "n")?, OwnedValue::from(1_u8))?; // None
//! value.get_u8("n"); // Some(1)
//! value.push(OwnedValue::null()); // refused as no array; the null is handed back
//! ```
#![tactic(auto)]

mod value;

pub use sj_object::{Builder, HashMap, KeyText, Made, ObjectHasher};
pub use sj_text_core::{
    AccessError, ExtendedValueType, JsonError, Refused, SameAs, StaticNode, TryMake, TryTypeError,
    TypedValue, ValueAsScalar, ValueObjectAccessAsScalar, ValueType, Writable, WriteError,
};
pub use value::{
    BorrowedValue, Change, CopyText, Document, Leads, LendItem, LendMember, Object, OwnedValue,
    Replace, Taken, borrowed_from_tape, change_item, change_member, is_within_depth,
    owned_from_tape, replace_at, same, swap_item, swap_member, swap_token, update_at,
};
