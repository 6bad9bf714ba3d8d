//! Comparisons.

use sj_text_core::{SameAs, StaticNode};
use std::alloc::{AllocError, Global};

/// Scalars, each with a number of its value.
const SCALARS: [(StaticNode, u8); 17] = [
    (StaticNode::Null, 0),
    (StaticNode::Bool(false), 1),
    (StaticNode::Bool(true), 2),
    (StaticNode::U64(1), 3),
    (StaticNode::I64(1), 3),
    (StaticNode::U128(1), 3),
    (StaticNode::I128(1), 3),
    (StaticNode::I64(-1), 4),
    (StaticNode::I128(-1), 4),
    (StaticNode::U64(0), 5),
    (StaticNode::I64(0), 5),
    (StaticNode::U128(0), 5),
    (StaticNode::I128(0), 5),
    (StaticNode::U128(u128::MAX), 6),
    (StaticNode::U64(u64::MAX), 7),
    (StaticNode::I64(i64::MIN), 8),
    (StaticNode::U64(9223372036854775808), 9),
];

#[test]
fn scalars_are_compared_by_value(rt: HostRuntime) {
    for &(left, mine) in &SCALARS {
        for &(right, other) in &SCALARS {
            assert!(rt; (left == right) == (mine == other), "{left} and {right}");
        }
    }
}

/// Whether null is a text.
fn null_is_text(alloc: Global) -> Result<bool, AllocError> {
    let text = String::from_str(alloc, "null")?;
    Ok(StaticNode::Null.same_as(&text))
}

#[test]
fn null_is_no_text(rt: HostRuntime) {
    assert!(rt; null_is_text(rt.alloc()) == Ok(false));
}
