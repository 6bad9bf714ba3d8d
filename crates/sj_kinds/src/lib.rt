//! The kinds of JSON values, by their names (RFC 8259, section 3): `null`, `bool`, `number`,
//! `string`, `array` and `object`. Whatever carries a number, it is a number.
#![tactic(auto)]

mod kind;

pub use kind::Kind;
