//! The traits whose calls a value has: `use sj_owned::prelude::*;` brings them in.
//!
//! They are the same in `sj_owned`, `sj_borrowed` and `sj_lazy`: kinds (`TypedValue`), scalars
//! (`ValueAsScalar`), members that are scalars (`ValueObjectAccessAsScalar`), prints (`Writable`),
//! comparisons with values of other types (`SameAs`), and values made of texts, lists and maps
//! (`TryMake`).

pub use sj_text_core::{
    SameAs, TryMake, TypedValue, ValueAsScalar, ValueObjectAccessAsScalar, Writable,
};
