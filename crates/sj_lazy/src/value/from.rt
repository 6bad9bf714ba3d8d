//! Lazy values of what documents are made of. Each owns its document.

ghost use Rattle.std.specs.Prelude.{◌≡◌, ℤ, pos, Some, IfOk, MatchOption, string_bytes};
ghost use Rattle.std.specs.Cow.{cow_str_bytes};
ghost use Rattle.sj_lazy.specs.Value.{owned};
ghost use Rattle.sj_text_core.specs.Scalars.{static_tree};
ghost use Rattle.sj_text_core.specs.Tree.{null, boolean, int, text, list, obj, no_items, no_members, i64, u64, i128, u128};

use super::{Lazy, Shared, Value};
use sj_document::{BorrowedValue, Document};
use sj_object::KeyText;
use sj_text_core::StaticNode;
use std::alloc::{AllocError, Global};
use std::borrow::CowStr;

impl<'b, 't, 'i> Value<'b, 't, 'i> {
    /// An empty array.
    pub fn array(alloc: Global) -> Result<Self, AllocError>
        ensures { IfOk result (λ v. owned cow_str_bytes v ≡ Some (list no_items)) }
    {
        Ok(Lazy::Value(Shared::Owned(Document::array(alloc)?)))
    }

    /// An empty array with room for that many items.
    pub fn array_with_capacity(alloc: Global, capacity: usize) -> Result<Self, AllocError>
        ensures { IfOk result (λ v. owned cow_str_bytes v ≡ Some (list no_items)) }
    {
        let document = Document::array_with_capacity(alloc, capacity)?;
        Ok(Lazy::Value(Shared::Owned(document)))
    }

    /// An empty object.
    pub fn object(alloc: Global) -> Result<Self, AllocError>
        ensures { IfOk result (λ v. owned cow_str_bytes v ≡ Some (obj no_members)) }
    {
        Ok(Lazy::Value(Shared::Owned(Document::object(alloc)?)))
    }

    /// An empty object with room for that many members.
    pub fn object_with_capacity(alloc: Global, capacity: usize) -> Result<Self, AllocError>
        ensures { IfOk result (λ v. owned cow_str_bytes v ≡ Some (obj no_members)) }
    {
        let document = Document::object_with_capacity(alloc, capacity)?;
        Ok(Lazy::Value(Shared::Owned(document)))
    }
}

/// The document.
impl<'b, 't, 'i> From<BorrowedValue<'i>> for Value<'b, 't, 'i> {
    ghost use Rattle.sj_lazy.specs.declared.value.Lazy.TheVariants.{Value};
    ghost use Rattle.sj_lazy.specs.declared.value.Shared.TheVariants.{Owned};

    ghost from_gives = { λ d v. v ≡ Value (Owned d) };

    fn from(document: BorrowedValue<'i>) -> Self {
        Lazy::Value(Shared::Owned(document))
    }
}

/// The scalar, with its carrier.
impl<'b, 't, 'i> From<StaticNode> for Value<'b, 't, 'i> {
    ghost from_gives = { λ n v. owned cow_str_bytes v ≡ Some (static_tree n) };

    fn from(scalar: StaticNode) -> Self {
        Lazy::Value(Shared::Owned(Document::Static(scalar)))
    }
}

/// A null.
impl<'b, 't, 'i> From<()> for Value<'b, 't, 'i> {
    ghost from_gives = { λ _ v. owned cow_str_bytes v ≡ Some (null) };

    fn from(_nothing: ()) -> Self {
        Lazy::Value(Shared::Owned(Document::Static(StaticNode::Null)))
    }
}

/// The truth value.
impl<'b, 't, 'i> From<bool> for Value<'b, 't, 'i> {
    ghost from_gives = { λ b v. owned cow_str_bytes v ≡ Some (boolean b) };

    fn from(truth: bool) -> Self {
        Lazy::Value(Shared::Owned(Document::Static(StaticNode::Bool(truth))))
    }
}

/// The number, carried in `i64`.
impl<'b, 't, 'i> From<i8> for Value<'b, 't, 'i> {
    ghost from_gives = { λ n v. owned cow_str_bytes v ≡ Some (int n i64) };

    fn from(number: i8) -> Self {
        Lazy::Value(Shared::Owned(Document::Static(StaticNode::I64(i64::from(number)))))
    }
}

/// The number, carried in `i64`.
impl<'b, 't, 'i> From<i16> for Value<'b, 't, 'i> {
    ghost from_gives = { λ n v. owned cow_str_bytes v ≡ Some (int n i64) };

    fn from(number: i16) -> Self {
        Lazy::Value(Shared::Owned(Document::Static(StaticNode::I64(i64::from(number)))))
    }
}

/// The number, carried in `i64`.
impl<'b, 't, 'i> From<i32> for Value<'b, 't, 'i> {
    ghost from_gives = { λ n v. owned cow_str_bytes v ≡ Some (int n i64) };

    fn from(number: i32) -> Self {
        Lazy::Value(Shared::Owned(Document::Static(StaticNode::I64(i64::from(number)))))
    }
}

/// The number, carried in `i64`.
impl<'b, 't, 'i> From<i64> for Value<'b, 't, 'i> {
    ghost from_gives = { λ n v. owned cow_str_bytes v ≡ Some (int n i64) };

    fn from(number: i64) -> Self {
        Lazy::Value(Shared::Owned(Document::Static(StaticNode::I64(number))))
    }
}

/// The number, carried in `i128`.
impl<'b, 't, 'i> From<i128> for Value<'b, 't, 'i> {
    ghost from_gives = { λ n v. owned cow_str_bytes v ≡ Some (int n i128) };

    fn from(number: i128) -> Self {
        Lazy::Value(Shared::Owned(Document::Static(StaticNode::I128(number))))
    }
}

/// The number, carried in `u64`.
impl<'b, 't, 'i> From<u8> for Value<'b, 't, 'i> {
    ghost from_gives = { λ n v. owned cow_str_bytes v ≡ Some (int (pos n) u64) };

    fn from(number: u8) -> Self {
        Lazy::Value(Shared::Owned(Document::Static(StaticNode::U64(u64::from(number)))))
    }
}

/// The number, carried in `u64`.
impl<'b, 't, 'i> From<u16> for Value<'b, 't, 'i> {
    ghost from_gives = { λ n v. owned cow_str_bytes v ≡ Some (int (pos n) u64) };

    fn from(number: u16) -> Self {
        Lazy::Value(Shared::Owned(Document::Static(StaticNode::U64(u64::from(number)))))
    }
}

/// The number, carried in `u64`.
impl<'b, 't, 'i> From<u32> for Value<'b, 't, 'i> {
    ghost from_gives = { λ n v. owned cow_str_bytes v ≡ Some (int (pos n) u64) };

    fn from(number: u32) -> Self {
        Lazy::Value(Shared::Owned(Document::Static(StaticNode::U64(u64::from(number)))))
    }
}

/// The number, carried in `u64`.
impl<'b, 't, 'i> From<u64> for Value<'b, 't, 'i> {
    ghost from_gives = { λ n v. owned cow_str_bytes v ≡ Some (int (pos n) u64) };

    fn from(number: u64) -> Self {
        Lazy::Value(Shared::Owned(Document::Static(StaticNode::U64(number))))
    }
}

/// The number, carried in `u64`.
impl<'b, 't, 'i> From<usize> for Value<'b, 't, 'i> {
    ghost from_gives = { λ n v. owned cow_str_bytes v ≡ Some (int (pos n) u64) };

    fn from(number: usize) -> Self {
        Lazy::Value(Shared::Owned(Document::Static(StaticNode::U64(number as u64))))
    }
}

/// The number, carried in `u128`.
impl<'b, 't, 'i> From<u128> for Value<'b, 't, 'i> {
    ghost from_gives = { λ n v. owned cow_str_bytes v ≡ Some (int (pos n) u128) };

    fn from(number: u128) -> Self {
        Lazy::Value(Shared::Owned(Document::Static(StaticNode::U128(number))))
    }
}

/// The value where there is one, else a null.
impl<P, B, T: KeyText, X: Into<Lazy<P, B, T>>> From<Option<X>> for Lazy<P, B, T> {
    ghost from_gives = { λ o v. MatchOption o (owned T.text_of v ≡ Some null) (λ x. X.converts x v) };

    fn from(value: Option<X>) -> Self {
        match value {
            Some(value) => value.into(),
            None => Lazy::Value(Shared::Owned(Document::Static(StaticNode::Null))),
        }
    }
}

/// The text, lent.
impl<'b, 't, 'i> From<&'i str> for Value<'b, 't, 'i> {
    ghost from_gives = { λ s v. owned cow_str_bytes v ≡ Some (text (s.now)) };

    fn from(string: &'i str) -> Self {
        Lazy::Value(Shared::Owned(Document::String(CowStr::Borrowed(string))))
    }
}

/// The text, owned.
impl<'b, 't, 'i> From<String> for Value<'b, 't, 'i> {
    ghost from_gives = { λ s v. owned cow_str_bytes v ≡ Some (text (string_bytes s)) };

    fn from(string: String) -> Self {
        Lazy::Value(Shared::Owned(Document::String(CowStr::Owned(string))))
    }
}

/// The text, lent or owned as it is.
impl<'b, 't, 'i> From<CowStr<'i>> for Value<'b, 't, 'i> {
    ghost from_gives = { λ s v. owned cow_str_bytes v ≡ Some (text (cow_str_bytes s)) };

    fn from(string: CowStr<'i>) -> Self {
        Lazy::Value(Shared::Owned(Document::String(string)))
    }
}
