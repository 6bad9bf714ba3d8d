//! Documents of what takes no memory.

ghost use Rattle.std.specs.Prelude.{◌≡◌, ℤ, pos, MatchOption, string_bytes};
ghost use Rattle.std.specs.Cow.{cow_str_bytes};
ghost use Rattle.sj_text_core.specs.Scalars.{static_tree};
ghost use Rattle.sj_text_core.specs.Tree.{null, boolean, int, text, i64, u64, i128, u128};
ghost use Rattle.sj_document.specs.Document.{document_tree};

use crate::value::{BorrowedValue, Document, OwnedValue};
use sj_object::KeyText;
use sj_text_core::StaticNode;
use std::borrow::CowStr;

/// The scalar, with its carrier.
impl<T: KeyText> From<StaticNode> for Document<T> {
    ghost from_gives = { λ n v. document_tree T.text_of v ≡ static_tree n };

    fn from(scalar: StaticNode) -> Self {
        Document::Static(scalar)
    }
}

/// A null.
impl<T: KeyText> From<()> for Document<T> {
    ghost from_gives = { λ _ v. document_tree T.text_of v ≡ null };

    fn from(_nothing: ()) -> Self {
        Document::null()
    }
}

/// The truth value.
impl<T: KeyText> From<bool> for Document<T> {
    ghost from_gives = { λ b v. document_tree T.text_of v ≡ boolean b };

    fn from(truth: bool) -> Self {
        Document::Static(StaticNode::Bool(truth))
    }
}

/// The number, carried in `i64`.
impl<T: KeyText> From<i8> for Document<T> {
    ghost from_gives = { λ n v. document_tree T.text_of v ≡ int n i64 };

    fn from(number: i8) -> Self {
        Document::Static(StaticNode::I64(i64::from(number)))
    }
}

/// The number, carried in `i64`.
impl<T: KeyText> From<i16> for Document<T> {
    ghost from_gives = { λ n v. document_tree T.text_of v ≡ int n i64 };

    fn from(number: i16) -> Self {
        Document::Static(StaticNode::I64(i64::from(number)))
    }
}

/// The number, carried in `i64`.
impl<T: KeyText> From<i32> for Document<T> {
    ghost from_gives = { λ n v. document_tree T.text_of v ≡ int n i64 };

    fn from(number: i32) -> Self {
        Document::Static(StaticNode::I64(i64::from(number)))
    }
}

/// The number, carried in `i64`.
impl<T: KeyText> From<i64> for Document<T> {
    ghost from_gives = { λ n v. document_tree T.text_of v ≡ int n i64 };

    fn from(number: i64) -> Self {
        Document::Static(StaticNode::I64(number))
    }
}

/// The number, carried in `i128`.
impl<T: KeyText> From<i128> for Document<T> {
    ghost from_gives = { λ n v. document_tree T.text_of v ≡ int n i128 };

    fn from(number: i128) -> Self {
        Document::Static(StaticNode::I128(number))
    }
}

/// The number, carried in `u64`.
impl<T: KeyText> From<u8> for Document<T> {
    ghost from_gives = { λ n v. document_tree T.text_of v ≡ int (pos n) u64 };

    fn from(number: u8) -> Self {
        Document::Static(StaticNode::U64(u64::from(number)))
    }
}

/// The number, carried in `u64`.
impl<T: KeyText> From<u16> for Document<T> {
    ghost from_gives = { λ n v. document_tree T.text_of v ≡ int (pos n) u64 };

    fn from(number: u16) -> Self {
        Document::Static(StaticNode::U64(u64::from(number)))
    }
}

/// The number, carried in `u64`.
impl<T: KeyText> From<u32> for Document<T> {
    ghost from_gives = { λ n v. document_tree T.text_of v ≡ int (pos n) u64 };

    fn from(number: u32) -> Self {
        Document::Static(StaticNode::U64(u64::from(number)))
    }
}

/// The number, carried in `u64`.
impl<T: KeyText> From<u64> for Document<T> {
    ghost from_gives = { λ n v. document_tree T.text_of v ≡ int (pos n) u64 };

    fn from(number: u64) -> Self {
        Document::Static(StaticNode::U64(number))
    }
}

/// The number, carried in `u64`.
impl<T: KeyText> From<usize> for Document<T> {
    ghost from_gives = { λ n v. document_tree T.text_of v ≡ int (pos n) u64 };

    fn from(number: usize) -> Self {
        Document::Static(StaticNode::U64(number as u64))
    }
}

/// The number, carried in `u128`.
impl<T: KeyText> From<u128> for Document<T> {
    ghost from_gives = { λ n v. document_tree T.text_of v ≡ int (pos n) u128 };

    fn from(number: u128) -> Self {
        Document::Static(StaticNode::U128(number))
    }
}

/// The value where there is one, else a null.
impl<T: KeyText, X: Into<Document<T>>> From<Option<X>> for Document<T> {
    ghost from_gives = { λ o v. MatchOption o (document_tree T.text_of v ≡ null) (λ x. X.converts x v) };

    fn from(value: Option<X>) -> Self {
        match value {
            Some(value) => value.into(),
            None => Document::null(),
        }
    }
}

/// The text.
impl From<String> for OwnedValue {
    ghost from_gives = { λ s v. document_tree string_bytes v ≡ text (string_bytes s) };

    fn from(string: String) -> Self {
        Document::String(string)
    }
}

/// The text, lent.
impl<'v> From<&'v str> for BorrowedValue<'v> {
    ghost from_gives = { λ s v. document_tree cow_str_bytes v ≡ text s.now };

    fn from(string: &'v str) -> Self {
        Document::String(CowStr::Borrowed(string))
    }
}

/// The text, owned.
impl<'v> From<String> for BorrowedValue<'v> {
    ghost from_gives = { λ s v. document_tree cow_str_bytes v ≡ text (string_bytes s) };

    fn from(string: String) -> Self {
        Document::String(CowStr::Owned(string))
    }
}

/// The text, lent or owned as it is.
impl<'v> From<CowStr<'v>> for BorrowedValue<'v> {
    ghost from_gives = { λ s v. document_tree cow_str_bytes v ≡ text (cow_str_bytes s) };

    fn from(string: CowStr<'v>) -> Self {
        Document::String(string)
    }
}
