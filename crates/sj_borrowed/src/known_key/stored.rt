//! What a known key is stored as, where it is inserted.

ghost use Rattle.std.specs.Prelude.{◌≡◌, IfOk, IsOk, IsTrue};
ghost use Rattle.std.specs.Cow.{cow_str_bytes};
ghost use Rattle.sj_object.specs.Keys.{is_borrowed};

use super::KnownKey;
use sj_object::KeyText;
use std::alloc::AllocError;
use std::borrow::CowStr;

/// A key that a known key of the lifetime `'k` can be stored as.
pub trait StoredKey<'k>: KeyText + Sized + Drop {
    ghost use Rattle.std.specs.declared.alloc.Global.{Global};
    ghost use Rattle.std.specs.declared.borrow.CowStr.{CowStr};

    /// Holds of the key of a known key and of what it is stored as.
    ghost is_copy: { CowStr Global → Self → Type 0 };

    /// A copy of the key. It is refused only for want of memory.
    fn copy_of(key: &KnownKey<'k>) -> Result<Self, AllocError>
        ensures text { IfOk result (λ k. Self.text_of k ≡ cow_str_bytes key.now) }
        ensures copy { IfOk result (is_copy key.now) };
}

/// A lent key is stored as it is, without memory; an owned one is cloned.
impl<'v, 'k: 'v> StoredKey<'k> for CowStr<'v> {
    ghost use Rattle.sj_borrowed.specs.Inserts.{IsCopy};

    ghost is_copy = { IsCopy };

    fn copy_of(key: &KnownKey<'k>) -> Result<CowStr<'v>, AllocError>
        ensures text { IfOk result (λ k. cow_str_bytes k ≡ cow_str_bytes key.now) }
        ensures copy { IfOk result (IsCopy key.now) }
        ensures succeeds { IsTrue (is_borrowed key.now) → IsOk result }
    {
        match key.key() {
            CowStr::Borrowed(text) => Ok(CowStr::Borrowed(*text)),
            CowStr::Owned(text) => Ok(CowStr::Owned(text.clone()?)),
        }
    }
}
