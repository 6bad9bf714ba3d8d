//! Typed reads of members.

ghost use Rattle.std.specs.Prelude.{◌≡◌, List, ℕ, Option};
ghost use Rattle.sj_text_core.specs.Reads.{as_boolean, as_signed, as_unsigned, member_as, try_member_as};
ghost use Rattle.sj_text_core.specs.Tree.{Tree};

use crate::meaning::Meaning;
use crate::scalar::Scalar;
use crate::value_type::{ExtendedValueType, TryTypeError, ValueType};

/// Reads of the member with a key as a truth value or a whole number of a type. `get_T` is None
/// where there is no such member and where it is no `T`. `try_get_T` is `Ok(None)` where there is no
/// such member, and tells which kind it is of a member that is no `T` and of a value that is no
/// object.
pub trait ValueObjectAccessAsScalar: Meaning {
    /// The tree of the member with a key, where there is one.
    ghost member_tree: { Self → List ℕ → Option Tree };

    /// The member of the key as a scalar of that type, where it is one.
    fn get_scalar<S: Scalar>(&self, key: &str) -> Option<S>
        ensures { result ≡ member_as S.reading (member_tree self.now key.now) };

    /// As `get_scalar`; of another member, and of a non-object, which kind it is.
    fn try_get_scalar<S: Scalar>(&self, key: &str) -> Result<Option<S>, TryTypeError>
        ensures { result ≡ try_member_as S.reading S.kind (Self.tree self.now) (member_tree self.now key.now) };

    /// The member of the key, where it is a truth value.
    final fn get_bool(&self, key: &str) -> Option<bool>
        ensures { result ≡ member_as as_boolean (member_tree self.now key.now) }
    {
        self.get_scalar::<bool>(key)
    }

    /// As `get_bool`; of another member, and of a non-object, which kind it is.
    final fn try_get_bool(&self, key: &str) -> Result<Option<bool>, TryTypeError>
        ensures { result ≡ try_member_as as_boolean ValueType.Bool (Self.tree self.now) (member_tree self.now key.now) }
    {
        self.try_get_scalar::<bool>(key)
    }

    /// The member of the key, where it is a whole number from -2^7 to 2^7-1.
    final fn get_i8(&self, key: &str) -> Option<i8>
        ensures { result ≡ member_as (as_signed 8) (member_tree self.now key.now) }
    {
        self.get_scalar::<i8>(key)
    }

    /// As `get_i8`; of another member, and of a non-object, which kind it is.
    final fn try_get_i8(&self, key: &str) -> Result<Option<i8>, TryTypeError>
        ensures { result ≡ try_member_as (as_signed 8) (ValueType.Extended ExtendedValueType.I8) (Self.tree self.now) (member_tree self.now key.now) }
    {
        self.try_get_scalar::<i8>(key)
    }

    /// The member of the key, where it is a whole number from -2^15 to 2^15-1.
    final fn get_i16(&self, key: &str) -> Option<i16>
        ensures { result ≡ member_as (as_signed 16) (member_tree self.now key.now) }
    {
        self.get_scalar::<i16>(key)
    }

    /// As `get_i16`; of another member, and of a non-object, which kind it is.
    final fn try_get_i16(&self, key: &str) -> Result<Option<i16>, TryTypeError>
        ensures { result ≡ try_member_as (as_signed 16) (ValueType.Extended ExtendedValueType.I16) (Self.tree self.now) (member_tree self.now key.now) }
    {
        self.try_get_scalar::<i16>(key)
    }

    /// The member of the key, where it is a whole number from -2^31 to 2^31-1.
    final fn get_i32(&self, key: &str) -> Option<i32>
        ensures { result ≡ member_as (as_signed 32) (member_tree self.now key.now) }
    {
        self.get_scalar::<i32>(key)
    }

    /// As `get_i32`; of another member, and of a non-object, which kind it is.
    final fn try_get_i32(&self, key: &str) -> Result<Option<i32>, TryTypeError>
        ensures { result ≡ try_member_as (as_signed 32) (ValueType.Extended ExtendedValueType.I32) (Self.tree self.now) (member_tree self.now key.now) }
    {
        self.try_get_scalar::<i32>(key)
    }

    /// The member of the key, where it is a whole number from -2^63 to 2^63-1.
    final fn get_i64(&self, key: &str) -> Option<i64>
        ensures { result ≡ member_as (as_signed 64) (member_tree self.now key.now) }
    {
        self.get_scalar::<i64>(key)
    }

    /// As `get_i64`; of another member, and of a non-object, which kind it is.
    final fn try_get_i64(&self, key: &str) -> Result<Option<i64>, TryTypeError>
        ensures { result ≡ try_member_as (as_signed 64) ValueType.I64 (Self.tree self.now) (member_tree self.now key.now) }
    {
        self.try_get_scalar::<i64>(key)
    }

    /// The member of the key, where it is a whole number from -2^127 to 2^127-1.
    final fn get_i128(&self, key: &str) -> Option<i128>
        ensures { result ≡ member_as (as_signed 128) (member_tree self.now key.now) }
    {
        self.get_scalar::<i128>(key)
    }

    /// As `get_i128`; of another member, and of a non-object, which kind it is.
    final fn try_get_i128(&self, key: &str) -> Result<Option<i128>, TryTypeError>
        ensures { result ≡ try_member_as (as_signed 128) ValueType.I128 (Self.tree self.now) (member_tree self.now key.now) }
    {
        self.try_get_scalar::<i128>(key)
    }

    /// The member of the key, where it is a whole number from 0 to 2^8-1.
    final fn get_u8(&self, key: &str) -> Option<u8>
        ensures { result ≡ member_as (as_unsigned 8) (member_tree self.now key.now) }
    {
        self.get_scalar::<u8>(key)
    }

    /// As `get_u8`; of another member, and of a non-object, which kind it is.
    final fn try_get_u8(&self, key: &str) -> Result<Option<u8>, TryTypeError>
        ensures { result ≡ try_member_as (as_unsigned 8) (ValueType.Extended ExtendedValueType.U8) (Self.tree self.now) (member_tree self.now key.now) }
    {
        self.try_get_scalar::<u8>(key)
    }

    /// The member of the key, where it is a whole number from 0 to 2^16-1.
    final fn get_u16(&self, key: &str) -> Option<u16>
        ensures { result ≡ member_as (as_unsigned 16) (member_tree self.now key.now) }
    {
        self.get_scalar::<u16>(key)
    }

    /// As `get_u16`; of another member, and of a non-object, which kind it is.
    final fn try_get_u16(&self, key: &str) -> Result<Option<u16>, TryTypeError>
        ensures { result ≡ try_member_as (as_unsigned 16) (ValueType.Extended ExtendedValueType.U16) (Self.tree self.now) (member_tree self.now key.now) }
    {
        self.try_get_scalar::<u16>(key)
    }

    /// The member of the key, where it is a whole number from 0 to 2^32-1.
    final fn get_u32(&self, key: &str) -> Option<u32>
        ensures { result ≡ member_as (as_unsigned 32) (member_tree self.now key.now) }
    {
        self.get_scalar::<u32>(key)
    }

    /// As `get_u32`; of another member, and of a non-object, which kind it is.
    final fn try_get_u32(&self, key: &str) -> Result<Option<u32>, TryTypeError>
        ensures { result ≡ try_member_as (as_unsigned 32) (ValueType.Extended ExtendedValueType.U32) (Self.tree self.now) (member_tree self.now key.now) }
    {
        self.try_get_scalar::<u32>(key)
    }

    /// The member of the key, where it is a whole number from 0 to 2^64-1.
    final fn get_u64(&self, key: &str) -> Option<u64>
        ensures { result ≡ member_as (as_unsigned 64) (member_tree self.now key.now) }
    {
        self.get_scalar::<u64>(key)
    }

    /// As `get_u64`; of another member, and of a non-object, which kind it is.
    final fn try_get_u64(&self, key: &str) -> Result<Option<u64>, TryTypeError>
        ensures { result ≡ try_member_as (as_unsigned 64) ValueType.U64 (Self.tree self.now) (member_tree self.now key.now) }
    {
        self.try_get_scalar::<u64>(key)
    }

    /// The member of the key, where it is a whole number from 0 to 2^128-1.
    final fn get_u128(&self, key: &str) -> Option<u128>
        ensures { result ≡ member_as (as_unsigned 128) (member_tree self.now key.now) }
    {
        self.get_scalar::<u128>(key)
    }

    /// As `get_u128`; of another member, and of a non-object, which kind it is.
    final fn try_get_u128(&self, key: &str) -> Result<Option<u128>, TryTypeError>
        ensures { result ≡ try_member_as (as_unsigned 128) ValueType.U128 (Self.tree self.now) (member_tree self.now key.now) }
    {
        self.try_get_scalar::<u128>(key)
    }

    /// The member of the key, where it is a whole number from 0 to 2^64-1.
    final fn get_usize(&self, key: &str) -> Option<usize>
        ensures { result ≡ member_as (as_unsigned 64) (member_tree self.now key.now) }
    {
        self.get_scalar::<usize>(key)
    }

    /// As `get_usize`; of another member, and of a non-object, which kind it is.
    final fn try_get_usize(&self, key: &str) -> Result<Option<usize>, TryTypeError>
        ensures { result ≡ try_member_as (as_unsigned 64) (ValueType.Extended ExtendedValueType.Usize) (Self.tree self.now) (member_tree self.now key.now) }
    {
        self.try_get_scalar::<usize>(key)
    }
}
