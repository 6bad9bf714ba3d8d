//! Comparisons across types.

ghost use Rattle.std.specs.Prelude.{◌≡◌, ◌↔◌, IsTrue, Some, string_bytes};
ghost use Rattle.sj_text_core.specs.Nulls.{as_nothing};
ghost use Rattle.sj_text_core.specs.Reads.{as_boolean, as_signed, as_unsigned, as_text};

use crate::value_as_scalar::ValueAsScalar;

/// Whether a value is the same as one of another type.
pub trait SameAs<T> {
    /// The relation of the two values that is answered.
    ghost same: { Self → T → Type 0 };

    /// Whether the two are the same.
    fn same_as(&self, other: &T) -> bool
        ensures { IsTrue result ↔ same self.now other.now };
}

/// Same exactly where the value is a null.
impl<V: ValueAsScalar> SameAs<()> for V {
    ghost same = { λ v _. as_nothing (V.tree v) ≡ Some tt };

    fn same_as(&self, _other: &()) -> bool {
        self.is_null()
    }
}

/// Same exactly where the value is this truth value.
impl<V: ValueAsScalar> SameAs<bool> for V {
    ghost same = { λ v b. as_boolean (V.tree v) ≡ Some b };

    fn same_as(&self, other: &bool) -> bool {
        self.as_bool() == Some(*other)
    }
}

/// Same exactly where the value is this text.
impl<'x, V: ValueAsScalar> SameAs<&'x str> for V {
    ghost same = { λ v s. as_text (V.tree v) ≡ Some s.now };

    fn same_as(&self, other: &&'x str) -> bool {
        match self.as_str() {
            Some(text) => text == *other,
            None => false,
        }
    }
}

/// Same exactly where the value is this text.
impl<V: ValueAsScalar> SameAs<String> for V {
    ghost same = { λ v s. as_text (V.tree v) ≡ Some (string_bytes s) };

    fn same_as(&self, other: &String) -> bool {
        match self.as_str() {
            Some(text) => text == other.as_str(),
            None => false,
        }
    }
}

// Why so: docs/REFUSED.md, "One trait for the eleven integer types".
/// Same exactly where the value is this number, whatever carries it.
impl<V: ValueAsScalar> SameAs<i8> for V {
    ghost same = { λ v n. as_signed 8 (V.tree v) ≡ Some n };

    fn same_as(&self, other: &i8) -> bool {
        self.as_i8() == Some(*other)
    }
}

/// Same exactly where the value is this number, whatever carries it.
impl<V: ValueAsScalar> SameAs<i16> for V {
    ghost same = { λ v n. as_signed 16 (V.tree v) ≡ Some n };

    fn same_as(&self, other: &i16) -> bool {
        self.as_i16() == Some(*other)
    }
}

/// Same exactly where the value is this number, whatever carries it.
impl<V: ValueAsScalar> SameAs<i32> for V {
    ghost same = { λ v n. as_signed 32 (V.tree v) ≡ Some n };

    fn same_as(&self, other: &i32) -> bool {
        self.as_i32() == Some(*other)
    }
}

/// Same exactly where the value is this number, whatever carries it.
impl<V: ValueAsScalar> SameAs<i64> for V {
    ghost same = { λ v n. as_signed 64 (V.tree v) ≡ Some n };

    fn same_as(&self, other: &i64) -> bool {
        self.as_i64() == Some(*other)
    }
}

/// Same exactly where the value is this number, whatever carries it.
impl<V: ValueAsScalar> SameAs<i128> for V {
    ghost same = { λ v n. as_signed 128 (V.tree v) ≡ Some n };

    fn same_as(&self, other: &i128) -> bool {
        self.as_i128() == Some(*other)
    }
}

/// Same exactly where the value is this number, whatever carries it.
impl<V: ValueAsScalar> SameAs<u8> for V {
    ghost same = { λ v n. as_unsigned 8 (V.tree v) ≡ Some n };

    fn same_as(&self, other: &u8) -> bool {
        self.as_u8() == Some(*other)
    }
}

/// Same exactly where the value is this number, whatever carries it.
impl<V: ValueAsScalar> SameAs<u16> for V {
    ghost same = { λ v n. as_unsigned 16 (V.tree v) ≡ Some n };

    fn same_as(&self, other: &u16) -> bool {
        self.as_u16() == Some(*other)
    }
}

/// Same exactly where the value is this number, whatever carries it.
impl<V: ValueAsScalar> SameAs<u32> for V {
    ghost same = { λ v n. as_unsigned 32 (V.tree v) ≡ Some n };

    fn same_as(&self, other: &u32) -> bool {
        self.as_u32() == Some(*other)
    }
}

/// Same exactly where the value is this number, whatever carries it.
impl<V: ValueAsScalar> SameAs<u64> for V {
    ghost same = { λ v n. as_unsigned 64 (V.tree v) ≡ Some n };

    fn same_as(&self, other: &u64) -> bool {
        self.as_u64() == Some(*other)
    }
}

/// Same exactly where the value is this number, whatever carries it.
impl<V: ValueAsScalar> SameAs<u128> for V {
    ghost same = { λ v n. as_unsigned 128 (V.tree v) ≡ Some n };

    fn same_as(&self, other: &u128) -> bool {
        self.as_u128() == Some(*other)
    }
}

/// Same exactly where the value is this number, whatever carries it.
impl<V: ValueAsScalar> SameAs<usize> for V {
    ghost same = { λ v n. as_unsigned 64 (V.tree v) ≡ Some n };

    fn same_as(&self, other: &usize) -> bool {
        self.as_usize() == Some(*other)
    }
}
