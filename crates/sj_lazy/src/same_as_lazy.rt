//! What a lazy value is compared with from the other side: the values of a map of std.

ghost use Rattle.std.specs.Prelude.{◌≡◌, ◌↔◌, IsTrue, Some, string_bytes};
ghost use Rattle.std.specs.Cow.{cow_str_bytes};
ghost use Rattle.sj_document.specs.Document.{document_tree};
ghost use Rattle.sj_lazy.specs.Value.{value_part};
ghost use Rattle.sj_text_core.specs.Reads.{as_boolean, as_signed, as_text, as_unsigned};
ghost use Rattle.sj_text_core.specs.Repeats.{SameBy};
ghost use Rattle.sj_text_core.specs.declared.repeats.Repeats.TheVariants.{First};

use crate::value::Value;
use sj_document::BorrowedValue;
use sj_text_core::SameAs;

/// What a lazy value can be compared with. The answer is a relation of the lazy value's choice and
/// tree and of this value.
pub trait SameAsLazy {
    ghost use Rattle.sj_text_core.specs.Tree.{Tree};
    ghost use Rattle.sj_text_core.specs.declared.repeats.Repeats.{Repeats};

    /// The relation that is answered.
    ghost same_lazy: { Repeats × Tree → Self → Type 0 };

    /// Whether the two are the same.
    fn same_as_lazy(&self, other: &Value) -> bool
        ensures { IsTrue result ↔ same_lazy (value_part other.now) self.now };
}

/// Same exactly where the value is this truth value.
impl SameAsLazy for bool {
    ghost same_lazy = { λ p b. as_boolean p.1 ≡ Some b };

    fn same_as_lazy(&self, other: &Value) -> bool {
        other.same_as(self)
    }
}

/// Same exactly where the value is this text.
impl SameAsLazy for String {
    ghost same_lazy = { λ p s. as_text p.1 ≡ Some (string_bytes s) };

    fn same_as_lazy(&self, other: &Value) -> bool {
        other.same_as(self)
    }
}

/// Same exactly where the two mean one document, a part of a tape by its own choice.
impl<'v> SameAsLazy for BorrowedValue<'v> {
    ghost same_lazy = { λ p v. SameBy p.0 First p.1 (document_tree cow_str_bytes v) };

    fn same_as_lazy(&self, other: &Value) -> bool {
        other.same_as(self)
    }
}

/// Same exactly where the value is this number, whatever carries it.
impl SameAsLazy for i8 {
    ghost same_lazy = { λ p n. as_signed 8 p.1 ≡ Some n };

    fn same_as_lazy(&self, other: &Value) -> bool {
        other.same_as(self)
    }
}

/// Same exactly where the value is this number, whatever carries it.
impl SameAsLazy for i16 {
    ghost same_lazy = { λ p n. as_signed 16 p.1 ≡ Some n };

    fn same_as_lazy(&self, other: &Value) -> bool {
        other.same_as(self)
    }
}

/// Same exactly where the value is this number, whatever carries it.
impl SameAsLazy for i32 {
    ghost same_lazy = { λ p n. as_signed 32 p.1 ≡ Some n };

    fn same_as_lazy(&self, other: &Value) -> bool {
        other.same_as(self)
    }
}

/// Same exactly where the value is this number, whatever carries it.
impl SameAsLazy for i64 {
    ghost same_lazy = { λ p n. as_signed 64 p.1 ≡ Some n };

    fn same_as_lazy(&self, other: &Value) -> bool {
        other.same_as(self)
    }
}

/// Same exactly where the value is this number, whatever carries it.
impl SameAsLazy for i128 {
    ghost same_lazy = { λ p n. as_signed 128 p.1 ≡ Some n };

    fn same_as_lazy(&self, other: &Value) -> bool {
        other.same_as(self)
    }
}

/// Same exactly where the value is this number, whatever carries it.
impl SameAsLazy for u8 {
    ghost same_lazy = { λ p n. as_unsigned 8 p.1 ≡ Some n };

    fn same_as_lazy(&self, other: &Value) -> bool {
        other.same_as(self)
    }
}

/// Same exactly where the value is this number, whatever carries it.
impl SameAsLazy for u16 {
    ghost same_lazy = { λ p n. as_unsigned 16 p.1 ≡ Some n };

    fn same_as_lazy(&self, other: &Value) -> bool {
        other.same_as(self)
    }
}

/// Same exactly where the value is this number, whatever carries it.
impl SameAsLazy for u32 {
    ghost same_lazy = { λ p n. as_unsigned 32 p.1 ≡ Some n };

    fn same_as_lazy(&self, other: &Value) -> bool {
        other.same_as(self)
    }
}

/// Same exactly where the value is this number, whatever carries it.
impl SameAsLazy for u64 {
    ghost same_lazy = { λ p n. as_unsigned 64 p.1 ≡ Some n };

    fn same_as_lazy(&self, other: &Value) -> bool {
        other.same_as(self)
    }
}

/// Same exactly where the value is this number, whatever carries it.
impl SameAsLazy for u128 {
    ghost same_lazy = { λ p n. as_unsigned 128 p.1 ≡ Some n };

    fn same_as_lazy(&self, other: &Value) -> bool {
        other.same_as(self)
    }
}

/// Same exactly where the value is this number, whatever carries it.
impl SameAsLazy for usize {
    ghost same_lazy = { λ p n. as_unsigned 64 p.1 ≡ Some n };

    fn same_as_lazy(&self, other: &Value) -> bool {
        other.same_as(self)
    }
}
