//! Scalars that hold no text.

use crate::meaning::Meaning;
use crate::typed_value::TypedValue;
use crate::value_as_scalar::ValueAsScalar;
use crate::value_type::ValueType;
use std::fmt;

/// A null, a truth value or a whole number. The variant of a number is its carrier.
#[derive(Clone, Copy, Debug)]
pub enum StaticNode {
    Null,
    Bool(bool),
    I64(i64),
    U64(u64),
    I128(i128),
    U128(u128),
}

impl StaticNode {
    ghost use Rattle.std.specs.Prelude.{◌≡◌, option_map, Some};
    ghost use Rattle.sj_text_core.specs.Print.{compact};
    ghost use Rattle.sj_text_core.specs.Scalars.{static_tree};
    ghost use Rattle.sj_text_core.specs.inner.ScalarValues.{number_in, sign_and_size};

    /// `null`, `true`, `false`, or the number in decimal, with its digits in the buffer.
    #[inline(always)]
    pub fn text_in<'b>(self, digits: &'b mut itoa::Buffer) -> &'b str
        ensures { result.now ≡ compact (static_tree self) }
    {
        match self {
            StaticNode::Null => "null",
            StaticNode::Bool(true) => "true",
            StaticNode::Bool(false) => "false",
            StaticNode::I64(n) => digits.format(n),
            StaticNode::U64(n) => digits.format(n),
            StaticNode::I128(n) => digits.format(n),
            StaticNode::U128(n) => digits.format(n),
        }
    }

    /// Whether the number is negative, and its absolute value.
    fn sign_and_size(self) -> Option<(bool, u128)>
        ensures { result ≡ option_map sign_and_size (number_in self) }
    {
        match self {
            StaticNode::Null | StaticNode::Bool(_) => None,
            StaticNode::I64(n) => Some((n < 0, u128::from(n.unsigned_abs()))),
            StaticNode::U64(n) => Some((false, u128::from(n))),
            StaticNode::I128(n) => Some((n < 0, n.unsigned_abs())),
            StaticNode::U128(n) => Some((false, n)),
        }
    }
}

/// Two scalars are equal where both are null, where they are one truth value, and where they are
/// numbers of one value, whatever carries them.
impl PartialEq for StaticNode {
    ghost use Rattle.std.specs.Prelude.{◌≡◌, ◌↔◌, IsTrue};
    ghost use Rattle.std.specs.Ordering.{on};
    ghost use Rattle.std.specs.Cmp.{partial_equiv_from_equiv};
    ghost use Rattle.std.proofs.lemmas.Cmp.{on_equiv};
    ghost use Rattle.sj_text_core.specs.Same.{Same};
    ghost use Rattle.sj_text_core.specs.Scalars.{static_tree};
    ghost use Rattle.sj_text_core.specs.ScalarValues.{scalar_value, value_eq, value_eq-equivalence};

    ghost eq = { on scalar_value value_eq };

    ghost laws = { partial_equiv_from_equiv (on_equiv scalar_value value_eq-equivalence) };

    fn eq(&self, other: &StaticNode) -> bool
        ensures answer { result ≡ value_eq (scalar_value self.now) (scalar_value other.now) }
        ensures same { IsTrue result ↔ Same (static_tree self.now) (static_tree other.now) }
    {
        match (*self, *other) {
            (StaticNode::Null, StaticNode::Null) => true,
            (StaticNode::Bool(a), StaticNode::Bool(b)) => a == b,
            (StaticNode::I64(a), StaticNode::I64(b)) => a == b,
            (a, b) => match (a.sign_and_size(), b.sign_and_size()) {
                (Some(a), Some(b)) => a == b,
                _ => false,
            },
        }
    }
}

impl Eq for StaticNode {
    ghost use Rattle.std.proofs.lemmas.Cmp.{on_equiv};
    ghost use Rattle.sj_text_core.specs.ScalarValues.{scalar_value, value_eq-equivalence};

    ghost laws = { on_equiv scalar_value value_eq-equivalence };
}

/// `null`, `true`, `false`, or the number in decimal.
impl fmt::Display for StaticNode {
    ghost use Rattle.std.specs.Prelude.{Some};
    ghost use Rattle.sj_text_core.specs.Print.{compact};
    ghost use Rattle.sj_text_core.specs.Scalars.{static_tree};

    ghost output = { λ n. Some (compact (static_tree n)) };

    fn fmt<W: fmt::Write>(&self, f: &mut fmt::Formatter<W>) -> fmt::Result {
        f.write_str(self.text_in(&mut itoa::Buffer::new()))
    }
}

impl Meaning for StaticNode {
    ghost use Rattle.sj_text_core.specs.Scalars.{static_tree};

    ghost tree = { static_tree };
}

impl TypedValue for StaticNode {
    fn value_type(&self) -> ValueType {
        match self {
            StaticNode::Null => ValueType::Null,
            StaticNode::Bool(_) => ValueType::Bool,
            StaticNode::I64(_) => ValueType::I64,
            StaticNode::U64(_) => ValueType::U64,
            StaticNode::I128(_) => ValueType::I128,
            StaticNode::U128(_) => ValueType::U128,
        }
    }
}

impl ValueAsScalar for StaticNode {
    fn as_bool(&self) -> Option<bool> {
        match *self {
            StaticNode::Bool(b) => Some(b),
            _ => None,
        }
    }

    fn as_str(&self) -> Option<&str> {
        None
    }

    fn as_i128(&self) -> Option<i128> {
        match *self {
            StaticNode::Null | StaticNode::Bool(_) => None,
            StaticNode::I64(n) => Some(i128::from(n)),
            StaticNode::U64(n) => Some(i128::from(n)),
            StaticNode::I128(n) => Some(n),
            StaticNode::U128(n) => i128::try_from(n).ok(),
        }
    }

    fn as_u128(&self) -> Option<u128> {
        let node = *self;
        match node {
            StaticNode::Null | StaticNode::Bool(_) => None,
            StaticNode::I64(n) => u128::try_from(n).ok(),
            StaticNode::U64(n) => Some(u128::from(n)),
            StaticNode::I128(n) => u128::try_from(n).ok(),
            StaticNode::U128(n) => Some(n),
        }
    }
}
