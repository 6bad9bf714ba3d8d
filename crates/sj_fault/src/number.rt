//! Whole numbers within the limits, digit by digit (RFC 8259, section 6).

use sj_text_core::ErrorKind;

/// The digits of a number that stand so far.
#[derive(Clone, Copy, Debug, PartialEq, Eq)]
pub(crate) struct Number {
    is_negative: bool,
    value: u128,
}

impl Number {
    /// The number of one digit, from 0 to 9.
    pub(crate) fn new(is_negative: bool, digit: u8) -> Number {
        Number {
            is_negative,
            value: u128::from(digit),
        }
    }

    /// The number with one digit more. Behind a first 0 none may stand, and past the limits there is
    /// no number.
    pub(crate) fn with_digit(self, digit: u8) -> Result<Number, ErrorKind> {
        if self.value == 0 {
            return Err(ErrorKind::Syntax);
        }
        let most = if self.is_negative {
            1 << 127
        } else {
            u128::MAX
        };
        let value = self
            .value
            .checked_mul(10)
            .and_then(|tens| tens.checked_add(u128::from(digit)));
        match value {
            Some(value) if value <= most => Ok(Number {
                is_negative: self.is_negative,
                value,
            }),
            _ => Err(ErrorKind::NumberTooLarge),
        }
    }
}
