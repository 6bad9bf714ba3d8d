//! Numbers of 128 bits in two words of 64, in two's complement.

ghost use Rattle.std.specs.Prelude.{◌≡◌, ◌+◌, ◌*◌, ◌^◌, ◌≤◌, pos, ◌+ℤ◌, ◌<ℤ◌};
ghost use Rattle.sj_c.specs.Shown.{wide};

/// Two words.
#[derive(Clone, Copy)]
pub struct Words {
    pub low: u64,
    pub high: u64,
}

/// 2^64, which the high word counts.
const WORD: u128 = 1 << 64;

/// The number's words.
pub fn words_of(number: u128) -> Words
    ensures { wide result.low result.high ≡ number }
{
    Words {
        low: (number % WORD) as u64,
        high: (number / WORD) as u64,
    }
}

/// The words of a number below 0.
pub fn words_below(number: i128) -> Words
    requires { number <ℤ pos 0 }
    ensures { pos (wide result.low result.high) ≡ number +ℤ pos (2 ^ 128) }
{
    let behind = (number + i128::MAX + 1) as u128;
    words_of(behind + (1 << 127))
}

/// The number of two words, without a sign.
pub fn number_of(low: u64, high: u64) -> u128
    ensures { result ≡ wide low high }
{
    high as u128 * WORD + low as u128
}

/// The number below 0 of two words, the high one from 2^63 on.
pub fn number_below(low: u64, high: u64) -> i128
    requires { 2 ^ 63 ≤ high }
    ensures { result +ℤ pos (2 ^ 128) ≡ pos (wide low high) }
{
    let behind = number_of(low, high) - (1 << 127);
    behind as i128 + i128::MIN
}
