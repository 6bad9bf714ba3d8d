//! How long scalars are in print.

ghost use Rattle.std.specs.Prelude.{◌≡◌, ◌<◌, ◌≤◌, length, IsUtf8};
ghost use Rattle.std.specs.Fmt.{decimal};
ghost use Rattle.sj_text_core.specs.Print.{compact};
ghost use Rattle.sj_text_core.specs.Scalars.{static_tree};

use sj_text_core::StaticNode;

/// How many digits a number of at most four has. A sum of tests has no branches.
#[inline(always)]
fn few_digits(n: u64) -> usize
    requires { n < 10000 }
    ensures { result ≡ length (decimal n) }
{
    1 + usize::from(n > 9) + usize::from(n > 99) + usize::from(n > 999)
}

/// How many digits the number has.
fn digits(n: u64) -> usize
    ensures value { result ≡ length (decimal n) }
    ensures bound { result ≤ 20 }
    ensures utf8 { IsUtf8 (decimal n) }
{
    let mut left = n;
    let mut count = 0;
    while left >= 10_000 {
        left /= 10_000;
        count += 4;
    }
    count + few_digits(left)
}

/// How many digits the number has; those past 64 bits one at a time.
fn wide_digits(n: u128) -> usize
    ensures value { result ≡ length (decimal n) }
    ensures bound { result ≤ 39 }
    ensures utf8 { IsUtf8 (decimal n) }
{
    let mut left = n;
    let mut count = 0;
    while left > u128::from(u64::MAX) {
        left /= 10;
        count += 1;
    }
    count + digits(left as u64)
}

/// How many bytes the scalar has in print.
#[inline(always)]
pub(super) fn static_len(node: StaticNode) -> usize
    ensures utf8 { IsUtf8 (compact (static_tree node)) }
    ensures value { result ≡ length (compact (static_tree node)) }
{
    match node {
        StaticNode::Null => 4,
        StaticNode::Bool(true) => 4,
        StaticNode::Bool(false) => 5,
        StaticNode::I64(n) if n < 0 => 1 + digits(n.unsigned_abs()),
        StaticNode::I64(n) => digits(n.unsigned_abs()),
        StaticNode::U64(n) => digits(n),
        StaticNode::I128(n) if n < 0 => 1 + wide_digits(n.unsigned_abs()),
        StaticNode::I128(n) => wide_digits(n.unsigned_abs()),
        StaticNode::U128(n) => wide_digits(n),
    }
}
