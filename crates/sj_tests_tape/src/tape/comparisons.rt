//! Comparisons of tapes.

use sj_tape::{ErrorKind, to_tape};
use sj_text_core::{Repeats, SameAs};
use std::alloc::Global;

/// Texts, each with a number of its document.
const TEXTS: [(&str, u8); 27] = [
    ("null", 0),
    ("true", 1),
    ("false", 2),
    ("1", 3),
    (" 1 ", 3),
    ("\"1\"", 4),
    ("\"\\u0031\"", 4),
    ("0", 5),
    ("-0", 5),
    ("[]", 6),
    ("{}", 7),
    ("[1]", 8),
    ("[ 1]", 8),
    ("[1,2]", 9),
    ("[2,1]", 10),
    ("{\"a\":1,\"b\":2}", 11),
    ("{\"b\":2,\"a\":1}", 11),
    ("{\"a\":1,\"b\":2,\"a\":3}", 11),
    ("{\"b\":2,\"a\":1,\"a\":1}", 11),
    ("{\"a\":1,\"a\":5,\"b\":2,\"b\":[]}", 11),
    ("{\"b\":2,\"b\":3,\"b\":4,\"a\":1}", 11),
    ("{\"a\":1,\"a\":6,\"b\":2}", 11),
    ("{\"a\":1}", 12),
    ("{\"a\":1,\"a\":1}", 12),
    ("{\"a\":1,\"a\":2}", 12),
    ("{\"a\":1,\"b\":1}", 13),
    ("{\"a\":1,\"b\":1,\"b\":2}", 13),
];

/// Whether two texts mean one document, where these members of each key count, asked both ways.
fn compared(
    alloc: Global,
    (left, mine): (&str, Repeats),
    (right, others): (&str, Repeats),
) -> Result<[bool; 2], ErrorKind> {
    let mut first = left.as_bytes().to_vec(alloc)?;
    let mut second = right.as_bytes().to_vec(alloc)?;
    let first = to_tape(alloc, first.as_mut_slice())?;
    let second = to_tape(alloc, second.as_mut_slice())?;
    let first = first.as_value_repeats(mine);
    let second = second.as_value_repeats(others);
    Ok([first.same_as(&second), second.same_as(&first)])
}

#[test]
fn documents_are_compared(rt: HostRuntime) {
    for &(left, mine) in &TEXTS {
        for &(right, other) in &TEXTS {
            let told = compared(rt.alloc(), (left, Repeats::First), (right, Repeats::First));
            assert!(rt; told == Ok([mine == other; 2]), "{left} and {right}");
        }
    }
}

/// Two texts, whether the last member of each key counts in each, and whether the two then mean
/// one document.
const CHOSEN: [(&str, bool, &str, bool, bool); 13] = [
    (
        "{\"a\":1,\"b\":2,\"a\":3}",
        true,
        "{\"b\":2,\"a\":3}",
        true,
        true,
    ),
    (
        "{\"a\":1,\"b\":2,\"a\":3}",
        true,
        "{\"b\":2,\"a\":3}",
        false,
        true,
    ),
    (
        "{\"a\":1,\"b\":2,\"a\":3}",
        true,
        "{\"b\":2,\"a\":1}",
        true,
        false,
    ),
    (
        "{\"a\":1,\"b\":2,\"a\":3}",
        true,
        "{\"a\":1,\"b\":2,\"a\":3}",
        true,
        true,
    ),
    (
        "{\"a\":1,\"b\":2,\"a\":3}",
        true,
        "{\"a\":1,\"b\":2,\"a\":3}",
        false,
        false,
    ),
    ("{\"a\":1,\"a\":3}", true, "{\"a\":3,\"a\":1}", false, true),
    ("{\"a\":1,\"a\":3}", true, "{\"a\":3,\"b\":1}", false, false),
    (
        "{\"c\":0,\"c\":{\"a\":1,\"a\":2}}",
        true,
        "{\"c\":{\"a\":2}}",
        true,
        true,
    ),
    (
        "{\"c\":0,\"c\":{\"a\":1,\"a\":2}}",
        true,
        "{\"c\":{\"a\":1}}",
        true,
        false,
    ),
    (
        "[{\"a\":1,\"a\":2}]",
        true,
        "[{\"a\":2,\"a\":1}]",
        false,
        true,
    ),
    (
        "[{\"a\":1,\"a\":2}]",
        true,
        "[{\"a\":2,\"a\":1},0]",
        false,
        false,
    ),
    ("-0", true, "0", false, true),
    ("\"1\"", true, "1", true, false),
];

/// The last or the first member.
fn choice(last: bool) -> Repeats {
    if last { Repeats::Last } else { Repeats::First }
}

#[test]
fn documents_are_compared_by_choice(rt: HostRuntime) {
    for &(left, mine, right, others, same) in &CHOSEN {
        let told = compared(rt.alloc(), (left, choice(mine)), (right, choice(others)));
        assert!(rt; told == Ok([same; 2]), "{left} and {right}");
    }
}
