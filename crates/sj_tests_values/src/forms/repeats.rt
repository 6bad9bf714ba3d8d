//! Prints of repeats, read again by each choice.

use sj_tape::to_tape;
use sj_text_core::{Repeats, SameAs, Writable};
use std::alloc::Global;
use std::test::Fail;

const REPEATED: &[u8; 13] = b"{\"a\":1,\"a\":2}";

/// Whether the print of a tape, of which the last of each key counts, is read by the choice as
/// what is the same as the tape: owned and borrowed, asked both ways.
fn is_read_back(alloc: Global, repeats: Repeats) -> Result<[bool; 4], Fail> {
    let mut bytes = *REPEATED;
    let tape = to_tape(alloc, &mut bytes)?;
    let last = tape.as_value_repeats(Repeats::Last);
    let print = last.encode(alloc)?;
    let mut lent = print.as_bytes().to_vec(alloc)?;
    let mut copied = print.into_bytes();
    let owned = sj_owned::to_value_repeats(alloc, copied.as_mut_slice(), repeats)?;
    let borrowed = sj_borrowed::to_value_repeats(alloc, lent.as_mut_slice(), repeats)?;
    Ok([
        owned.same_as(&last),
        last.same_as(&owned),
        borrowed.same_as(&last),
        last.same_as(&borrowed),
    ])
}

#[test]
fn prints_are_read_back_by_the_same_choice(rt: HostRuntime) -> Result<(), Fail> {
    let told = [
        is_read_back(rt.alloc(), Repeats::Last)?,
        is_read_back(rt.alloc(), Repeats::First)?,
    ];
    assert_eq!(rt; told, [[true; 4], [false; 4]]);
    Ok(())
}
