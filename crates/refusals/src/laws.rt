//! The laws that speak of values: each goes over them.

use refusals_common::{Fault, read, say, say_call, text_of};
use sj_document::{BorrowedValue, OwnedValue};
use sj_object::deserialize;
use sj_tape::to_tape;
use std::borrow::CowStr;

/// Goes over the second example in each form between the first two writes.
pub fn go_over(rt: &(impl Print + AllocGlobal)) -> Result<(), Fault> {
    let alloc = rt.alloc();
    let mut bytes = text_of(alloc, "escapes")?;
    let mut copy = text_of(alloc, "escapes")?;
    let mut third = text_of(alloc, "escapes")?;
    let tape = read(to_tape(alloc, bytes.as_mut_slice()))?;
    let owned = read(deserialize::<OwnedValue, String>(alloc, copy.as_mut_slice()))?;
    let borrowed = read(deserialize::<BorrowedValue<'_>, CowStr<'_>>(alloc, third.as_mut_slice()))?;
    let part = tape.as_value();
    say_call(rt)?;
    sj_tape::laws::prints_spell(&part);
    sj_tape::laws::is_proper(&part);
    sj_tape::laws::reads_back(&part);
    sj_tape::laws::prints_alike(&part, &&owned);
    sj_owned::laws::reads_back(&&owned);
    sj_borrowed::laws::reads_back(&&borrowed);
    say(rt, "gone over\n")
}
