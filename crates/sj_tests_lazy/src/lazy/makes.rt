//! Values that are made of lists, of pairs and of what takes memory.

use super::prints;
use sj_document::BorrowedValue;
use sj_lazy::Value;
use sj_tape::{Value as TapeValue, to_tape};
use std::alloc::{AllocError, Global};
use std::test::Fail;

/// What users keep a value in.
#[derive(Drop)]
enum Kept<'b, 't, 'i> {
    Made(Value<'b, 't, 'i>),
    Absent,
}

fn of_document<'b, 't, 'i>(document: Option<BorrowedValue<'i>>) -> Kept<'b, 't, 'i> {
    match document {
        Some(document) => {
            let value: Value<'b, 't, 'i> = Value::from(document);
            Kept::Made(value)
        }
        None => Kept::Absent,
    }
}

fn of_part<'b, 't, 'i>(part: Option<TapeValue<'t, 'i>>) -> Kept<'b, 't, 'i> {
    match part {
        Some(part) => Kept::Made(Value::from_tape(part)),
        None => Kept::Absent,
    }
}

fn of_number<'b, 't, 'i>(number: u8) -> Kept<'b, 't, 'i> {
    let value = Value::from(number);
    Kept::Made(value)
}

fn of_no_items<'b, 't, 'i>(alloc: Global) -> Result<Kept<'b, 't, 'i>, AllocError> {
    let value = Value::array(alloc)?;
    Ok(Kept::Made(value))
}

fn is_kept(alloc: Global, kept: &Kept, print: &str) -> Result<bool, Fail> {
    match kept {
        Kept::Made(value) => prints(alloc, value, print),
        Kept::Absent => Ok(print == ""),
    }
}

#[test]
fn values_are_kept_where_lifetimes_are_named(rt: HostRuntime) -> Result<(), Fail> {
    let alloc = rt.alloc();
    let mut bytes = b"[1,2]".to_vec(alloc)?;
    let tape = to_tape(alloc, bytes.as_mut_slice())?;
    assert!(rt; is_kept(alloc, &of_document(Some(BorrowedValue::from("x"))), "\"x\"")?);
    assert!(rt; is_kept(alloc, &of_document(None), "")?);
    assert!(rt; is_kept(alloc, &of_part(tape.as_value().get_idx(1)), "2")?);
    assert!(rt; is_kept(alloc, &of_part(tape.as_value().get_idx(2)), "")?);
    assert!(rt; is_kept(alloc, &of_number(7), "7")?);
    assert!(rt; is_kept(alloc, &of_no_items(alloc)?, "[]")?);
    Ok(())
}
