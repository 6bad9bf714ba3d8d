//! Look-ups in a large array and a large object of tapes that are read in each way, and of nodes that a
//! caller gives. `tools/lookups.py` has them in tapes of many shapes.

use super::number_of;
use sj_tape::{
    Buffers, Spare, Tape, Value, to_bare_tape, to_tape, to_tape_with_buffers, to_tape_with_spare,
};
use sj_text_core::ErrorKind;
use std::alloc::{AllocError, Global};
use std::test::Fail;

/// How many items and members there are: of as many, and as wide as these, places and tags are kept.
const LEN: usize = 1100;

/// The text of an object with the members `items` and `members`: an array and an object of arrays of
/// eleven numbers, of which the first is that of the item or the member.
fn large(alloc: Global) -> Result<Vec<u8>, AllocError> {
    let mut items = String::new(alloc);
    let mut members = String::new(alloc);
    let mut comma = "";
    for number in 0..LEN {
        let numbers = format!(in alloc; "[{number},0,0,0,0,0,0,0,0,0,0]")?;
        items.push_str(format!(in alloc; "{comma}{numbers}")?.as_str())?;
        members.push_str(format!(in alloc; "{comma}\"k{number}\":{numbers}")?.as_str())?;
        comma = ",";
    }
    let text = format!(in alloc; "{{\"items\":[{items}],\"members\":{{{members}}}}}")?;
    Ok(text.into_bytes())
}

/// The first number of an array.
fn first_of(array: Option<Value<'_, '_>>) -> Option<u128> {
    number_of(array?.get_idx(0))
}

/// Of how many numbers, and of one past the last, the item and the member are as they were made.
fn found(alloc: Global, whole: Value<'_, '_>) -> Result<usize, Fail> {
    let items = whole.get("items").ok_or("no items")?;
    let members = whole.get("members").ok_or("no members")?;
    let mut found = 0usize;
    for number in [0, 1, 63, 64, 65, 255, 256, 1023, 1024, 1099, LEN] {
        let wanted = (number < LEN).then_some(number as u128);
        let key = format!(in alloc; "k{number}")?;
        let told = [
            first_of(items.get_idx(number)),
            first_of(members.get(key.as_str())),
        ];
        if told == [wanted; 2] {
            found = found.saturating_add(1);
        }
    }
    Ok(found)
}

/// The same of the answer of a reading.
fn told(alloc: Global, answer: Result<Tape<'_>, ErrorKind>) -> Result<usize, Fail> {
    match answer {
        Ok(tape) => found(alloc, tape.as_value()),
        Err(_) => Err("not read".into()),
    }
}

#[test]
fn large_parts_are_found(rt: HostRuntime) -> Result<(), Fail> {
    let alloc = rt.alloc();
    let mut bytes = large(alloc)?;
    assert_eq!(rt; told(alloc, to_tape(alloc, bytes.as_mut_slice()))?, 11);
    let mut bytes = large(alloc)?;
    assert_eq!(rt; told(alloc, to_bare_tape(alloc, bytes.as_mut_slice()))?, 11);
    let mut bytes = large(alloc)?;
    let mut buffers = Buffers::new(alloc, 4)?;
    let answer = to_tape_with_buffers(alloc, bytes.as_mut_slice(), &mut buffers);
    assert_eq!(rt; told(alloc, answer)?, 11);
    Ok(())
}

/// What is told of a tape of the same nodes as a caller gives them.
fn told_of_nodes(alloc: Global, value: Value<'_, '_>) -> Result<usize, Fail> {
    let nodes = value.nodes();
    let mut list = Vec::new(alloc);
    for place in 0..nodes.len() {
        list.push(nodes.at(place))?;
    }
    found(alloc, Tape::new(list)?.as_value())
}

#[test]
fn large_parts_are_found_among_nodes_of_a_caller(rt: HostRuntime) -> Result<(), Fail> {
    let mut bytes = large(rt.alloc())?;
    let tape = to_tape(rt.alloc(), bytes.as_mut_slice())?;
    assert_eq!(rt; told_of_nodes(rt.alloc(), tape.as_value())?, 11);
    Ok(())
}

/// What is told of a tape that is read into that memory; and the memory.
fn told_in<'i>(
    alloc: Global,
    bytes: &'i mut [u8],
    spare: Spare<'i>,
) -> Result<(usize, Spare<'i>), Fail> {
    match to_tape_with_spare(bytes, spare) {
        Ok(tape) => Ok((found(alloc, tape.as_value())?, tape.into_spare(alloc))),
        Err(_) => Err("not read".into()),
    }
}

/// The memory of a tape with large parts serves another.
#[test]
fn large_parts_are_found_in_one_memory(rt: HostRuntime) -> Result<(), Fail> {
    let alloc = rt.alloc();
    let mut first = large(alloc)?;
    let mut second = large(alloc)?;
    let spare = to_tape(alloc, first.as_mut_slice())?.into_spare(alloc);
    let (told, _) = told_in(alloc, second.as_mut_slice(), spare)?;
    assert_eq!(rt; told, 11);
    Ok(())
}
