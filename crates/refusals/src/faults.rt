//! Faults, and the one error that stands for each.

use refusals_common::{Fault, say, say_call, say_right};
use sj_borrowed::known_key;
use sj_fault::checked_fault_at;
use sj_stream::Unread;
use sj_text_core::{
    AccessError, BadTape, ErrorKind, JsonError, OperationFault, PatchFault, PatchReadFault,
    PointerError, Refused, TryTypeError, ValueType, WriteError,
};
use std::alloc::{AllocError, AllocFailed, Global};

/// What `?` makes of a push that is refused.
fn push<E: From<AllocFailed<u8>>>(alloc: Global) -> Result<(), E> {
    let mut bytes = Vec::new(alloc);
    bytes.push(0)?;
    Ok(())
}

/// What `?` makes of a refusal that hands a value back.
fn refused<E: Drop, F: From<Refused<E, u8>>>(why: E) -> Result<(), F> {
    Err(Refused { why, value: 0 })?;
    Ok(())
}

/// Makes the call of that name.
pub fn run_call(rt: &(impl Print + AllocGlobal), call: &str) -> Result<(), Fault> {
    match call {
        "json" => {
            say_call(rt)?;
            let is_memory = push(rt.alloc()) == Err(JsonError::OutOfMemory);
            say(
                rt,
                if is_memory {
                    "OutOfMemory\n"
                } else {
                    "pushed\n"
                },
            )
        }
        "pointer" => {
            say_call(rt)?;
            let is_memory = push(rt.alloc()) == Err(PointerError::OutOfMemory);
            say(
                rt,
                if is_memory {
                    "OutOfMemory\n"
                } else {
                    "pushed\n"
                },
            )
        }
        "meet" => meet(rt),
        "known" => meet_known(rt),
        "patch" => meet_patches(rt),
        "place" => place(rt),
        _ => Err(Fault::Usage),
    }
}

/// Looks for the place where a text is refused, twice.
fn place(rt: &(impl Print + AllocGlobal)) -> Result<(), Fault> {
    say_call(rt)?;
    tell_place(rt)?;
    say(rt, "again ")?;
    tell_place(rt)
}

fn tell_place(rt: &(impl Print + AllocGlobal)) -> Result<(), Fault> {
    match checked_fault_at(rt.alloc(), b"{\"a\": tru}") {
        Ok(Some(fault)) if fault.at == 9 => say(rt, "behind 9 bytes\n"),
        Ok(_) => say(rt, "ANOTHER PLACE\n"),
        Err(AllocError) => say(rt, "AllocError\n"),
    }
}

/// Makes the one error of each fault.
fn meet(rt: &impl Print) -> Result<(), Fault> {
    let why = Refused {
        why: AccessError::NotAnArray,
        value: 1,
    }
    .because(ErrorKind::Float);
    let kind = TryTypeError {
        expected: ValueType::Bool,
        got: ValueType::Null,
    };
    let line = Unread {
        line: 7,
        place: None,
        why: ErrorKind::TooDeep,
    };
    say_call(rt)?;
    let is_right = JsonError::from(ErrorKind::Syntax) == JsonError::Read(ErrorKind::Syntax)
        && JsonError::from(WriteError::TooLong) == JsonError::Write(WriteError::TooLong)
        && JsonError::from(AccessError::NotAnArray) == JsonError::Access(AccessError::NotAnArray)
        && JsonError::from(PointerError::NoSlash) == JsonError::Pointer(PointerError::NoSlash)
        && JsonError::from(PointerError::from(AllocError)) == JsonError::OutOfMemory
        && JsonError::from(kind) == JsonError::Kind(kind)
        && JsonError::from(BadTape) == JsonError::Tape(BadTape)
        && JsonError::from(AllocError) == JsonError::OutOfMemory
        && JsonError::from(line) == JsonError::Read(ErrorKind::TooDeep)
        && JsonError::from(why) == JsonError::Read(ErrorKind::Float)
        && refused(AccessError::NotAnObject) == Err(JsonError::Access(AccessError::NotAnObject))
        && refused(BadTape) == Err(JsonError::Tape(BadTape))
        && refused(AllocError) == Err(JsonError::OutOfMemory)
        && refused(AllocError) == Err(AccessError::OutOfMemory)
        && refused(AccessError::NotAnObject) == Err(AccessError::NotAnObject)
        && refused(AllocError) == Err(AllocError);
    say_right(rt, is_right)
}

/// Makes a known key's fault of each that it may meet, and the one error of it.
fn meet_known(rt: &(impl Print + AllocGlobal)) -> Result<(), Fault> {
    let no_object = known_key::Error::NotAnObject(ValueType::Null);
    let kind = TryTypeError {
        expected: ValueType::Object,
        got: ValueType::Null,
    };
    let given = AllocFailed { value: 0_u8 };
    say_call(rt)?;
    let is_right = known_key::Error::from(AllocError) == known_key::Error::OutOfMemory
        && known_key::Error::from(given) == known_key::Error::OutOfMemory
        && refused(AllocError) == Err(known_key::Error::OutOfMemory)
        && refused(no_object) == Err(no_object)
        && refused(no_object) == Err(JsonError::Kind(kind))
        && JsonError::from(no_object) == JsonError::Kind(kind)
        && JsonError::from(known_key::Error::OutOfMemory) == JsonError::OutOfMemory;
    say_right(rt, is_right)
}

/// Makes the faults of patches of each that they may meet, and the one error of each.
fn meet_patches(rt: &impl Print) -> Result<(), Fault> {
    let failed = PatchFault::Failed(1, OperationFault::Missing);
    let unread = PatchReadFault::NotAnArray;
    let given = AllocFailed { value: 0_u8 };
    say_call(rt)?;
    let is_right = PatchFault::from(AllocError) == PatchFault::OutOfMemory
        && JsonError::from(failed) == JsonError::Patch(failed)
        && JsonError::from(PatchFault::OutOfMemory) == JsonError::OutOfMemory
        && PatchReadFault::from(AllocError) == PatchReadFault::OutOfMemory
        && PatchReadFault::from(given) == PatchReadFault::OutOfMemory
        && refused(unread) == Err(unread)
        && refused(unread) == Err(JsonError::PatchRead(unread))
        && JsonError::from(unread) == JsonError::PatchRead(unread)
        && JsonError::from(PatchReadFault::OutOfMemory) == JsonError::OutOfMemory;
    say_right(rt, is_right)
}
