//! Pointers copied, cut and put behind one another.

use crate::pointer_edits::read_pointer;
use refusals_common::{Fault, say, say_call, say_kept};
use sj_path::Pointer;
use std::alloc::AllocError;

/// What the call makes; None for a call that there is not.
fn made(call: &str, whole: &Pointer, rest: &Pointer) -> Option<Result<Pointer, AllocError>> {
    match call {
        "clone" => Some(whole.clone()),
        "join" => Some(whole.join(rest)),
        "parent" => match whole.parent() {
            Ok(Some(parent)) => Some(Ok(parent)),
            Ok(None) => None,
            Err(why) => Some(Err(why)),
        },
        _ => None,
    }
}

fn tell(rt: &impl Print, answer: &Option<Result<Pointer, AllocError>>) -> Result<(), Fault> {
    match answer {
        Some(Ok(pointer)) => {
            for token in pointer.tokens() {
                say(rt, "<")?;
                say(rt, token.as_str())?;
                say(rt, "> ")?;
            }
            Ok(())
        }
        Some(Err(_)) => say(rt, "AllocError "),
        None => Err(Fault::Usage),
    }
}

/// Makes a pointer of two twice, the first time between the first two writes.
pub fn make(rt: &(impl Print + AllocGlobal), call: &str) -> Result<(), Fault> {
    let alloc = rt.alloc();
    let whole = read_pointer(alloc, "/a~1b/0")?;
    let rest = read_pointer(alloc, "/m~0n")?;
    match call {
        "push" => return push(rt, whole),
        _ => {}
    }
    say_call(rt)?;
    tell(rt, &made(call, &whole, &rest))?;
    say(rt, "again ")?;
    tell(rt, &made(call, &whole, &rest))?;
    say(rt, "\n")
}

/// Pushes a token, and pushes it again where it comes back.
fn push(rt: &(impl Print + AllocGlobal), whole: Pointer) -> Result<(), Fault> {
    let mut whole = whole;
    let token = String::from_str(rt.alloc(), "end")?;
    say_call(rt)?;
    if let Err(failed) = whole.push(token) {
        let is_kept = whole.tokens().len() == 2 && whole.last() == Some("0");
        say(rt, "AllocError, ")?;
        say_kept(rt, "pointer", is_kept)?;
        if whole.push(failed.value).is_err() {
            return Err(Fault::OutOfMemory);
        }
    }
    say(
        rt,
        if whole.last() == Some("end") {
            "pushed\n"
        } else {
            "NOT PUSHED\n"
        },
    )
}
