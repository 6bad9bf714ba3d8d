//! Sessions and runs, by their calls. tools/sessions.py runs sessions on many inputs.

use sj_run::{Form, SessionFault, Way, session, session_repeats};
use sj_text_core::{ErrorKind, Repeats};
use std::alloc::Global;
use std::test::Fail;

const INPUT: &str = "{\"a\":1,\"a\":2}\n---\n[\"encode\",[]]";

/// What a session answers, and `out`, which held `> ` before.
fn answered(
    alloc: Global,
    served: (Form, Way, Repeats),
    input: &str,
) -> Result<(Result<(), SessionFault>, Vec<u8>), Fail> {
    let (form, way, repeats) = served;
    let mut bytes = input.as_bytes().to_vec(alloc)?;
    let mut out = b"> ".to_vec(alloc)?;
    let answer = match repeats {
        Repeats::First => session(alloc, form, way, bytes.as_mut_slice(), &mut out),
        Repeats::Last => {
            session_repeats(alloc, form, way, repeats, bytes.as_mut_slice(), &mut out)
        }
    };
    Ok((answer, out))
}

/// Forms, ways and choices, each with what is printed of the input's document.
const SERVED: [(Form, Way, Repeats, &str); 6] = [
    (Form::Owned, Way::ByText, Repeats::First, "> {\"a\":1}\n"),
    (Form::Owned, Way::ByKnownKey, Repeats::Last, "> {\"a\":2}\n"),
    (Form::Borrowed, Way::ByText, Repeats::Last, "> {\"a\":2}\n"),
    (
        Form::Borrowed,
        Way::ByKnownKey,
        Repeats::First,
        "> {\"a\":1}\n",
    ),
    (
        Form::Lazy,
        Way::ByText,
        Repeats::First,
        "> {\"a\":1,\"a\":2}\n",
    ),
    (
        Form::Lazy,
        Way::ByText,
        Repeats::Last,
        "> {\"a\":1,\"a\":2}\n",
    ),
];

/// Replies are appended, and a refused session appends nothing.
#[test]
fn sessions_append(rt: HostRuntime) -> Result<(), Fail> {
    let alloc = rt.alloc();
    for &(form, way, repeats, want) in &SERVED {
        let (answer, out) = answered(alloc, (form, way, repeats), INPUT)?;
        let is_answered = answer == Ok(()) && out.as_slice() == want.as_bytes();
        assert!(rt; is_answered, "{form:?} {way:?} {repeats:?}");
        let (answer, out) = answered(alloc, (form, way, repeats), "[1,]\n---\n[\"encode\",[]]")?;
        let refused = Err(SessionFault::Refused(ErrorKind::Syntax));
        let is_refused = answer == refused && out.as_slice() == b"> ".as_slice();
        assert!(rt; is_refused, "{form:?} {way:?} {repeats:?}");
    }
    let (answer, out) = answered(alloc, (Form::Lazy, Way::ByKnownKey, Repeats::Last), INPUT)?;
    assert!(rt; answer == Err(SessionFault::Usage) && out.as_slice() == b"> ".as_slice());
    Ok(())
}
