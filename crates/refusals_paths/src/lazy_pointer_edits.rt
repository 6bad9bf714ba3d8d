//! Edits of what a pointer finds in a lazy document.

use crate::lazy::{
    Answer, added, changed, done, form_of, inserted, of_document, of_lent, of_tape, refused,
    to_null,
};
use crate::pointer_edits::read_pointer;
use refusals_common::{Fault, read, say, say_call, say_kept, text_of};
use sj_document::BorrowedValue;
use sj_lazy::Value;
use sj_object::deserialize;
use sj_path::{Pointer, lazy};
use sj_tape::to_tape;
use sj_text_core::Writable;
use std::alloc::Global;
use std::borrow::CowStr;

#[derive(Clone, Copy, Debug, PartialEq, Eq)]
enum Call {
    Insert,
    Remove,
    Push,
    Pop,
    Take,
    Update,
    Set,
}

impl Call {
    fn of(word: &str) -> Result<Call, Fault> {
        match word {
            "insert" => Ok(Call::Insert),
            "remove" => Ok(Call::Remove),
            "push" => Ok(Call::Push),
            "pop" => Ok(Call::Pop),
            "take" => Ok(Call::Take),
            "update" => Ok(Call::Update),
            "set" => Ok(Call::Set),
            _ => Err(Fault::Usage),
        }
    }

    /// What it is made at in the first example.
    fn pointer(self) -> &'static str {
        match self {
            Call::Insert | Call::Remove => "",
            Call::Push | Call::Pop => "/some",
            Call::Take | Call::Update => "/some/0",
            Call::Set => "/n/m",
        }
    }

    /// Whether it may be refused for the edit, once the value is a document.
    fn grows(self) -> bool {
        matches!(self, Call::Insert | Call::Push | Call::Set)
    }
}

fn answer_of(alloc: Global, call: Call, value: &mut Value<'_, '_, '_>, at: &Pointer) -> Answer {
    match call {
        Call::Insert => {
            let key = CowStr::Borrowed("n");
            inserted(lazy::insert(value, alloc, at, key, BorrowedValue::null()))
        }
        Call::Remove => match lazy::remove(value, alloc, at, "some") {
            Ok(_) => Answer::Done,
            Err(why) => refused(why),
        },
        Call::Push => added(lazy::push(value, alloc, at, BorrowedValue::null())),
        Call::Pop => match lazy::pop(value, alloc, at) {
            Ok(_) => Answer::Done,
            Err(why) => refused(why),
        },
        Call::Take => done(lazy::take(value, alloc, at).is_ok()),
        Call::Update => changed(lazy::update(value, alloc, at, to_null())),
        Call::Set => inserted(lazy::set(value, alloc, at, BorrowedValue::null())),
    }
}

/// Makes the call on the value between the first two writes, and again where it was refused.
fn edit(
    rt: &(impl Print + AllocGlobal),
    call: Call,
    mut value: Value<'_, '_, '_>,
) -> Result<(), Fault> {
    let alloc = rt.alloc();
    let at = read_pointer(alloc, call.pointer())?;
    let form = form_of(&value);
    let before = value.encode(alloc)?;
    say_call(rt)?;
    let answer = answer_of(alloc, call, &mut value, &at);
    if answer != Answer::Done {
        let is_named = matches!(answer, Answer::Refused | Answer::Returned);
        say(
            rt,
            if is_named {
                "refused, "
            } else {
                "REFUSED OTHERWISE, "
            },
        )?;
        say_kept(rt, "tree", value.encode(alloc)?.as_str() == before.as_str())?;
        say_kept(rt, "form", call.grows() || form_of(&value) == form)?;
        answer_of(alloc, call, &mut value, &at);
    }
    say(rt, "done, ")?;
    say(rt, form_of(&value))?;
    say(rt, " ")?;
    say(rt, value.encode(alloc)?.as_str())?;
    say(rt, "\n")
}

/// Makes the call on the first example in that form.
pub fn run_call(rt: &(impl Print + AllocGlobal), form: &str, call: &str) -> Result<(), Fault> {
    let alloc = rt.alloc();
    let call = Call::of(call)?;
    let mut bytes = text_of(alloc, "example")?;
    if form == "tape" {
        let tape = read(to_tape(alloc, bytes.as_mut_slice()))?;
        return edit(rt, call, of_tape(tape.as_value()));
    }
    let document = read(deserialize::<BorrowedValue<'_>, CowStr<'_>>(alloc, bytes.as_mut_slice()))?;
    match form {
        "lent" => edit(rt, call, of_lent(&document)),
        "owned" => edit(rt, call, of_document(document)),
        _ => Err(Fault::Usage),
    }
}
