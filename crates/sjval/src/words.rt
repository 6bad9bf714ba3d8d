//! The words that the program is called with.

use crate::fault::Fault;
use sj_run::{Form, Way};
use sj_text_core::Repeats;
use std::env;
use std::io::ErrorKind;
use std::rt::Env;

/// The words behind the program's name. One that is not UTF-8 is no word of the usage.
pub fn given_words(rt: &(impl Env + AllocGlobal)) -> Result<Vec<String>, Fault> {
    match env::args(rt) {
        Ok(args) => Ok(args.skip(1).collect(rt.alloc())?),
        Err(error) => match error.kind() {
            ErrorKind::InvalidData => Err(Fault::Usage),
            ErrorKind::OutOfMemory => Err(Fault::OutOfMemory),
            _ => Err(Fault::Failed),
        },
    }
}

/// The form, the way and the member of each key that counts, as the words choose them; none where
/// they are no such words, or where the form is not served in this way.
pub fn parse_words(words: &[String]) -> Option<(Form, Way, Repeats)> {
    let (first, rest) = words.split_first()?;
    let form = match first.as_str() {
        "owned" => Form::Owned,
        "borrowed" => Form::Borrowed,
        "lazy" => Form::Lazy,
        _ => return None,
    };
    let (way, rest) = match rest {
        [word, rest @ ..] if word.as_str() == "known" => (Way::ByKnownKey, rest),
        _ => (Way::ByText, rest),
    };
    let repeats = match rest {
        [] => Repeats::First,
        [word] if word.as_str() == "last" => Repeats::Last,
        _ => return None,
    };
    if form.is_served(way) {
        Some((form, way, repeats))
    } else {
        None
    }
}
