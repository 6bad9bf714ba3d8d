//! Texts, tokens and positions.

use sj_path::{Pointer, PointerError, pointer, position};
use std::alloc::Global;
use std::test::Fail;

const TOKENS: [(&str, &[&str]); 16] = [
    ("", &[]),
    ("/foo", &["foo"]),
    ("/foo/0", &["foo", "0"]),
    ("/", &[""]),
    ("/a~1b", &["a/b"]),
    ("/c%d", &["c%d"]),
    ("/e^f", &["e^f"]),
    ("/g|h", &["g|h"]),
    (r"/i\j", &[r"i\j"]),
    ("/k\"l", &["k\"l"]),
    ("/ ", &[" "]),
    ("/m~0n", &["m~n"]),
    ("/m~01n", &["m~1n"]),
    ("//a//", &["", "a", "", ""]),
    ("/~0~1~00~10/~1", &["~/~0/0", "/"]),
    ("/ä~1€/😀", &["ä/€", "😀"]),
];

const REFUSED: [(&str, PointerError); 8] = [
    ("foo", PointerError::NoSlash),
    ("a~2", PointerError::NoSlash),
    ("~1", PointerError::NoSlash),
    ("/a~2", PointerError::BadTilde),
    ("/a~", PointerError::BadTilde),
    ("/~/0", PointerError::BadTilde),
    ("/~~0", PointerError::BadTilde),
    ("/~€", PointerError::BadTilde),
];

const POSITIONS: [(&str, Option<usize>); 15] = [
    ("0", Some(0)),
    ("1", Some(1)),
    ("90", Some(90)),
    ("18446744073709551615", Some(usize::MAX)),
    ("18446744073709551616", None),
    ("18446744073709551620", None),
    ("100000000000000000000", None),
    ("00", None),
    ("01", None),
    ("-", None),
    ("", None),
    ("+1", None),
    ("-1", None),
    ("1a", None),
    ("1 ", None),
];

/// Whether the tokens are these.
fn are(tokens: &[String], want: &[&str]) -> bool {
    for (token, want) in tokens.iter().zip(want) {
        if token.as_str() != *want {
            return false;
        }
    }
    tokens.len() == want.len()
}

#[test]
fn texts_are_cut_and_decoded(rt: HostRuntime) -> Result<(), Fail> {
    for &(text, want) in &TOKENS {
        let pointer = pointer(rt.alloc(), text)?;
        let is_read = are(pointer.tokens(), want);
        let is_taken = are(pointer.into_tokens().as_slice(), want);
        assert!(rt; is_read && is_taken, "{text}");
    }
    Ok(())
}

fn made_of(alloc: Global, tokens: &[&str]) -> Result<Pointer, Fail> {
    let mut owned = Vec::new(alloc);
    for token in tokens {
        owned.push(String::from_str(alloc, token)?)?;
    }
    Ok(Pointer::from_tokens(owned))
}

/// Each text above is the one that its tokens are written by.
#[test]
fn tokens_are_written(rt: HostRuntime) -> Result<(), Fail> {
    let alloc = rt.alloc();
    for &(text, tokens) in &TOKENS {
        let written = made_of(alloc, tokens)?;
        assert!(rt; written == pointer(alloc, text)?, "{written}");
        assert_eq!(rt; format!(in alloc; "{written}")?.as_str(), text);
    }
    Ok(())
}

/// Pointers, each with its parent and last token, where it has them.
const ENDS: [(&str, Option<(&str, &str)>); 5] = [
    ("", None),
    ("/", Some(("", ""))),
    ("/foo/0", Some(("/foo", "0"))),
    ("/a~1b/m~0n", Some(("/a~1b", "m~n"))),
    ("//a//", Some(("//a/", ""))),
];

/// Pointers, and whether the first begins with the second.
const FRONTS: [(&str, &str, bool); 6] = [
    ("/a/b", "", true),
    ("/a/b", "/a", true),
    ("/a/b", "/a/b", true),
    ("/a", "/a/b", false),
    ("/ab", "/a", false),
    ("", "/", false),
];

fn end_is(alloc: Global, text: &str, want: Option<(&str, &str)>) -> Result<bool, Fail> {
    let whole = pointer(alloc, text)?;
    let Some((front, end)) = want else {
        return Ok(whole.parent()?.is_none() && whole.last().is_none());
    };
    let mut again = pointer(alloc, front)?;
    let is_parent = whole.parent()? == Some(pointer(alloc, front)?) && whole.last() == Some(end);
    again.push(String::from_str(alloc, end)?)?;
    let is_pushed = again == whole;
    let is_popped = again.pop().is_some_and(|token| token.as_str() == end);
    Ok(is_parent && is_pushed && is_popped && again == pointer(alloc, front)?)
}

#[test]
fn ends_are_cut_and_joined(rt: HostRuntime) -> Result<(), Fail> {
    let alloc = rt.alloc();
    for &(text, want) in &ENDS {
        assert!(rt; end_is(alloc, text, want)?, "{text}");
    }
    for &(whole, front, begins) in &FRONTS {
        let (whole, front) = (pointer(alloc, whole)?, pointer(alloc, front)?);
        assert!(rt; whole.begins_with(&front) == begins, "{whole} {front}");
        let joined = front.join(&whole)?;
        assert!(rt;
            joined.begins_with(&front) && front.clone()? == front,
            "{joined}"
        );
        assert_eq!(rt;
            joined.tokens().len(),
            front.tokens().len() + whole.tokens().len()
        );
    }
    Ok(())
}

#[test]
fn texts_are_refused(rt: HostRuntime) -> Result<(), Fail> {
    let alloc = rt.alloc();
    for &(text, why) in &REFUSED {
        assert_eq!(rt; pointer(alloc, text).err(), Some(why), "{text}");
    }
    Ok(())
}

#[test]
fn tokens_name_positions(rt: HostRuntime) {
    for &(token, want) in &POSITIONS {
        assert_eq!(rt; position(token), want, "{token}");
    }
}

#[test]
fn faults_have_texts(rt: HostRuntime) -> Result<(), Fail> {
    let alloc = rt.alloc();
    for (fault, want) in [
        (PointerError::NoSlash, "no slash at the start"),
        (PointerError::BadTilde, "a tilde without 0 or 1 behind it"),
        (PointerError::OutOfMemory, "out of memory"),
    ] {
        assert_eq!(rt; format!(in alloc; "{fault}")?.as_str(), want);
    }
    Ok(())
}
