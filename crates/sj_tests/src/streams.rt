//! Streams of documents. What is read is what Python's json reads of the same lines.

use sj_lines::{Lines, line_count};
use sj_pieces::Pieces;
use sj_stream::{LineReader, Repeats, Stream, unread_lines};
use sj_text_core::Writable;
use std::alloc::Global;
use std::test::Fail;

/// Inputs, and what a stream over each answers: the number of a line with the print of its document
/// or why it is not read.
const INPUTS: [(&[u8], &str); 8] = [
    (b"", ""),
    (b"\n\r\n\n", ""),
    (b"[1]\n{\"a\": 2}", "1 [1]; 2 {\"a\":2}; "),
    (b"[1]\r\n\r\n\n[2]\r", "1 [1]; 4 [2]; "),
    (
        b"[1\n[2]\n \n[3] [4]\n[5]\n",
        "1 syntax error; 2 [2]; 3 syntax error; 4 syntax error; 5 [5]; ",
    ),
    (
        b"\xff\n\"\\ud800\"\n1.5\n340282366920938463463374607431768211456\n0",
        "1 invalid UTF-8; 2 lone surrogate; 3 number with a fraction or an exponent; 4 number too large; 5 0; ",
    ),
    (b"\r\r\n[]", "1 syntax error; 2 []; "),
    (
        b"[1,2,3,4,5,6,7,8]\n[]\n{\"a\":{\"b\":[9]},\"a\":1}\nnull\n[[],[],[]]",
        "1 [1,2,3,4,5,6,7,8]; 2 []; 3 {\"a\":{\"b\":[9]},\"a\":1}; 4 null; 5 [[],[],[]]; ",
    ),
];

/// What a stream over the input answers.
fn told(alloc: Global, input: &[u8]) -> Result<String, Fail> {
    let mut bytes = Vec::from_slice(alloc, input)?;
    let mut stream = Stream::new(alloc, bytes.as_mut_slice());
    let mut told = String::new(alloc);
    while let Some(step) = stream.advance() {
        let part = match (step, stream.value(Repeats::First)) {
            (Ok(line), Some(document)) => format!(in alloc;
                "{line} {}; ",
                document.encode(alloc)?
            )?,
            (Err(unread), None) => format!(in alloc; "{} {}; ", unread.line, unread.why)?,
            _ => format!(in alloc; "a document of a line that is not read, or none; ")?,
        };
        told.push_str(part.as_str())?;
    }
    Ok(told)
}

/// The lines that are not read, with why.
fn refused(alloc: Global, input: &[u8]) -> Result<String, Fail> {
    let mut bytes = Vec::from_slice(alloc, input)?;
    let mut told = String::new(alloc);
    for unread in unread_lines(alloc, bytes.as_mut_slice())? {
        let part = format!(in alloc; "{} {}; ", unread.line, unread.why)?;
        told.push_str(part.as_str())?;
    }
    Ok(told)
}

#[test]
fn documents_are_read_line_by_line(rt: HostRuntime) -> Result<(), Fail> {
    for &(input, wanted) in &INPUTS {
        assert_eq!(rt; told(rt.alloc(), input)?.as_str(), wanted);
    }
    Ok(())
}

#[test]
fn lines_that_are_not_read_are_told(rt: HostRuntime) -> Result<(), Fail> {
    let alloc = rt.alloc();
    assert_eq!(rt;
        refused(alloc, INPUTS[4].0)?.as_str(),
        "1 syntax error; 3 syntax error; 4 syntax error; "
    );
    assert_eq!(rt; refused(alloc, INPUTS[7].0)?.as_str(), "");
    Ok(())
}

#[test]
fn lines_have_numbers_and_texts(rt: HostRuntime) -> Result<(), Fail> {
    let alloc = rt.alloc();
    let mut bytes = Vec::from_slice(alloc, b"a\r\n\n b\r\r\nc")?;
    let mut lines = Lines::new(bytes.as_mut_slice());
    for &(number, text) in &[(1, b"a".as_slice()), (3, b" b\r"), (4, b"c")] {
        match lines.next() {
            Some(line) => assert!(rt; line.number == number && &*line.text == text, "{number}"),
            None => assert!(rt; false, "{number}"),
        }
    }
    assert!(rt; lines.next().is_none());
    Ok(())
}

/// Inputs behind ten lines, and what is told of them with places; the columns are those behind the longest
/// beginning of a readable text, by a model that knows no machine.
const PLACED: [(&[u8], &str); 3] = [
    (
        b"[1\n[2]\n \n[3] [4]\r\n\n[5]",
        "line 11, column 3: syntax error; [2]; line 13, column 2: syntax error; line 14, column 5: syntax error; [5]; ",
    ),
    (
        b"\xff\n\"\\ud800\"\n{\"n\":1.5}\n340282366920938463463374607431768211456",
        "line 11, column 1: invalid UTF-8; line 12, column 8: lone surrogate; line 13, column 7: number with a fraction or an exponent; line 14, column 39: number too large; ",
    ),
    (
        b"nul\n{\"id\":}\n\n\"\\u0041\"",
        "line 11, column 4: syntax error; line 12, column 7: syntax error; \"\\u0041\"; ",
    ),
];

/// What is told of the input by a stream with places, the texts as they came.
fn told_with_places(alloc: Global, input: &[u8]) -> Result<String, Fail> {
    let mut bytes = Vec::from_slice(alloc, input)?;
    let mut stream = Stream::of_lines(alloc, Lines::behind(10, &mut bytes)).with_places();
    let mut told = Vec::new(alloc);
    while let Some(step) = stream.advance() {
        match (step, stream.text()) {
            (Ok(_), Some(text)) => told.extend_from_slice(text)?,
            (Err(unread), Some(_)) => {
                told.extend_from_slice(format!(in alloc; "{unread}")?.as_bytes())?
            }
            (_, None) => told.extend_from_slice(b"no text")?,
        }
        told.extend_from_slice(b"; ")?;
    }
    Ok(String::from_utf8(told)?)
}

#[test]
fn places_are_told(rt: HostRuntime) -> Result<(), Fail> {
    let alloc = rt.alloc();
    for &(input, wanted) in &PLACED {
        assert_eq!(rt; told_with_places(alloc, input)?.as_str(), wanted);
    }
    let mut bytes = Vec::from_slice(alloc, b"[1\n[2]")?;
    let mut reader = LineReader::new(alloc);
    assert!(rt; reader.value(Repeats::First).is_none() && reader.text().is_none());
    let mut read = 0;
    for line in Lines::new(&mut bytes) {
        match reader.read(line) {
            Ok(number) => {
                read = number;
                assert!(rt; reader.value(Repeats::First).is_some() && reader.text().is_none());
            }
            Err(unread) => assert!(rt; unread.line == 1 && unread.place.is_none()),
        }
    }
    assert_eq!(rt; read, 2);
    Ok(())
}

/// Of 100 lines of 3,000 bytes, which are two pieces, the last is behind 99 others.
#[test]
fn numbers_go_on_across_pieces(rt: HostRuntime) -> Result<(), Fail> {
    let alloc = rt.alloc();
    let mut input = Vec::new(alloc);
    for _ in 0..100 {
        input.resize(input.len() + 2999, b' ')?;
        input.push(b'\n')?;
    }
    assert_eq!(rt; line_count(&input), 100);
    let mut pieces = Pieces::new(input.as_slice());
    let mut piece = Vec::new(alloc);
    let (mut count, mut last) = (0, 0);
    for turn in 1..4 {
        if !pieces.next_piece(&mut piece)? {
            break;
        }
        count = turn;
        assert_eq!(rt; pieces.lines_before(), last);
        for line in pieces.lines(&mut piece) {
            assert_eq!(rt; line.number, last.saturating_add(1));
            last = line.number;
        }
    }
    assert_eq!(rt; (count, last), (2, 100));
    Ok(())
}
