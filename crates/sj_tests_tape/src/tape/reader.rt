use sj_tape::{Buffers, DEPTH_LIMIT, to_tape, to_tape_with_buffers};
use std::alloc::{AllocError, Global};

/// What the answer of a reading prints: the tape, or the kind of the refusal.
fn answer(alloc: Global, text: &[u8]) -> Result<String, AllocError> {
    let mut bytes = Vec::from_slice(alloc, text)?;
    match to_tape(alloc, bytes.as_mut_slice()) {
        Ok(tape) => format!(in alloc; "{tape:?}"),
        Err(kind) => format!(in alloc; "{kind:?}"),
    }
}

fn repeated(alloc: Global, part: &str, count: usize) -> Result<String, AllocError> {
    let mut text = String::new(alloc);
    for _ in 0..count {
        text.push_str(part)?;
    }
    Ok(text)
}

/// `count` times the first part, the middle, and `count` times the last part.
fn nested(
    alloc: Global,
    open: &str,
    middle: &str,
    close: &str,
    count: usize,
) -> Result<String, AllocError> {
    let mut text = repeated(alloc, open, count)?;
    text.push_str(middle)?;
    text.push_str(repeated(alloc, close, count)?.as_str())?;
    Ok(text)
}

/// Whether the text is read as these nodes.
fn reads_as(alloc: Global, text: &str, nodes: &str) -> Result<bool, AllocError> {
    let wanted = format!(in alloc; "Tape {{ nodes: [{nodes}] }}")?;
    Ok(answer(alloc, text.as_bytes())?.as_str() == wanted.as_str())
}

#[test]
fn nodes_and_counts(rt: HostRuntime) {
    for &(text, nodes) in &[
        (
            "{\"x\":{\"k\":1},\"k\":2}",
            "Object { len: 2, count: 6 }, String(\"x\"), Object { len: 1, count: 2 }, String(\"k\"), Static(U64(1)), String(\"k\"), Static(U64(2))",
        ),
        (" [ ] ", "Array { len: 0, count: 0 }"),
        (
            "[\"a\\u0041\",\"b\\n\",{\"k\\u00e9\":\"\\ud83d\\ude00x\",\"plain\":1},\"q\"]",
            "Array { len: 4, count: 8 }, String(\"aA\"), String(\"b\\n\"), Object { len: 2, count: 4 }, String(\"k\u{e9}\"), String(\"\u{1f600}x\"), String(\"plain\"), Static(U64(1)), String(\"q\")",
        ),
        (
            "[null,[true,false],{},\"\"]",
            "Array { len: 4, count: 6 }, Static(Null), Array { len: 2, count: 2 }, Static(Bool(true)), Static(Bool(false)), Object { len: 0, count: 0 }, String(\"\")",
        ),
        ("\t\r\n 0\n", "Static(U64(0))"),
    ] {
        assert!(rt; reads_as(rt.alloc(), text, nodes) == Ok(true), "{text}");
    }
}

/// Whether the text is read as this number.
fn number_is(alloc: Global, text: &str, node: &str) -> Result<bool, AllocError> {
    reads_as(alloc, text, format!(in alloc; "Static({node})")?.as_str())
}

#[test]
fn numbers(rt: HostRuntime) {
    for &(text, node) in &[
        ("18446744073709551615", "U64(18446744073709551615)"),
        ("18446744073709551616", "U128(18446744073709551616)"),
        ("10000000000000000000", "U64(10000000000000000000)"),
        (
            "340282366920938463463374607431768211455",
            "U128(340282366920938463463374607431768211455)",
        ),
        ("999999999999999999", "U64(999999999999999999)"),
        ("-999999999999999999", "I64(-999999999999999999)"),
        ("-9223372036854775808", "I64(-9223372036854775808)"),
        ("-9223372036854775809", "I128(-9223372036854775809)"),
        (
            "-170141183460469231731687303715884105728",
            "I128(-170141183460469231731687303715884105728)",
        ),
        (
            "99999999999999999999999999999999999999",
            "U128(99999999999999999999999999999999999999)",
        ),
        ("9999999999999999999", "U64(9999999999999999999)"),
        ("18446744073709551617", "U128(18446744073709551617)"),
        ("19999999999999999999", "U128(19999999999999999999)"),
        ("20000000000000000000", "U128(20000000000000000000)"),
        ("-9223372036854775807", "I64(-9223372036854775807)"),
        ("-9999999999999999999", "I128(-9999999999999999999)"),
        ("-10000000000000000000", "I128(-10000000000000000000)"),
        ("-0", "I64(0)"),
        ("7", "U64(7)"),
    ] {
        assert!(rt; number_is(rt.alloc(), text, node) == Ok(true), "{text}");
    }
}

/// Whether the answer is this.
fn answers(alloc: Global, text: &[u8], wanted: &str) -> Result<bool, AllocError> {
    Ok(answer(alloc, text)?.as_str() == wanted)
}

/// Texts that are not read, each with the name of its fault.
const REFUSALS: [(&str, &str); 35] = [
    ("", "Syntax"),
    ("  ", "Syntax"),
    ("01", "Syntax"),
    ("[1,]", "Syntax"),
    ("-", "Syntax"),
    ("nul", "Syntax"),
    ("[1 2]", "Syntax"),
    ("{\"a\":1", "Syntax"),
    ("\"\\u12g4\"", "Syntax"),
    ("\"\t\"", "Syntax"),
    ("+1", "Syntax"),
    (".5", "Syntax"),
    ("-01", "Syntax"),
    ("01.5", "Syntax"),
    ("\"\\q\"", "Syntax"),
    ("\"\\", "Syntax"),
    ("\"\\ud83d", "Syntax"),
    ("1 1", "Syntax"),
    ("{1:1}", "Syntax"),
    ("\"\\ud83d\"", "LoneSurrogate"),
    ("\"\\ude00\"", "LoneSurrogate"),
    ("\"\\ud83d\\u0041\"", "LoneSurrogate"),
    ("\"\\ud83dx\"", "LoneSurrogate"),
    ("\"\\ud83d\\n\"", "LoneSurrogate"),
    ("1.5", "Float"),
    ("1e3", "Float"),
    ("1.", "Float"),
    ("1e", "Float"),
    ("[1.5", "Float"),
    ("340282366920938463463374607431768211456e1", "Float"),
    ("340282366920938463463374607431768211456", "NumberTooLarge"),
    ("-170141183460469231731687303715884105729", "NumberTooLarge"),
    ("1000000000000000000000000000000000000000", "NumberTooLarge"),
    ("\u{feff}1", "Syntax"),
    ("[\"a\\n\",\"\\x\"]", "Syntax"),
];

#[test]
fn refusals(rt: HostRuntime) {
    for &(text, kind) in &REFUSALS {
        assert!(rt;
            answers(rt.alloc(), text.as_bytes(), kind) == Ok(true),
            "{text}"
        );
    }
}

#[test]
fn bytes_that_are_no_text(rt: HostRuntime) {
    let texts: [&[u8]; 5] = [
        b"{\"\xff\":1}",
        b"\"\xc3",
        b"[1,\xff",
        b"\"\xff\"",
        b"01\xff",
    ];
    for &text in &texts {
        assert!(rt;
            answers(rt.alloc(), text, "InvalidUtf8") == Ok(true),
            "{text:?}"
        );
    }
}

#[test]
fn beginnings(rt: HostRuntime) {
    let whole = "{\"a\":[1,\"\\u00e9\",true]}".as_bytes();
    for len in 0..whole.len() {
        assert!(rt;
            answers(rt.alloc(), &whole[..len], "Syntax") == Ok(true),
            "{len}"
        );
    }
}

/// Texts of two parts around a middle, how often the parts come, and what the answer begins with.
const DEPTHS: [(&str, &str, &str, usize, &str); 6] = [
    ("[", "", "]", DEPTH_LIMIT, "Tape"),
    ("[", "", "]", DEPTH_LIMIT + 1, "TooDeep"),
    ("{\"a\":", "1", "}", DEPTH_LIMIT, "Tape"),
    ("{\"a\":", "1", "}", DEPTH_LIMIT + 1, "TooDeep"),
    ("[", "", "", 1024, "Syntax"),
    ("[", "", "", 1025, "TooDeep"),
];

/// Whether the answer to a nested text begins so.
fn nested_answers(
    alloc: Global,
    (open, middle, close, count, wanted): (&str, &str, &str, usize, &str),
) -> Result<bool, AllocError> {
    let text = nested(alloc, open, middle, close, count)?;
    Ok(answer(alloc, text.as_bytes())?.as_str().starts_with(wanted))
}

#[test]
fn depths(rt: HostRuntime) {
    for (i, &row) in DEPTHS.iter().enumerate() {
        assert!(rt; nested_answers(rt.alloc(), row) == Ok(true), "{i}");
    }
}

/// What the answer of a reading with the buffers prints.
fn answer_with_buffers(
    alloc: Global,
    text: &str,
    buffers: &mut Buffers,
) -> Result<String, AllocError> {
    let mut bytes = Vec::from_slice(alloc, text.as_bytes())?;
    match to_tape_with_buffers(alloc, bytes.as_mut_slice(), buffers) {
        Ok(tape) => tape.as_value().to_string(alloc),
        Err(kind) => format!(in alloc; "{kind:?}"),
    }
}

/// Texts, and what their readings answer.
const ANSWERS: [(&str, &str); 8] = [
    ("[1,[2,\"\\u0041\\n\"]]", "[1,[2,\"A\\n\"]]"),
    ("[]", "[]"),
    ("{\"k\\\\\":\"\\/\"}", "{\"k\\\\\":\"/\"}"),
    ("[1,", "Syntax"),
    ("[\"\\n\",", "Syntax"),
    ("\"\\ud83d\"", "LoneSurrogate"),
    ("{\"a\\t\":1.5}", "Float"),
    ("x", "Syntax"),
];

/// Whether the answer behind another text is the wanted one.
fn is_answered(
    alloc: Global,
    before: &str,
    (text, wanted): (&str, &str),
    buffers: &mut Buffers,
) -> Result<bool, AllocError> {
    let _ = answer_with_buffers(alloc, before, buffers)?;
    Ok(answer_with_buffers(alloc, text, buffers)?.as_str() == wanted)
}

/// Which answers are the wanted ones, behind the text alone and behind all before.
fn answers_behind(
    alloc: Global,
    before: &str,
    kept: &mut Buffers,
) -> Result<[[bool; 8]; 2], AllocError> {
    let mut alone = [false; 8];
    let mut behind_all = [false; 8];
    for (i, row) in ANSWERS.into_iter().enumerate() {
        let mut buffers = Buffers::new(alloc, 4)?;
        if let Some(told) = alone.get_mut(i) {
            *told = is_answered(alloc, before, row, &mut buffers)?;
        }
        if let Some(told) = behind_all.get_mut(i) {
            *told = is_answered(alloc, before, row, kept)?;
        }
    }
    Ok([alone, behind_all])
}

/// Texts that were read before: a beginning, a part and how often it comes, and an end.
const BEFORE: [(&str, &str, usize, &str); 7] = [
    ("\"", "plain text ", 100, "\""),
    ("[", "\"\\u00e9\\n\",", 100, "null]"),
    ("[[", "\"\\u00e9\\n\",", 100, "null],\"\\ud83d\"]"),
    ("[[[[\"\\n\",[", "", 0, ""),
    ("\"\\n\"", "", 0, ""),
    ("{\"a\\t\":1.5}", "", 0, ""),
    ("", "", 0, ""),
];

/// Whether all answers behind such a text are the wanted ones.
fn all_answer(
    alloc: Global,
    (open, part, count, close): (&str, &str, usize, &str),
    kept: &mut Buffers,
) -> Result<bool, AllocError> {
    let middle = repeated(alloc, part, count)?;
    let before = format!(in alloc; "{open}{middle}{close}")?;
    Ok(answers_behind(alloc, before.as_str(), kept)? == [[true; 8]; 2])
}

#[test]
fn answers_do_not_depend_on_buffers(rt: HostRuntime) -> Result<(), AllocError> {
    let mut kept = Buffers::new(rt.alloc(), 4)?;
    for (i, &row) in BEFORE.iter().enumerate() {
        assert!(rt; all_answer(rt.alloc(), row, &mut kept)?, "{i}");
    }
    Ok(())
}
