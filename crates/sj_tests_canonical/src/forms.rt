//! Canonical prints of the three forms: what they are comes from Python's `json`, with the keys sorted by their UTF-16 code units.

use super::{borrowed, owned};
use sj_canonical::Canonical;
use sj_lazy::Value;
use sj_tape::to_tape;
use std::alloc::Global;
use std::test::Fail;

/// Texts, and their canonical forms.
const FORMS: [(&str, &str); 24] = [
    ("null", "null"),
    ("true", "true"),
    ("-0", "0"),
    ("7", "7"),
    ("\"a\"", "\"a\""),
    ("[]", "[]"),
    ("{}", "{}"),
    ("[ ]", "[]"),
    ("{ }", "{}"),
    (" [ 1 , 2 ] ", "[1,2]"),
    ("18446744073709551616", "18446744073709551616"),
    ("-9223372036854775809", "-9223372036854775809"),
    ("9007199254740993", "9007199254740993"),
    (
        "340282366920938463463374607431768211455",
        "340282366920938463463374607431768211455",
    ),
    (
        "-170141183460469231731687303715884105728",
        "-170141183460469231731687303715884105728",
    ),
    ("{\"b\":1,\"a\":2}", "{\"a\":2,\"b\":1}"),
    (
        "{\"b\":{\"d\":1,\"c\":[{\"z\":0,\"y\":[]}]},\"a\":{}}",
        "{\"a\":{},\"b\":{\"c\":[{\"y\":[],\"z\":0}],\"d\":1}}",
    ),
    (
        "{\"\":\"empty\",\"aa\":1,\"a\":2,\"b\":3,\"A\":4,\"10\":5,\"9\":6,\"_\":7}",
        "{\"\":\"empty\",\"10\":5,\"9\":6,\"A\":4,\"_\":7,\"a\":2,\"aa\":1,\"b\":3}",
    ),
    (
        "\"\\u0000\\u0001\\u0008\\t\\n\\u000b\\f\\r\\u001f\\u007f\\\"\\\\\\/\\u00e9\\u20ac\\ud83d\\ude00\"",
        "\"\\u0000\\u0001\\b\\t\\n\\u000b\\f\\r\\u001f\u{7f}\\\"\\\\/\u{e9}\u{20ac}\u{1f600}\"",
    ),
    (
        "{\"\\u20ac\":\"Euro Sign\",\"\\r\":\"Carriage Return\",\"\\ufb33\":\"Hebrew Letter Dalet With Dagesh\",\"1\":\"One\",\"\\ud83d\\ude00\":\"Emoji: Grinning Face\",\"\\u0080\":\"Control\",\"\\u00f6\":\"Latin Small Letter O With Diaeresis\"}",
        "{\"\\r\":\"Carriage Return\",\"1\":\"One\",\"\u{80}\":\"Control\",\"\u{f6}\":\"Latin Small Letter O With Diaeresis\",\"\u{20ac}\":\"Euro Sign\",\"\u{1f600}\":\"Emoji: Grinning Face\",\"\u{fb33}\":\"Hebrew Letter Dalet With Dagesh\"}",
    ),
    (
        "{\"\\ue000\":1,\"\\ud800\\udc00\":2,\"\\ud7ff\":3,\"\\uffff\":4,\"\\udbff\\udfff\":5,\"\\ufffd\":6}",
        "{\"\u{d7ff}\":3,\"\u{10000}\":2,\"\u{10ffff}\":5,\"\u{e000}\":1,\"\u{fffd}\":6,\"\u{ffff}\":4}",
    ),
    (
        "{\"a\\ud83d\\ude00\":1,\"a\\uff00\":2,\"a\":3,\"a\\ud83d\\ude01\":4}",
        "{\"a\":3,\"a\u{1f600}\":1,\"a\u{1f601}\":4,\"a\u{ff00}\":2}",
    ),
    (
        "{\"1\":{\"f\":{\"f\":\"hi\",\"F\":5},\"\\n\":56},\"10\":{},\"\":\"empty\",\"a\":{},\"111\":[{\"e\":\"yes\",\"E\":\"no\"}],\"A\":{}}",
        "{\"\":\"empty\",\"1\":{\"\\n\":56,\"f\":{\"F\":5,\"f\":\"hi\"}},\"10\":{},\"111\":[{\"E\":\"no\",\"e\":\"yes\"}],\"A\":{},\"a\":{}}",
    ),
    // an object of many members
    (
        "{\"\\ud7ff\":0,\"\\u007f0\\ud7ff\":1,\"0\\ud800\\udc00\\u0080\":2,\"\\udbff\\udfffAa\":3,\"\":4,\"A\":5,\"aZ \":6,\"Z\\u00ff\":7,\"\\u0800\\u0080\":8,\"\\u0080\":9,\"\\ud800\\udc00\":10,\"z \\ufffd\":11,\"\\udbff\\udfff\\uefff\":12,\"Az\":13,\"\\ud7ff0\":14,\"\\uefff\":15,\"a0\":16,\"! \\uf000\":17,\"\\udbff\\udfff\\u07ff\\ue000\":18,\"0\\u0080\\ue000\":19,\"\\uf000\":20,\"\\ud800\\udc00\\uefffZ\":21,\"\\udbff\\udfff\\ue000\":22,\"\\u00ff\\u00ffa\":23,\"\\uefff\\u0080\\uffff\":24,\" \\ud7ff\":25,\"!!\":26,\"\\uffffAa\":27,\" \\uf000z\":28,\"\\ud83d\\ude00\\u00ff\\ufffd\":29,\"\\u007f0Z\":30,\" \\uf000\\uf000\":31,\"\\u0800\\ufffd\\u00ff\":32,\" \\uefff\":33,\"0 \\uf000\":34,\"za!\":35,\"z\\uefff\\ue000\":36,\"z\\u00ff\\uffff\":37,\"\\ue000Z\":38,\"!\":39,\"\\uffff\\ufffdz\":40,\"\\ud83d\\ude00\\u0080\\ud83d\\ude00\":41,\"\\u07ffA\":42,\"\\ud800\\udc00\\u007f\\uf000\":43,\"Z\\uffff\":44,\"\\u0080!Z\":45,\"\\u00ff\\ufffdz\":46,\" \\uffff\":47,\"\\udbff\\udfff\\ufffd\":48,\"\\udbff\\udfff\":49,\"AZa\":50,\"\\ud7ff\\uffff\\udbff\\udfff\":51,\"\\ud83d\\ude00\\ud83d\\ude00\":52,\"\\uffff\\uefff\\u0080\":53,\"\\ud7ff\\ufffd\":54,\"\\ud83d\\ude00A\":55,\"\\u0800\":56,\"\\uefff \":57,\"\\u007f\":58,\"\\uf000\\ue000\\ud7ff\":59,\"z\":60,\" \\uf000\\ue000\":61,\"z\\u007f\":62,\"0\\ud7ff\\ud7ff\":63,\"\\ud83d\\ude00 \":64,\"\\u0080\\u007fa\":65,\"\\u0800!\\ud83d\\ude00\":66,\"\\u07ff\":67,\"\\uffff\":68,\"\\u0080!a\":69}",
        "{\"\":4,\" \u{d7ff}\":25,\" \u{efff}\":33,\" \u{f000}z\":28,\" \u{f000}\u{e000}\":61,\" \u{f000}\u{f000}\":31,\" \u{ffff}\":47,\"!\":39,\"! \u{f000}\":17,\"!!\":26,\"0 \u{f000}\":34,\"0\u{80}\u{e000}\":19,\"0\u{d7ff}\u{d7ff}\":63,\"0\u{10000}\u{80}\":2,\"A\":5,\"AZa\":50,\"Az\":13,\"Z\u{ff}\":7,\"Z\u{ffff}\":44,\"a0\":16,\"aZ \":6,\"z\":60,\"z \u{fffd}\":11,\"za!\":35,\"z\u{7f}\":62,\"z\u{ff}\u{ffff}\":37,\"z\u{efff}\u{e000}\":36,\"\u{7f}\":58,\"\u{7f}0Z\":30,\"\u{7f}0\u{d7ff}\":1,\"\u{80}\":9,\"\u{80}!Z\":45,\"\u{80}!a\":69,\"\u{80}\u{7f}a\":65,\"\u{ff}\u{ff}a\":23,\"\u{ff}\u{fffd}z\":46,\"\u{7ff}\":67,\"\u{7ff}A\":42,\"\u{800}\":56,\"\u{800}!\u{1f600}\":66,\"\u{800}\u{80}\":8,\"\u{800}\u{fffd}\u{ff}\":32,\"\u{d7ff}\":0,\"\u{d7ff}0\":14,\"\u{d7ff}\u{fffd}\":54,\"\u{d7ff}\u{ffff}\u{10ffff}\":51,\"\u{10000}\":10,\"\u{10000}\u{7f}\u{f000}\":43,\"\u{10000}\u{efff}Z\":21,\"\u{1f600} \":64,\"\u{1f600}A\":55,\"\u{1f600}\u{80}\u{1f600}\":41,\"\u{1f600}\u{ff}\u{fffd}\":29,\"\u{1f600}\u{1f600}\":52,\"\u{10ffff}\":49,\"\u{10ffff}Aa\":3,\"\u{10ffff}\u{7ff}\u{e000}\":18,\"\u{10ffff}\u{e000}\":22,\"\u{10ffff}\u{efff}\":12,\"\u{10ffff}\u{fffd}\":48,\"\u{e000}Z\":38,\"\u{efff}\":15,\"\u{efff} \":57,\"\u{efff}\u{80}\u{ffff}\":24,\"\u{f000}\":20,\"\u{f000}\u{e000}\u{d7ff}\":59,\"\u{ffff}\":68,\"\u{ffff}Aa\":27,\"\u{ffff}\u{efff}\u{80}\":53,\"\u{ffff}\u{fffd}z\":40}",
    ),
];

/// Whether each form of the text's value has that canonical print.
fn is_printed(alloc: Global, text: &str, wanted: &str) -> Result<bool, Fail> {
    let mut bytes = text.as_bytes().to_vec(alloc)?;
    let tape = to_tape(alloc, bytes.as_mut_slice())?;
    let part = tape.as_value();
    let lazy: Value<'_, '_, '_> = Value::from_tape(part);
    let printed = [
        owned(alloc, text)?.canonical(alloc)?,
        borrowed(alloc, text)?.canonical(alloc)?,
        part.canonical(alloc)?,
        lazy.canonical(alloc)?,
        lazy.into_owned(alloc)?.canonical(alloc)?,
    ];
    for print in &printed {
        if print.as_str() != wanted {
            return Ok(false);
        }
    }
    Ok(true)
}

/// A canonical form is its own.
#[test]
fn forms_are_printed(rt: HostRuntime) -> Result<(), Fail> {
    let alloc = rt.alloc();
    for &(text, wanted) in &FORMS {
        assert!(rt; is_printed(alloc, text, wanted)? && is_printed(alloc, wanted, wanted)?);
    }
    Ok(())
}
