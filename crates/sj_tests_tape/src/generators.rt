//! Generators. The texts are those of Python's `json.dumps(text, ensure_ascii=False)`.

ghost use Rattle.std.specs.Prelude.{◌+◌};
ghost use Rattle.sj_print.specs.Generators.{CanIndent};

use sj_print::{
    BaseGenerator, DumpGenerator, PrettyGenerator, PrettyWriterGenerator, WriterGenerator,
};
use sj_text_core::StaticNode;
use std::alloc::{AllocError, Global};

const TEXTS: [(&str, &str); 52] = [
    ("\x00", "\"\\u0000\""),
    ("\x01", "\"\\u0001\""),
    ("\x02", "\"\\u0002\""),
    ("\x03", "\"\\u0003\""),
    ("\x04", "\"\\u0004\""),
    ("\x05", "\"\\u0005\""),
    ("\x06", "\"\\u0006\""),
    ("\x07", "\"\\u0007\""),
    ("\x08", "\"\\b\""),
    ("\x09", "\"\\t\""),
    ("\x0a", "\"\\n\""),
    ("\x0b", "\"\\u000b\""),
    ("\x0c", "\"\\f\""),
    ("\x0d", "\"\\r\""),
    ("\x0e", "\"\\u000e\""),
    ("\x0f", "\"\\u000f\""),
    ("\x10", "\"\\u0010\""),
    ("\x11", "\"\\u0011\""),
    ("\x12", "\"\\u0012\""),
    ("\x13", "\"\\u0013\""),
    ("\x14", "\"\\u0014\""),
    ("\x15", "\"\\u0015\""),
    ("\x16", "\"\\u0016\""),
    ("\x17", "\"\\u0017\""),
    ("\x18", "\"\\u0018\""),
    ("\x19", "\"\\u0019\""),
    ("\x1a", "\"\\u001a\""),
    ("\x1b", "\"\\u001b\""),
    ("\x1c", "\"\\u001c\""),
    ("\x1d", "\"\\u001d\""),
    ("\x1e", "\"\\u001e\""),
    ("\x1f", "\"\\u001f\""),
    ("\"", "\"\\\"\""),
    ("\\", "\"\\\\\""),
    ("\x7f", "\"\x7f\""),
    ("/", "\"/\""),
    ("\u{e9}", "\"\u{e9}\""),
    ("\u{20ac}", "\"\u{20ac}\""),
    ("\u{1f600}", "\"\u{1f600}\""),
    ("", "\"\""),
    ("bla", "\"bla\""),
    ("a \"long\" test", "\"a \\\"long\\\" test\""),
    (r#"a \"long\" test"#, r#""a \\\"long\\\" test""#),
    ("ends with a quote\"", "\"ends with a quote\\\"\""),
    ("\"\"", "\"\\\"\\\"\""),
    ("tab\x09and\x1fnul\x00", "\"tab\\tand\\u001fnul\\u0000\""),
    ("aaaaaaaaaaaaaaa\"", "\"aaaaaaaaaaaaaaa\\\"\""),
    ("aaaaaaaaaaaaaaaa\\", "\"aaaaaaaaaaaaaaaa\\\\\""),
    (
        "aaaaaaaaaaaaaaaaaaaaaaaaaaaaaaa\x0abbbbbbbbbbbbbbbbbbbbbbbbbbbbbbbbb",
        "\"aaaaaaaaaaaaaaaaaaaaaaaaaaaaaaa\\nbbbbbbbbbbbbbbbbbbbbbbbbbbbbbbbbb\"",
    ),
    (
        "xxxxxxxxxxxxxxxxxxxxxxxxxxxxxxxxxxxxxxxx",
        "\"xxxxxxxxxxxxxxxxxxxxxxxxxxxxxxxxxxxxxxxx\"",
    ),
    (
        "\u{e9}\u{e9}\u{e9}\u{e9}\u{e9}\u{e9}\u{e9}\u{e9}\u{e9}\x7f\x1e\u{20ac}\u{20ac}\u{20ac}\u{20ac}\u{20ac}\u{20ac}\u{20ac}\u{20ac}\u{20ac}",
        "\"\u{e9}\u{e9}\u{e9}\u{e9}\u{e9}\u{e9}\u{e9}\u{e9}\u{e9}\x7f\\u001e\u{20ac}\u{20ac}\u{20ac}\u{20ac}\u{20ac}\u{20ac}\u{20ac}\u{20ac}\u{20ac}\"",
    ),
    ("k\"e\\y", "\"k\\\"e\\\\y\""),
];

const SCALARS: [(StaticNode, &str); 15] = [
    (StaticNode::Null, "null"),
    (StaticNode::Bool(true), "true"),
    (StaticNode::Bool(false), "false"),
    (StaticNode::I64(0), "0"),
    (StaticNode::I64(-1), "-1"),
    (StaticNode::I64(i64::MIN), "-9223372036854775808"),
    (StaticNode::I64(i64::MAX), "9223372036854775807"),
    (StaticNode::U64(0), "0"),
    (StaticNode::U64(u64::MAX), "18446744073709551615"),
    (
        StaticNode::I128(i128::MIN),
        "-170141183460469231731687303715884105728",
    ),
    (
        StaticNode::I128(i128::MAX),
        "170141183460469231731687303715884105727",
    ),
    (StaticNode::I128(-42), "-42"),
    (StaticNode::U128(0), "0"),
    (
        StaticNode::U128(u128::MAX),
        "340282366920938463463374607431768211455",
    ),
    (
        StaticNode::U128(18446744073709551616),
        "18446744073709551616",
    ),
];

/// Whether both compact generators write the text so.
fn is_compact(alloc: Global, text: &str, print: &str) -> Result<[bool; 2], AllocError> {
    let mut out = Vec::new(alloc);
    WriterGenerator::new(&mut out).write_string(text)?;
    let mut dump = DumpGenerator::new(alloc);
    dump.write_string(text)?;
    Ok([
        out.as_slice() == print.as_bytes(),
        dump.consume().as_str() == print,
    ])
}

/// Whether both pretty generators write the text so.
fn is_pretty(alloc: Global, text: &str, print: &str) -> Result<[bool; 2], AllocError> {
    let mut out = Vec::new(alloc);
    PrettyWriterGenerator::new(&mut out, 2).write_string(text)?;
    let mut pretty = PrettyGenerator::new(alloc, 2);
    pretty.write_string(text)?;
    Ok([
        out.as_slice() == print.as_bytes(),
        pretty.consume().as_str() == print,
    ])
}

#[test]
fn strings_are_escaped(rt: HostRuntime) {
    for &(text, print) in &TEXTS {
        assert!(rt;
            is_compact(rt.alloc(), text, print) == Ok([true; 2]),
            "{print}"
        );
        assert!(rt;
            is_pretty(rt.alloc(), text, print) == Ok([true; 2]),
            "{print}"
        );
    }
}

/// Whether both generators and a display write the scalar so.
fn is_printed(alloc: Global, node: StaticNode, print: &str) -> Result<[bool; 3], AllocError> {
    let mut dump = DumpGenerator::new(alloc);
    dump.write_static(node)?;
    let mut pretty = PrettyGenerator::new(alloc, 4);
    pretty.write_static(node)?;
    Ok([
        dump.consume().as_str() == print,
        pretty.consume().as_str() == print,
        format!(in alloc; "{node}")?.as_str() == print,
    ])
}

#[test]
fn scalars_are_printed(rt: HostRuntime) {
    for &(node, print) in &SCALARS {
        assert!(rt;
            is_printed(rt.alloc(), node, print) == Ok([true; 3]),
            "{print}"
        );
    }
}

/// Writes `{"a":[1,{}]}`.
fn write_object<G: BaseGenerator>(generator: &mut G) -> Result<(), AllocError>
    requires outer { CanIndent (G.style generator.old) (G.level generator.old) }
    requires inner { CanIndent (G.style generator.old) (G.level generator.old + 1) }
{
    generator.write("{")?;
    generator.indent();
    generator.new_line()?;
    generator.write_string("a")?;
    generator.write_min(": ", ":")?;
    generator.write("[")?;
    generator.indent();
    generator.new_line()?;
    generator.write_static(StaticNode::U64(1))?;
    generator.write(",")?;
    generator.new_line()?;
    generator.write("{}")?;
    generator.dedent();
    generator.new_line()?;
    generator.write("]")?;
    generator.dedent();
    generator.new_line()?;
    generator.write("}")
}

const COMPACT: &str = "{\"a\":[1,{}]}";

const TWO_SPACES: &str = "{\n  \"a\": [\n    1,\n    {}\n  ]\n}";

const NO_SPACES: &str = "{\n\"a\": [\n1,\n{}\n]\n}";

/// Whether both compact generators lay the object out so.
fn is_laid_out(alloc: Global) -> Result<[bool; 2], AllocError> {
    let mut out = Vec::new(alloc);
    write_object(&mut WriterGenerator::new(&mut out))?;
    let mut dump = DumpGenerator::new(alloc);
    write_object(&mut dump)?;
    Ok([
        out.as_slice() == COMPACT.as_bytes(),
        dump.consume().as_str() == COMPACT,
    ])
}

/// Whether both pretty generators lay the object out so.
fn is_indented(alloc: Global, spaces: u16, print: &str) -> Result<[bool; 2], AllocError> {
    let mut out = Vec::new(alloc);
    write_object(&mut PrettyWriterGenerator::new(&mut out, spaces))?;
    let mut pretty = PrettyGenerator::new(alloc, spaces);
    write_object(&mut pretty)?;
    Ok([
        out.as_slice() == print.as_bytes(),
        pretty.consume().as_str() == print,
    ])
}

#[test]
fn an_object_is_laid_out(rt: HostRuntime) {
    let alloc = rt.alloc();
    let told = [
        is_laid_out(alloc),
        is_indented(alloc, 2, TWO_SPACES),
        is_indented(alloc, 0, NO_SPACES),
    ];
    assert_eq!(rt; told, [Ok([true; 2]); 3]);
}
