//! Calls on generators, behind `[`; in pretty prints at level 1.

use refusals_common::{Fault, say, say_bytes, say_call};
use sj_print::{
    BaseGenerator, DumpGenerator, PrettyGenerator, PrettyWriterGenerator, WriterGenerator,
};
use sj_text_core::StaticNode;
use std::alloc::AllocError;

/// How many spaces a level has in pretty prints.
const SPACES: u16 = 20;

/// What is called on a generator.
#[derive(Clone, Copy, Debug)]
enum Call {
    Write,
    WriteString,
    WriteStatic,
    WriteMin,
    NewLine,
}

impl Call {
    fn of(word: &str) -> Result<Call, Fault> {
        match word {
            "write" => Ok(Call::Write),
            "write_string" => Ok(Call::WriteString),
            "write_static" => Ok(Call::WriteStatic),
            "write_min" => Ok(Call::WriteMin),
            "new_line" => Ok(Call::NewLine),
            _ => Err(Fault::Usage),
        }
    }
}

/// Makes the call on that generator, and tells what was written.
pub fn write(rt: &(impl Print + AllocGlobal), call: &str, generator: &str) -> Result<(), Fault> {
    let alloc = rt.alloc();
    let call = Call::of(call)?;
    let mut out = Vec::new(alloc);
    match generator {
        "dump" => {
            let mut dump = DumpGenerator::new(alloc);
            call_on(rt, call, &mut dump)?;
            out.extend_from_slice(dump.consume().as_bytes())?;
        }
        "pretty" => {
            let mut pretty = PrettyGenerator::new(alloc, SPACES);
            pretty.indent();
            call_on(rt, call, &mut pretty)?;
            out.extend_from_slice(pretty.consume().as_bytes())?;
        }
        "writer" => call_on(rt, call, &mut WriterGenerator::new(&mut out))?,
        "pretty_writer" => {
            let mut writer = PrettyWriterGenerator::new(&mut out, SPACES);
            writer.indent();
            call_on(rt, call, &mut writer)?;
        }
        _ => return Err(Fault::Usage),
    }
    out.push(b'\n')?;
    say_bytes(rt, out.as_slice())
}

/// Makes the call between the first two writes, and again where it was refused.
fn call_on<G: BaseGenerator>(
    rt: &(impl Print + AllocGlobal),
    call: Call,
    out: &mut G,
) -> Result<(), Fault> {
    out.write("[")?;
    say_call(rt)?;
    if append(call, out).is_ok() {
        return say(rt, "done: ");
    }
    say(rt, "AllocError, ")?;
    append(call, out)?;
    say(rt, "then done: ")
}

fn append<G: BaseGenerator>(call: Call, out: &mut G) -> Result<(), AllocError> {
    match call {
        Call::Write => out.write("a text of more than eight bytes"),
        Call::WriteString => out.write_string("a \"text\" with a line feed\n"),
        Call::WriteStatic => out.write_static(StaticNode::U128(u128::MAX)),
        Call::WriteMin => out.write_min("the longer one of the two", "the shorter one"),
        Call::NewLine => out.new_line(),
    }
}
