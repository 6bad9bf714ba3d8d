//! Answers to command lines. What a read finds is written out where it stands: no reply is made a
//! text of its own first.

ghost use Rattle.std.specs.Prelude.{◌≡◌, length, OnOk, OnErr, IsErrOf};
ghost use Rattle.sj_text_core.specs.inner.Begun.{IsBegunBy};
ghost use Rattle.sj_run.specs.Answered.{AnswersLines, PassesLines};
ghost use Rattle.sj_run.specs.inner.Answered.{AnswersCommand, AnswersLine, PassesOne, PassesLine};
ghost use Rattle.sj_commands.specs.Lines.{full_lines, line_texts};
ghost use Rattle.sj_commands.specs.Meant.{request_meant};

use crate::document::Way;
use crate::root::Root;
use crate::runs::Why;
use sj_commands::{Request, line_len, request_of, text_len};
use sj_object::KeyText;
use std::alloc::Global;

/// Answers a request, and appends the text of the reply.
fn answer<V: Root<T>, T: KeyText + Drop>(
    alloc: Global,
    value: &mut V,
    way: Way,
    request: Request,
    out: &mut Vec<u8>,
) -> Result<(), Why>
    ensures ok { OnOk result (AnswersCommand (V.part value.old) (request_meant request) (V.part value.new) out.old.items out.new.items) }
    ensures err { OnErr result (IsBegunBy out.old.items out.new.items) }
    ensures too_long { IsErrOf result Why.TooLong → PassesOne (V.part value.old) (request_meant request) (length out.old.items) }
{
    match request {
        Request::Read(path, read) => value.write(way, &path, &read, out),
        Request::Write(path, mut write) => {
            value.change(alloc, way, &path, &mut write)?.write(out)
        }
        Request::Bad => Ok(out.extend_from_slice(b"bad command")?),
    }
}

/// Answers the request of a line. What was read of the line is gone when it is answered.
fn answer_line<V: Root<T>, T: KeyText + Drop>(
    alloc: Global,
    value: &mut V,
    way: Way,
    line: &mut [u8],
    out: &mut Vec<u8>,
) -> Result<(), Why>
    ensures ok { OnOk result (AnswersLine (V.part value.old) line.old (V.part value.new) out.old.items out.new.items) }
    ensures err { OnErr result (IsBegunBy out.old.items out.new.items) }
    ensures too_long { IsErrOf result Why.TooLong → PassesLine (V.part value.old) line.old (length out.old.items) }
{
    let request = request_of(alloc, line)?;
    answer::<V, T>(alloc, value, way, request, out)?;
    out.push(b'\n')?;
    Ok(())
}

/// Answers the commands of lines in turn. Lines without bytes are passed over.
fn answer_lines<V: Root<T>, T: KeyText + Drop>(
    alloc: Global,
    value: &mut V,
    way: Way,
    lines: &mut [u8],
    out: &mut Vec<u8>,
) -> Result<(), Why>
    ensures ok { OnOk result (AnswersLines (V.part value.old) (line_texts (full_lines lines.old)) (V.part value.new) out.old.items out.new.items) }
    ensures err { OnErr result (IsBegunBy out.old.items out.new.items) }
    ensures too_long { IsErrOf result Why.TooLong → PassesLines (V.part value.old) (line_texts (full_lines lines.old)) (length out.old.items) }
{
    let mut at = 0;
    while at < lines.len() {
        let end = at + line_len(&lines[at..]);
        let stop = at + text_len(&lines[at..end]);
        if at < stop {
            answer_line::<V, T>(alloc, value, way, &mut lines[at..stop], out)?;
        }
        at = end;
    }
    Ok(())
}

/// Answers the commands of lines in turn. On a fault the output is as it was.
pub(super) fn answer_all<V: Root<T>, T: KeyText + Drop>(
    alloc: Global,
    value: &mut V,
    way: Way,
    lines: &mut [u8],
    out: &mut Vec<u8>,
) -> Result<(), Why>
    ensures ok { OnOk result (AnswersLines (V.part value.old) (line_texts (full_lines lines.old)) (V.part value.new) out.old.items out.new.items) }
    ensures err { OnErr result (out.new.items ≡ out.old.items) }
    ensures too_long { IsErrOf result Why.TooLong → PassesLines (V.part value.old) (line_texts (full_lines lines.old)) (length out.old.items) }
{
    let start = out.len();
    let done = answer_lines::<V, T>(alloc, value, way, lines, out);
    if done.is_err() {
        out.truncate(start);
    }
    done
}
