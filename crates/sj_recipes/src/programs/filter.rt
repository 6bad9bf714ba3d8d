//! Newline-delimited messages: those of one topic go out as they came.

use sj_pieces::Pieces;
use sj_stream::{LineReader, Repeats};
use std::alloc::Global;
use std::io::{BufRead, Write};

/// Writes the messages of the topic, and tells of each line that is not read.
pub fn filter<R: BufRead + Drop, W: Write>(
    alloc: Global,
    input: R,
    topic: &str,
    out: &mut W,
    told: &mut W,
) -> anyhow::Result<()> {
    let mut pieces = Pieces::new(input);
    let mut piece = Vec::new(alloc);
    for _ in 0..u64::MAX {
        if !pieces.next_piece(&mut piece)? {
            break;
        }
        filter_piece(alloc, &pieces, &mut piece, topic, out, told)?;
    }
    Ok(())
}

fn filter_piece<R: BufRead + Drop, W: Write>(
    alloc: Global,
    pieces: &Pieces<R>,
    piece: &mut [u8],
    topic: &str,
    out: &mut W,
    told: &mut W,
) -> anyhow::Result<()> {
    let mut reader = LineReader::new(alloc).with_places();
    for line in pieces.lines(piece) {
        match reader.read(line) {
            Ok(_) => write_line(&reader, topic, out)?,
            Err(unread) => writeln!(told, "{unread}")?,
        }
    }
    Ok(())
}

/// Writes the line that was read last, where it is of the topic.
fn write_line<W: Write>(reader: &LineReader<'_>, topic: &str, out: &mut W) -> anyhow::Result<()> {
    let found = reader
        .value(Repeats::First)
        .and_then(|message| message.get_str("topic"));
    if let Some(text) = reader.text() {
        if found == Some(topic) {
            out.write_all(text)?;
            out.write_all(b"\n")?;
        }
    }
    Ok(())
}
