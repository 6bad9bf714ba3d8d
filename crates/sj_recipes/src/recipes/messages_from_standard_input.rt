//! The lines of a reader, piece by piece.

use sj_pieces::Pieces;
use sj_stream::{LineReader, Repeats};
use std::io::BufReader;

pub fn tell_input(rt: &(impl Input + Print + AllocGlobal)) -> anyhow::Result<()> {
    let alloc = rt.alloc();
    let mut pieces = Pieces::new(BufReader::new(alloc, rt.reader())?);
    let mut piece = Vec::new(alloc);
    for _ in 0..u64::MAX {
        if !pieces.next_piece(&mut piece)? {
            break;
        }
        let mut reader = LineReader::new(alloc).with_places();
        for line in pieces.lines(&mut piece) {
            match reader.read(line) {
                Ok(number) => {
                    let topic = reader
                        .value(Repeats::First)
                        .and_then(|message| message.get_str("topic"));
                    println!(rt; "line {number}: {topic:?}")?;
                }
                Err(unread) => println!(rt; "{unread}")?,
            }
        }
    }
    Ok(())
}
