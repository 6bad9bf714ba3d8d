//! The lines of an input that is there whole.

use sj_stream::{LineReader, Lines, Repeats};

pub fn tell_topics(rt: &(impl Print + AllocGlobal), text: &str) -> anyhow::Result<()> {
    let alloc = rt.alloc();
    let mut input = text.as_bytes().to_vec(alloc)?;
    let mut reader = LineReader::new(alloc);
    for line in Lines::new(&mut input) {
        match reader.read(line) {
            Ok(number) => {
                let topic = reader
                    .value(Repeats::First)
                    .and_then(|message| message.get_str("topic"));
                println!(rt; "line {number}: {topic:?}")?;
            }
            Err(unread) => println!(rt; "{unread}")?,
        }
    }
    Ok(())
}
