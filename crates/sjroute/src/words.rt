//! The words that the program is called with.

use crate::fault::Fault;
use std::env;
use std::io::ErrorKind;
use std::rt::Env;

/// What `--help` prints.
pub const HELP: &str = "\
usage: sjroute RULES

Reads JSON texts from standard input, one a line, and writes each to the outputs
whose rules it meets. RULES is a file with a list of routes:

  [{\"output\": \"news.ndjson\", \"pointer\": \"/head/topic\", \"value\": \"news\"},
   {\"output\": \"-\", \"key\": \"n\", \"kind\": \"number\", \"merge\": {\"seen\": true}},
   {\"output\": \"rest.ndjson\", \"takes\": \"unmet\"},
   {\"output\": \"broken.txt\", \"takes\": \"unread\"}]

A rule is met where something stands at \"pointer\", or at \"key\", that is \"value\" or of
that \"kind\": null, bool, number, string, array or object. The line is written as it
came, or, with \"merge\", as that merge patch (RFC 7396) makes it. \"-\" is standard
output, and a file that is there is emptied first. Lines that are not read are told
on standard error, with line and column.

statuses: 0 done, 1 done but for lines that were not read, 2 usage, 3 wrong rules,
4 out of memory, 5 input or output failed
";

/// What the words ask for.
#[derive(Debug, Drop)]
pub enum Task {
    Help,
    /// To route by the rules of a file.
    Route { rules: String },
}

/// What the words behind the program's name ask for.
pub fn read_task(rt: &(impl Env + AllocGlobal)) -> Result<Task, Fault> {
    let words: Vec<String> = match env::args(rt) {
        Ok(args) => args.skip(1).collect(rt.alloc())?,
        Err(error) => {
            return Err(match error.kind() {
                ErrorKind::InvalidData => Fault::Usage,
                ErrorKind::OutOfMemory => Fault::OutOfMemory,
                _ => Fault::Input,
            });
        }
    };
    match words.as_slice() {
        [word] if matches!(word.as_str(), "--help" | "-h") => Ok(Task::Help),
        [word] if !word.as_str().starts_with('-') => Ok(Task::Route {
            rules: word.clone()?,
        }),
        _ => Err(Fault::Usage),
    }
}
