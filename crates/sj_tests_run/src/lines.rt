//! An input and a line of it.

use sj_commands::{Command, Step, Width, command_of};
use std::test::Fail;

/// Whether it asks if the first item of `a` fits a `u8`.
fn fits_at_pointer(command: &Command) -> bool {
    let Command::Fits(path, Width::U8) = command else {
        return false;
    };
    match path.as_slice() {
        [Step::Token(key), Step::Token(place)] => key.as_str() == "a" && place.as_str() == "0",
        _ => false,
    }
}

#[test]
fn a_line_is_a_command(rt: HostRuntime) -> Result<(), Fail> {
    let alloc = rt.alloc();
    let mut line = b"[\"fits\",\"/a/0\",\"u8\"]".to_vec(alloc)?;
    let command = command_of(alloc, line.as_mut_slice())?;
    assert!(rt; fits_at_pointer(&command));
    Ok(())
}
