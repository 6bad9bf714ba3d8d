//! Lines and columns.

ghost use Rattle.std.specs.Prelude.{◌≡◌};
ghost use Rattle.sj_fault.specs.Place.{line_of, column_of};

/// The line behind the bytes, from 1 on: each line feed ends one.
pub fn line(begin: &[u8]) -> usize
    ensures { result ≡ line_of begin.now }
{
    let mut line = 1;
    for byte in begin {
        if *byte == b'\n' {
            line += 1;
        }
    }
    line
}

/// The column behind the bytes, in bytes, from 1 on.
pub fn column(begin: &[u8]) -> usize
    ensures { result ≡ column_of begin.now }
{
    let mut column = 1;
    for byte in begin {
        if *byte == b'\n' {
            column = 1;
        } else {
            column += 1;
        }
    }
    column
}
