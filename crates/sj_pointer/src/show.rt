//! The text that writes a pointer.

ghost use Rattle.std.specs.Fmt.{WritesOnOk};
ghost use Rattle.sj_pointer.specs.Shown.{token_text};
ghost use Rattle.sj_pointer.specs.inner.Shown.{tildes_text};

use crate::tokens::Pointer;
use std::fmt;

/// Writes a text with each tilde as `~0`. What stands between is written whole.
fn write_part<W: fmt::Write>(f: &mut fmt::Formatter<W>, part: &str) -> fmt::Result
    ensures { WritesOnOk W.write_str_gives f.old result (tildes_text part.now) f.new }
{
    let mut rest = part;
    while let Some((plain, tail)) = rest.split_once('~') {
        f.write_str(plain)?;
        f.write_str("~0")?;
        rest = tail;
    }
    f.write_str(rest)
}

/// Writes a token, each slash in it as `~1` and each tilde as `~0`.
fn write_token<W: fmt::Write>(f: &mut fmt::Formatter<W>, token: &str) -> fmt::Result
    ensures { WritesOnOk W.write_str_gives f.old result (token_text token.now) f.new }
{
    let mut rest = token;
    while let Some((part, tail)) = rest.split_once('/') {
        write_part(f, part)?;
        f.write_str("~1")?;
        rest = tail;
    }
    write_part(f, rest)
}

/// The text of which `pointer` makes the same pointer again.
impl fmt::Display for Pointer {
    ghost use Rattle.std.specs.Prelude.{Some};
    ghost use Rattle.sj_pointer.specs.Shown.{pointer_text};

    ghost output = { λ p. Some (pointer_text p) };

    fn fmt<W: fmt::Write>(&self, f: &mut fmt::Formatter<W>) -> fmt::Result {
        for token in &self.tokens {
            f.write_str("/")?;
            write_token(f, token.as_str())?;
        }
        Ok(())
    }
}
