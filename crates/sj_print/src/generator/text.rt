//! Bytes that a generator owns.

ghost use Rattle.std.specs.Prelude.{◌≡◌, ◌+◌, ◌^◌, ◌<◌, List, [], ◌∷◌, ◌++◌, OnOk, OnErr, replicate, string_bytes};
ghost use Rattle.sj_text_core.specs.Print.{quoted};

use crate::output::{append_line, append_quoted};
use std::alloc::{AllocError, Global};
use std::marker::Model;

/// Bytes that are always a text.
#[derive(Drop)]
pub(super) struct Text {
    bytes: Vec<u8>,
}

impl Model for Text {
    ghost use Rattle.std.specs.Prelude.{ℕ, List};
    ghost use Rattle.std.specs.Str.{IsUtf8};

    ghost Value = { List ℕ };

    ghost view = { λ t. t.bytes.items };

    ghost invariant = { λ t. IsUtf8 t.bytes.items };
}

impl Text {
    pub(super) fn new(alloc: Global) -> Text
        ensures { result ≡ [] }
    {
        Text {
            bytes: Vec::new(alloc),
        }
    }

    pub(super) fn push_str(&mut self, text: &str) -> Result<(), AllocError>
        ensures ok { OnOk result (self.new ≡ self.old ++ text.now) }
        ensures err { OnErr result (self.new ≡ self.old) }
    {
        self.bytes.extend_from_slice(text.as_bytes())
    }

    pub(super) fn push_quoted(&mut self, text: &str) -> Result<(), AllocError>
        ensures ok { OnOk result (self.new ≡ self.old ++ quoted text.now) }
        ensures err { OnErr result (self.new ≡ self.old) }
    {
        append_quoted(&mut self.bytes, text)
    }

    pub(super) fn push_line(&mut self, spaces: usize) -> Result<(), AllocError>
        requires { spaces + 1 < 2 ^ 64 }
        ensures ok { OnOk result (self.new ≡ self.old ++ 10 ∷ replicate spaces 32) }
        ensures err { OnErr result (self.new ≡ self.old) }
    {
        append_line(&mut self.bytes, spaces)
    }

    pub(super) fn into_string(self) -> String
        ensures { string_bytes result ≡ self }
    {
        String::from_utf8(self.bytes).unwrap()
    }
}
