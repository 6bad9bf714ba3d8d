//! Keys in packed nodes.

ghost use Rattle.std.specs.Prelude.{◌≡◌, option_map};
ghost use Rattle.sj_tape.specs.Marks.{packed_mark, packed_marks, text_in};
ghost use Rattle.sj_tape.specs.inner.Marks.{split_text};
ghost use Rattle.sj_tape.specs.inner.PackedKey.{packed_key};

use crate::packed::Packed;
use sj_print::PlainText;

/// A member's key.
#[derive(Clone, Copy)]
pub(super) enum PackedKey<'i> {
    Text(&'i str),
    Plain(PlainText<'i>),
}

/// The text of a node that is one.
#[inline(always)]
fn key_in<'i>(node: &Packed<'i>) -> Option<PackedKey<'i>>
    ensures { option_map packed_key result ≡ text_in (packed_mark node.now) }
{
    match *node {
        Packed::String(text) => Some(PackedKey::Text(text)),
        Packed::Plain(plain) => Some(PackedKey::Plain(plain)),
        _ => None,
    }
}

/// The first node's text and the nodes behind it; None where the first is no text, or there is
/// none.
#[inline(always)]
pub(super) fn split_key<'t, 'i>(
    nodes: &'t [Packed<'i>],
) -> Option<(PackedKey<'i>, &'t [Packed<'i>])>
    ensures { option_map (λ p. (packed_key p.0, packed_marks p.1.now)) result ≡ split_text (packed_marks nodes.now) }
{
    let (first, behind) = nodes.split_first()?;
    Some((key_in(first)?, behind))
}
