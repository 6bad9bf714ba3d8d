//! What a pointer finds in a message.

ghost use Rattle.std.specs.Prelude.{◌≡◌, IfSome, option_map, map, string_bytes};
ghost use Rattle.sj_tape.specs.Value.{tape_tree, tape_choice};
ghost use Rattle.sj_pointer.specs.Pointed.{token_into, pointed_by};

use sj_pointer::{Pointer, position};
use sj_tape::{TypedValue, Value};

/// What one token finds.
fn step<'t, 'i>(part: Value<'t, 'i>, token: &str) -> Option<Value<'t, 'i>>
    ensures value { option_map tape_tree result ≡ token_into (tape_choice part.entry) token.now (tape_tree part.entry) }
    ensures choice { IfSome result (λ found. tape_choice found ≡ tape_choice part.entry) }
{
    if part.is_array() {
        part.get_idx(position(token)?)
    } else {
        part.get(token)
    }
}

/// What the tokens find, one after another.
fn walk<'t, 'i>(message: Value<'t, 'i>, tokens: &[String]) -> Option<Value<'t, 'i>>
    ensures choice { IfSome result (λ found. tape_choice found ≡ tape_choice message.entry) }
    ensures value { option_map tape_tree result ≡ pointed_by (tape_choice message.entry) (map string_bytes tokens.now) (tape_tree message.entry) }
{
    let mut at = message;
    for token in tokens {
        at = step(at, token.as_str())?;
    }
    Some(at)
}

/// What the pointer's tokens find, by the message's choice among members of one key. Nothing is
/// built.
pub fn find<'t, 'i>(message: Value<'t, 'i>, place: &Pointer) -> Option<Value<'t, 'i>>
    ensures choice { IfSome result (λ found. tape_choice found ≡ tape_choice message.entry) }
    ensures value { option_map tape_tree result ≡ pointed_by (tape_choice message.entry) place.now (tape_tree message.entry) }
{
    walk(message, place.tokens())
}
