//! Look-ups by a known key in a tape.

ghost use Rattle.std.specs.Prelude.{◌≡◌, option_map, IfSome};
ghost use Rattle.std.specs.Cow.{cow_str_bytes};
ghost use Rattle.sj_text_core.specs.Repeats.{find_by};
ghost use Rattle.sj_tape.specs.Value.{tape_tree, tape_choice};

use super::KnownKey;
use sj_object::KeyText;
use sj_tape::Value;

impl<'k> KnownKey<'k> {
    /// What `get` of the key's text finds in a part of a tape. A tape has no table, so the hash is not
    /// read.
    pub fn lookup_in_tape<'t, 'i>(&self, part: Value<'t, 'i>) -> Option<Value<'t, 'i>>
        ensures value { option_map tape_tree result ≡ find_by (tape_choice part.entry) (cow_str_bytes self.now) (tape_tree part.entry) }
        ensures choice { IfSome result (λ v. tape_choice v ≡ tape_choice part.entry) }
    {
        part.get(self.key().text())
    }
}
