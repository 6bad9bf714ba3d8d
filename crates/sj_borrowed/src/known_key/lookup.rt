//! Look-ups by a known key.

ghost use Rattle.std.specs.Prelude.{◌≡◌, OnSome};
ghost use Rattle.std.specs.Borrow.{LendsSo, sem};
ghost use Rattle.std.specs.Cow.{cow_str_bytes};
ghost use Rattle.std.specs.Option.{option_copied, option_copied_mut};
ghost use Rattle.sj_object.specs.Edits.{lookup};

use super::KnownKey;
use super::target::{KnownKeyTarget, KnownKeyTargetMut};
use sj_object::{HashMap, KeyText, ObjectHasher};

impl<'k> KnownKey<'k> {
    ghost use Rattle.sj_borrowed.specs.Loans.{LendsKnown};

    /// The value of the key; None where it is absent, and on a document that is no object.
    ///
    /// ```
    /// key.lookup(&document).is_some(); // whether the document has the key
    /// ```
    pub fn lookup<'t, T: KnownKeyTarget>(&self, target: &'t T) -> Option<&'t T::Output>
        ensures { T.finds target.now (cow_str_bytes self.now) (option_copied result) }
    {
        target.at_hash(self.hash(), self.key().text())
    }

    // Why so: docs/REFUSED.md, "The target stands first".
    /// The value of the key, to write; None where it is absent, and on a document that is no
    /// object. The target is then as it was, with what the reference last held in the place of that
    /// value.
    ///
    /// ```
    /// if let Some(topic) = KnownKey::lookup_mut(&mut document, &key) {
    ///     *topic = Value::from("mail");
    /// }
    /// ```
    pub fn lookup_mut<'t, T: KnownKeyTargetMut>(
        target: &'t mut T,
        key: &KnownKey<'k>,
    ) -> Option<&'t mut T::Output>
        ensures* writes_back { sem 𝓛 (LendsSo T.row T.Output.row target.entry result (λ n w. OnSome result (T.writes target.old (cow_str_bytes key.now) w n)) (λ n. T.stays target.old n)) }
        ensures value { T.finds target.old (cow_str_bytes key.now) (option_copied_mut result) }
    {
        let hash = key.hash();
        let text = key.key().text();
        target.at_hash_mut(hash, text)
    }

    /// The value of the key in a map; None where it is absent.
    ///
    /// ```
    /// key.map_lookup(&members).is_some(); // whether the map has the key
    /// ```
    pub fn map_lookup<'m, K: KeyText, V>(
        &self,
        map: &'m HashMap<K, V, ObjectHasher>,
    ) -> Option<&'m V>
        ensures { option_copied result ≡ lookup (cow_str_bytes self.now) map.now.entries }
    {
        map.get_hashed(self.hash(), self.key().text())
    }

    /// The value of the key in a map, to write; None where it is absent. The map is then as it was,
    /// with what the reference last held in the place of that value.
    ///
    /// ```
    /// if let Some(value) = KnownKey::map_lookup_mut(&mut members, &key) {
    ///     *value = Value::null();
    /// }
    /// ```
    pub fn map_lookup_mut<'m, K: KeyText, V>(
        map: &'m mut HashMap<K, V, ObjectHasher>,
        key: &KnownKey<'k>,
    ) -> Option<&'m mut V>
        ensures* writes_back { sem 𝓛 (LendsKnown K.row V.row K.KeyText map.entry (cow_str_bytes key.now) result) }
        ensures value { option_copied_mut result ≡ lookup (cow_str_bytes key.now) map.old.entries }
    {
        let hash = key.hash();
        let text = key.key().text();
        map.get_hashed_mut(hash, text)
    }
}
