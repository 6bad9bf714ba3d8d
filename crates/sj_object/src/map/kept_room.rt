//! Memory by which a map takes a member back.

ghost use Rattle.std.specs.Prelude.{◌≡◌, length};
ghost use Rattle.sj_object.specs.inner.Stored.{IsEmptied, IsEmptied-prop};

use super::store::Hashed;

/// Memory for members and their index, by which a map takes a member back without asking for more.
#[derive(Drop)]
pub struct Room<K, V> {
    pub(super) pairs: Vec<(K, V)>,
    pub(super) hashed: Option<Box<Hashed<K, V>>>,
    ghost empty: { length pairs.items ≡ 0 },
    ghost table: { IsEmptied hashed } by { IsEmptied-prop _ },
}
