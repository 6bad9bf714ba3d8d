//! The iterators of a map, each seen as the list of what it has left.

ghost use Rattle.std.specs.Prelude.{◌≡◌, map};
ghost use Rattle.std.specs.Iterator.{at_most};
ghost use Rattle.std.specs.Map.Iter.{TakesFirst, deref, deref_pair};
ghost use Rattle.std.specs.Prelude.{length};
ghost use Rattle.sj_object.specs.Entries.{entries_of};
ghost use Rattle.sj_object.specs.Stored.{pairs_of};

use super::HashMap;
use super::pairs::Pairs;
use super::store::Store;
use crate::hasher::KeyHasher;
use crate::key::KeyText;
use std::marker::Model;
use std::vec;

/// The members in order, each as `(&K, &V)`.
pub struct Iter<'a, K, V> {
    pairs: Pairs<'a, K, V>,
}

impl<'a, K, V> Model for Iter<'a, K, V> {
    ghost use Rattle.std.specs.Prelude.{List};

    ghost Value = { List (K × V) };

    ghost view = { λ a. a.pairs };
}

impl<'a, K, V> Iter<'a, K, V> {
    pub(super) fn new(store: &'a Store<K, V>) -> Self
        ensures { result ≡ pairs_of store.now }
    {
        Iter {
            pairs: Pairs::new(store),
        }
    }
}

impl<'a, K, V> Drop for Iter<'a, K, V> {
    fn drop(self) {
        let Iter { pairs: _ } = self;
    }
}

impl<'a, K, V> Iterator for Iter<'a, K, V> {
    type Item = (&'a K, &'a V);

    ghost next_gives = { TakesFirst deref_pair };

    ghost remaining = { λ s. at_most (length s) };

    fn next(&mut self) -> Option<(&'a K, &'a V)> {
        let pair = self.pairs.next()?;
        Some((&pair.0, &pair.1))
    }
}

/// The keys in order.
pub struct Keys<'a, K, V> {
    pairs: Pairs<'a, K, V>,
}

impl<'a, K, V> Model for Keys<'a, K, V> {
    ghost use Rattle.std.specs.Prelude.{List, map};

    ghost Value = { List K };

    ghost view = { λ a. map (λ (p : K × V). p.0) a.pairs };
}

impl<'a, K, V> Keys<'a, K, V> {
    pub(super) fn new(store: &'a Store<K, V>) -> Self
        ensures { result ≡ map (λ p. p.0) (pairs_of store.now) }
    {
        Keys {
            pairs: Pairs::new(store),
        }
    }
}

impl<'a, K, V> Drop for Keys<'a, K, V> {
    fn drop(self) {
        let Keys { pairs: _ } = self;
    }
}

impl<'a, K, V> Iterator for Keys<'a, K, V> {
    type Item = &'a K;

    ghost next_gives = { TakesFirst deref };

    ghost remaining = { λ s. at_most (length s) };

    fn next(&mut self) -> Option<&'a K> {
        let pair = self.pairs.next()?;
        Some(&pair.0)
    }
}

// Why so: docs/REFUSED.md, "A map has no `values_mut`".
/// The values in order.
pub struct Values<'a, K, V> {
    pairs: Pairs<'a, K, V>,
}

impl<'a, K, V> Model for Values<'a, K, V> {
    ghost use Rattle.std.specs.Prelude.{List, map};

    ghost Value = { List V };

    ghost view = { λ a. map (λ (p : K × V). p.1) a.pairs };
}

impl<'a, K, V> Values<'a, K, V> {
    pub(super) fn new(store: &'a Store<K, V>) -> Self
        ensures { result ≡ map (λ p. p.1) (pairs_of store.now) }
    {
        Values {
            pairs: Pairs::new(store),
        }
    }
}

impl<'a, K, V> Drop for Values<'a, K, V> {
    fn drop(self) {
        let Values { pairs: _ } = self;
    }
}

impl<'a, K, V> Iterator for Values<'a, K, V> {
    type Item = &'a V;

    ghost next_gives = { TakesFirst deref };

    ghost remaining = { λ s. at_most (length s) };

    fn next(&mut self) -> Option<&'a V> {
        let pair = self.pairs.next()?;
        Some(&pair.1)
    }
}

/// The members in order, by value.
#[derive(Drop)]
pub struct IntoIter<K, V> {
    pairs: vec::IntoIter<(K, V)>,
}

impl<K, V> Model for IntoIter<K, V> {
    ghost use Rattle.std.specs.Prelude.{List};
    ghost use Rattle.std.specs.Vec.Iter.{into_iter_items};

    ghost Value = { List (K × V) };

    ghost view = { λ a. into_iter_items a.pairs };
}

impl<K: Drop, V: Drop> Iterator for IntoIter<K, V> {
    type Item = (K, V);

    ghost next_gives = { TakesFirst (λ p. p) };

    ghost remaining = { λ s. at_most (length s) };

    fn next(&mut self) -> Option<(K, V)> {
        self.pairs.next()
    }
}

impl<K: KeyText + Drop, V: Drop, S: KeyHasher + Drop> IntoIterator for HashMap<K, V, S> {
    type Item = (K, V);

    type IntoIter = IntoIter<K, V>;

    ghost into_iter_gives = { λ m it. entries_of K.text_of it ≡ m.entries };

    fn into_iter(self) -> IntoIter<K, V> {
        let HashMap { store, hasher: _ } = self;
        IntoIter {
            pairs: store.into_vec().into_iter(),
        }
    }
}

impl<'a, K: KeyText, V, S: KeyHasher> IntoIterator for &'a HashMap<K, V, S> {
    type Item = (&'a K, &'a V);

    type IntoIter = Iter<'a, K, V>;

    ghost into_iter_gives = { λ m it. entries_of K.text_of it ≡ m.now.entries };

    fn into_iter(self) -> Iter<'a, K, V> {
        self.iter()
    }
}
