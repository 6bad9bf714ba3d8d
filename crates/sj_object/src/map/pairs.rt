//! The members that an iterator of a map has left.

ghost use Rattle.std.specs.Prelude.{◌≡◌, length};
ghost use Rattle.std.specs.Iterator.{at_most};
ghost use Rattle.std.specs.Map.Iter.{TakesFirst, deref};
ghost use Rattle.sj_object.specs.Stored.{pairs_of};

use super::store::Store;
use std::marker::Model;
use std::slice;

/// The members that are left: in one part those of a plain list, and of a ring that has not come
/// round; else in two. How many parts there are stays as it is, so that a loop over one asks for it
/// once.
pub struct Pairs<'a, K, V> {
    front: slice::Iter<'a, (K, V)>,
    back: Option<slice::Iter<'a, (K, V)>>,
}

impl<'a, K, V> Model for Pairs<'a, K, V> {
    ghost use Rattle.std.specs.Prelude.{◌++◌, [], List, option_map, unwrap_or};
    ghost use Rattle.std.specs.Slice.Iter.{iter_rest};

    ghost Value = { List (K × V) };

    ghost view = { λ a. iter_rest a.front ++ unwrap_or (option_map iter_rest a.back) [] };
}

impl<'a, K, V> Pairs<'a, K, V> {
    /// All members.
    pub fn new(store: &'a Store<K, V>) -> Self
        ensures { result ≡ pairs_of store.now }
    {
        let (front, back) = store.as_slices();
        let back = if back.is_empty() {
            None
        } else {
            Some(back.iter())
        };
        Pairs {
            front: front.iter(),
            back,
        }
    }
}

impl<'a, K, V> Drop for Pairs<'a, K, V> {
    fn drop(self) {
        let Pairs { front: _, back: _ } = self;
    }
}

impl<'a, K, V> Iterator for Pairs<'a, K, V> {
    type Item = &'a (K, V);

    ghost next_gives = { TakesFirst deref };

    ghost remaining = { λ s. at_most (length s) };

    fn next(&mut self) -> Option<&'a (K, V)> {
        match self.front.next() {
            Some(pair) => Some(pair),
            None => match &mut self.back {
                Some(back) => back.next(),
                None => None,
            },
        }
    }
}
