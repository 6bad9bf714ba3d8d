//! Ways to look a text up.

use crate::Known;
use indexmap::IndexMap;
use sj_object::{HashMap, ObjectHasher};

pub type Numbers<'k> = HashMap<&'k str, u64, ObjectHasher>;

pub trait Finds {
    fn name(&self) -> &'static str;

    fn find(&self, known: &Known) -> Option<u64>;
}

/// Looks nothing up.
pub struct Alone;

impl Finds for Alone {
    fn name(&self) -> &'static str {
        "the order alone"
    }

    fn find(&self, known: &Known) -> Option<u64> {
        Some(known.hash.wrapping_add(known.text.len() as u64))
    }
}

#[derive(Drop)]
pub struct KnownHash<'m, 'k> {
    pub map: &'m Numbers<'k>,
}

impl<'m, 'k> Finds for KnownHash<'m, 'k> {
    fn name(&self) -> &'static str {
        "by a known hash"
    }

    fn find(&self, known: &Known) -> Option<u64> {
        self.map
            .get_hashed(known.hash, known.text.as_str())
            .copied()
    }
}

#[derive(Drop)]
pub struct Text<'m, 'k> {
    pub map: &'m Numbers<'k>,
}

impl<'m, 'k> Finds for Text<'m, 'k> {
    fn name(&self) -> &'static str {
        "by the text"
    }

    fn find(&self, known: &Known) -> Option<u64> {
        self.map.get(known.text.as_str()).copied()
    }
}

/// Looks the text up in a list, key by key from its front.
#[derive(Drop)]
pub struct InList<'m, 'k> {
    pub pairs: &'m [(&'k str, u64)],
}

impl<'m, 'k> Finds for InList<'m, 'k> {
    fn name(&self) -> &'static str {
        "in a plain list"
    }

    fn find(&self, known: &Known) -> Option<u64> {
        for (key, value) in self.pairs {
            if *key == known.text.as_str() {
                return Some(*value);
            }
        }
        None
    }
}

#[derive(Drop)]
pub struct InIndexMap<'m, 'k> {
    pub map: &'m IndexMap<&'k str, u64>,
}

impl<'m, 'k> Finds for InIndexMap<'m, 'k> {
    fn name(&self) -> &'static str {
        "indexmap"
    }

    fn find(&self, known: &Known) -> Option<u64> {
        self.map.get(known.text.as_str()).copied()
    }
}
