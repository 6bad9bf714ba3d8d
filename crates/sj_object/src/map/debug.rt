//! Maps as `Debug` shows them.

use super::HashMap;
use crate::hasher::KeyHasher;
use crate::key::KeyText;
use std::fmt;

impl<K: KeyText + fmt::Debug, V: fmt::Debug, S: KeyHasher> fmt::Debug for HashMap<K, V, S> {
    fn fmt<W: fmt::Write>(&self, f: &mut fmt::Formatter<W>) -> fmt::Result {
        f.debug_map().entries(self.iter()).finish()
    }
}
