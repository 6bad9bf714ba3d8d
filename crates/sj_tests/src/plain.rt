//! A document type of a user's own, whose keys and texts are copied.

ghost use Rattle.std.specs.Prelude.{◌≡◌, IfOk};
ghost use Rattle.sj_text_core.specs.Grammar.{Spells};
ghost use Rattle.sj_text_core.specs.Keep.{keep};
ghost use Rattle.sj_text_core.specs.Tree.{Tree};
ghost use Rattle.sj_tests.specs.Plain.{tree};

use sj_object::{Builder, HashMap, Made, ObjectHasher, deserialize};
use sj_text_core::{ErrorKind, StaticNode};
use std::alloc::{AllocError, Global};

/// A document, with a variant for all scalars.
#[derive(Drop)]
pub enum Plain {
    Scalar(StaticNode),
    Text(String),
    Items(Vec<Plain>),
    Members(HashMap<String, Plain, ObjectHasher>),
}

impl Plain {
    /// The document of a text, with the first member of each key.
    pub fn read(alloc: Global, bytes: &mut [u8]) -> Result<Plain, ErrorKind>
        ensures { IfOk result (λ v. (u : Tree) → Spells bytes.old u → tree v ≡ keep u) }
    {
        deserialize::<Plain, String>(alloc, bytes)
    }

    /// How many members an object has, and the number of the key, where it is one.
    pub fn numbers(&self, key: &str) -> Option<(usize, Option<u64>)> {
        let Plain::Members(members) = self else {
            return None;
        };
        let number = match members.get(key) {
            Some(Plain::Scalar(StaticNode::U64(n))) => Some(*n),
            _ => None,
        };
        Some((members.len(), number))
    }
}

impl Made<String> for Plain {
    type Map = HashMap<String, Plain, ObjectHasher>;

    ghost use Rattle.std.specs.Prelude.{true, map, All, ⊤};
    ghost use Rattle.sj_text_core.specs.Tree.{list, obj, items_from};
    ghost use Rattle.sj_object.specs.Members.{entry_members};
    ghost use Rattle.sj_object.specs.Builder.{AreMade};

    ghost tree = { tree };

    ghost built = { λ _. ⊤ };

    fn from_static(scalar: StaticNode) -> Self {
        Plain::Scalar(scalar)
    }

    fn from_vec(_alloc: Global, items: Vec<Self>) -> Result<Self, AllocError>
        ensures means { IfOk result (λ v. tree v ≡ list (items_from (map tree items.items))) }
        ensures property { All (λ _. ⊤) items.items → IfOk result (λ _. ⊤) }
    {
        Ok(Plain::Items(items))
    }

    fn from_map(
        _alloc: Global,
        members: HashMap<String, Plain, ObjectHasher>,
    ) -> Result<Self, AllocError>
        ensures means { IfOk result (λ v. tree v ≡ obj (entry_members tree members.entries)) }
        ensures property { AreMade (λ _. true) (λ _. ⊤) members.entries → IfOk result (λ _. ⊤) }
    {
        Ok(Plain::Members(members))
    }
}

impl<'de> Builder<'de, String> for Plain {
    fn from_text(alloc: Global, text: &'de str) -> Result<Self, AllocError> {
        Ok(Plain::Text(String::from_str(alloc, text)?))
    }
}
