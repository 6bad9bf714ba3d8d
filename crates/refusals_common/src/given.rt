//! What is given to the calls that make a document.

ghost use Rattle.std.specs.Prelude.{◌≡◌, IfErr};
ghost use Rattle.refusals_common.specs.declared.fault.Fault.TheVariants.{OutOfMemory};

use crate::fault::Fault;
use sj_document::{Document, Object, OwnedValue};
use sj_object::{HashMap, KeyOf, KeyText, ObjectHasher};
use std::alloc::Global;
use std::collections;

/// What is given to the calls; each of them takes its part.
#[derive(Drop)]
pub struct Given<K: KeyText + Drop> {
    pub string: String,
    pub items: Vec<bool>,
    pub values: Vec<Document<K>>,
    pub pairs: Vec<(K, Document<K>)>,
    pub members: Object<K>,
    pub map: collections::HashMap<String, OwnedValue>,
}

/// The items false and true, and members of null at the keys `b` and `a`. Refused for want of memory
/// alone.
pub fn prepare<'k, K: KeyOf<'k>>(alloc: Global) -> Result<Given<K>, Fault>
    ensures { IfErr result (λ why. why ≡ OutOfMemory) }
{
    let mut given = Given {
        string: String::from_str(alloc, "a text")?,
        items: Vec::new(alloc),
        values: Vec::new(alloc),
        pairs: Vec::new(alloc),
        members: HashMap::with_capacity_and_hasher(alloc, 2, ObjectHasher::default())?,
        map: collections::HashMap::new(alloc),
    };
    for key in ["b", "a"] {
        given.items.push(key == "a")?;
        given.values.push(Document::from(key == "a"))?;
        given.pairs.push((K::of(alloc, key)?, Document::null()))?;
        let name = String::from_str(alloc, key)?;
        given.map.insert(name, OwnedValue::null())?;
        let null = Document::null();
        if given.members.insert(K::of(alloc, key)?, null).is_err() {
            return Err(Fault::OutOfMemory);
        }
    }
    Ok(given)
}
