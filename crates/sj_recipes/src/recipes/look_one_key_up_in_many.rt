//! A key that is hashed once.

use sj_borrowed::KnownKey;
use sj_owned::Value;
use sj_owned::prelude::*;

pub fn first_of_topic<'d>(documents: &'d [Value], name: &str) -> Option<&'d Value> {
    let topic = KnownKey::from("topic");
    for document in documents {
        if let Some(found) = topic.lookup(document) {
            if found.as_str() == Some(name) {
                return Some(document);
            }
        }
    }
    None
}
