//! A map beside a plain list of its members.

use super::numbered;
use sj_object::{HashMap, KeyHasher};
use std::alloc::Global;
use std::test::Fail;

/// A map, and its members as a plain list.
#[derive(Drop)]
pub(super) struct Beside<S: KeyHasher> {
    pub(super) map: HashMap<String, u64, S>,
    pub(super) list: Vec<(String, u64)>,
}

impl<S: KeyHasher + Drop> Beside<S> {
    /// The members `k00`, `k01` and so on.
    pub(super) fn new(alloc: Global, members: u64, hasher: S) -> Result<Self, Fail> {
        let mut list = Vec::new(alloc);
        for number in 0..members {
            list.push((format!(in alloc; "k{number:02}")?, number))?;
        }
        Ok(Beside {
            map: numbered(alloc, members, hasher)?,
            list,
        })
    }

    /// Takes the member at a position out; whether it was there.
    pub(super) fn remove(&mut self, position: usize) -> bool {
        if position >= self.list.len() {
            return false;
        }
        let (key, value) = self.list.remove(position);
        self.map.remove(key.as_str()) == Some(value)
    }

    /// Puts a member last.
    pub(super) fn push(&mut self, alloc: Global, number: u64) -> Result<(), Fail> {
        let key = format!(in alloc; "k{number:02}")?;
        self.list.push((key.clone()?, number))?;
        self.map.insert(key, number)?;
        Ok(())
    }

    /// Takes the last member out; whether it is the last on the list, or there is none on either.
    pub(super) fn pop(&mut self) -> bool {
        let last = self.list.pop();
        self.map.pop() == last
    }

    /// How many members are where the list has them, found by their keys, in the order of the list; none
    /// where there are more than on the list.
    pub(super) fn agreeing(&self) -> usize {
        let mut agreeing = 0usize;
        let mut members = self.map.iter();
        for (position, (key, value)) in self.list.iter().enumerate() {
            let hash = self.map.hasher().hash_text(key.as_str());
            let is_next = match members.next() {
                Some((name, number)) => name.as_str() == key.as_str() && *number == *value,
                None => false,
            };
            let is_there = match self.map.get_index(position) {
                Some((name, number)) => name.as_str() == key.as_str() && *number == *value,
                None => false,
            };
            if is_next
                && is_there
                && self.map.get(key.as_str()) == Some(value)
                && self.map.position_hashed(hash, key.as_str()) == Some(position)
                && self.map.get_index_of(key.as_str()) == Some(position)
            {
                agreeing = agreeing.saturating_add(1);
            }
        }
        let is_end = members.next().is_none() && self.map.get_index(self.list.len()).is_none();
        if is_end && self.map.len() == self.list.len() {
            agreeing
        } else {
            0
        }
    }
}
