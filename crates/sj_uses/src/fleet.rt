//! A struct with lists of lists and members that may be absent, by `typed`.

ghost use Rattle.sj_uses.specs.Fleet.{MeansServer, MeansFleet};

use crate::typed::{FromJson, Meant, ReadError, ToJson, member, optional, put};
use sj_owned::Value;
use std::alloc::{AllocError, Global};

/// A server, its ports, and another that stands in for it.
#[derive(Debug, Drop)]
pub struct Server {
    pub name: String,
    pub ports: Vec<u16>,
    pub backup: Option<String>,
}

/// Servers in groups.
#[derive(Debug, Drop)]
pub struct Fleet {
    pub owner: Option<String>,
    pub groups: Vec<Vec<Server>>,
}

impl Meant for Server {
    ghost means = { MeansServer };
}

impl ToJson for Server {
    fn to_json(&self, alloc: Global) -> Result<Value, AllocError> {
        let mut object = Value::object(alloc)?;
        put(alloc, &mut object, "name", &self.name)?;
        put(alloc, &mut object, "ports", &self.ports)?;
        put(alloc, &mut object, "backup", &self.backup)?;
        Ok(object)
    }
}

impl FromJson for Server {
    fn from_json(alloc: Global, value: &Value) -> Result<Server, ReadError> {
        Ok(Server {
            name: member(alloc, value, "name")?,
            ports: member(alloc, value, "ports")?,
            backup: optional(alloc, value, "backup")?,
        })
    }
}

impl Meant for Fleet {
    ghost means = { MeansFleet };
}

impl ToJson for Fleet {
    fn to_json(&self, alloc: Global) -> Result<Value, AllocError> {
        let mut object = Value::object(alloc)?;
        put(alloc, &mut object, "owner", &self.owner)?;
        put(alloc, &mut object, "groups", &self.groups)?;
        Ok(object)
    }
}

impl FromJson for Fleet {
    fn from_json(alloc: Global, value: &Value) -> Result<Fleet, ReadError> {
        Ok(Fleet {
            owner: optional(alloc, value, "owner")?,
            groups: member(alloc, value, "groups")?,
        })
    }
}
