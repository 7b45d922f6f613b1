//! Path attributes and routes (RFC 4271, sections 4.3 and 5).

use crate::path::AsPath;
use crate::shared::SharedAttrs;
use graft_edge::{Items, NoMemory, Octets, TryCopy};

/// How a route came into BGP: the value of ORIGIN.
#[derive(Clone, Copy, Debug, PartialEq, Eq, PartialOrd, Ord, Hash)]
pub enum Origin {
    Igp,
    Egp,
    Incomplete,
}

/// The speaker that formed an aggregate.
#[derive(Clone, Copy, Debug, PartialEq, Eq, Hash)]
pub struct Aggregator {
    pub as_number: u32,
    pub address: u32,
    pub partial: bool,
}

/// An optional transitive attribute of an unknown type, which is passed on.
#[derive(Debug, Drop, PartialEq, Eq)]
pub struct RawAttr {
    pub kind: u8,
    pub partial: bool,
    pub bytes: Octets,
}

/// Attributes of unknown types, in ascending order of type.
pub type RawAttrs = Items<RawAttr>;

/// The path attributes of a route as an UPDATE has them.
#[derive(Debug, Drop, PartialEq, Eq)]
pub struct Attrs {
    pub origin: Origin,
    pub path: AsPath,
    pub next_hop: u32,
    pub med: Option<u32>,
    pub atomic: bool,
    pub aggregator: Option<Aggregator>,
    pub unknown: RawAttrs,
}

/// A route to a prefix, with its degree of preference.
#[derive(Debug, Drop, PartialEq, Eq)]
pub struct Route {
    pub attrs: SharedAttrs,
    pub pref: u32,
}

impl TryCopy for RawAttr {
    fn copy(&self) -> Result<RawAttr, NoMemory> {
        Ok(RawAttr {
            kind: self.kind,
            partial: self.partial,
            bytes: self.bytes.copy()?,
        })
    }
}

impl TryCopy for Attrs {
    fn copy(&self) -> Result<Attrs, NoMemory> {
        Ok(Attrs {
            origin: self.origin,
            path: self.path.copy()?,
            next_hop: self.next_hop,
            med: self.med,
            atomic: self.atomic,
            aggregator: self.aggregator,
            unknown: self.unknown.copy()?,
        })
    }
}

impl TryCopy for Route {
    fn copy(&self) -> Result<Route, NoMemory> {
        Ok(Route {
            attrs: self.attrs.copy()?,
            pref: self.pref,
        })
    }
}
