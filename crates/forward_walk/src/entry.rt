//! The tables that a `Forwarder` is made from.

use bgp_types::{From, Items, Prefix};

/// An entry of a router's table: a prefix, and the source of the router's best route to it.
#[derive(Clone, Copy, Debug, PartialEq, Eq)]
pub struct ForwardEntry {
    pub prefix: Prefix,
    pub from: From,
}

/// A router's entries. If a prefix occurs twice, the first entry counts.
pub type ForwardTable = Items<ForwardEntry>;

/// The tables of the routers, by their numbers. A router past the last has none.
pub type ForwardTables = Items<ForwardTable>;
