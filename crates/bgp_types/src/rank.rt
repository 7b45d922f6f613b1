//! What the decision process reads of a route (RFC 4271, sections 9.1.2 and 9.1.2.2).

use graft_edge::{PeeringId, RouterId};

/// The source from which a router has a route.
#[derive(Clone, Copy, Debug, PartialEq, Eq, PartialOrd, Ord, Hash)]
pub enum From {
    /// A network of its own.
    Own,
    /// A remote, over a peering.
    Peering(PeeringId),
    /// Another router of the home network.
    Router(RouterId),
}

/// What the decision process compares between routes to one prefix. `origin` is 0 for IGP, 1 for EGP
/// and 2 for INCOMPLETE, an absent MED is 0, and `cost` is the interior cost to where the route comes
/// from.
#[derive(Clone, Copy, Debug, PartialEq, Eq, Hash)]
pub struct Rank {
    pub own: bool,
    pub pref: u32,
    pub path_len: u32,
    pub origin: u8,
    pub neighbour: u32,
    pub med: u32,
    pub external: bool,
    pub cost: u32,
    pub identifier: u32,
    pub address: u32,
}
