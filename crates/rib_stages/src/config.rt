//! What the routes of a router depend on, and what comes in.

use bgp_types::{Items, Prefix, PrefixList, Route, RouterId};

/// Numbers by the number of a router.
pub type Numbers = Items<u32>;

/// The part of a router's configuration that its routes depend on.
#[derive(Debug, Drop)]
pub struct RibConfig {
    pub home_as: u32,
    pub router: RouterId,
    /// The BGP Identifiers of the home routers; 0 if none is given.
    pub identifiers: Numbers,
    /// The interior costs to the home routers; 1 if none is given.
    pub costs: Numbers,
    /// The router's own networks.
    pub networks: PrefixList,
}

/// What a peering gives for a prefix: the route as the import policy left it, or that there is none,
/// with the BGP Identifier and the address of the remote. If another home router tells it, only the
/// route counts: the router's identifier and the cost to it are configured.
#[derive(Debug, Drop)]
pub struct InEntry {
    pub prefix: Prefix,
    pub route: Option<Route>,
    pub identifier: u32,
    pub address: u32,
}
