//! The configuration with which a router begins.

use bgp_types::Items;
use graft_edge::{Name, RouterId};
use rib_stages::RibConfig;
use route_policy::Policy;
use session_value::SessionConfig;
use tcp_seq::Seq;

/// A policy of a router, by its name.
#[derive(Drop)]
pub struct NamedPolicy {
    pub name: Name,
    pub policy: Policy,
}

/// A router's policies. A session names those that it uses, and each router resolves the names by itself.
pub type Policies = Items<NamedPolicy>;

/// The initial sequence numbers of a peering: those of the first bytes that its two sides send.
#[derive(Clone, Copy, Debug)]
pub struct Firsts {
    pub home: Seq,
    pub remote: Seq,
}

/// The configuration with which a router begins.
#[derive(Drop)]
pub struct RouterConfig {
    pub number: RouterId,
    /// The number of routers.
    pub routers: u32,
    /// The number of sessions for which there is room, including those that are away in a graft.
    pub room: u32,
    pub policies: Policies,
    pub rib: RibConfig,
    /// For each peering of the laboratory, by number. Each session and segment that comes here is checked against them.
    pub firsts: Items<Firsts>,
    /// The configurations of the sessions that start here, in ascending order of peering.
    pub sessions: Items<SessionConfig>,
}
