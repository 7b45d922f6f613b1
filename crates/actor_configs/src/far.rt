//! The configuration with which a far side begins.

use crate::says::Says;
use graft_edge::{Octets, PeeringId, RouterId};
use link_bag::Plan;
use tcp_seq::Seq;

/// The configuration with which a far side begins.
#[derive(Drop)]
pub struct FarConfig {
    /// The numbers of routers and of peerings in the laboratory.
    pub routers: u32,
    pub peerings: u32,
    /// The peering whose far side this is.
    pub peering: PeeringId,
    /// The router that the link points at first.
    pub pointer: RouterId,
    /// The initial sequence number of the remote, and that of its peer.
    pub send_first: Seq,
    pub receive_first: Seq,
    /// What the remote has said at the start, at most 4,096 octets.
    pub opening: Octets,
    /// What it says at steps of the script.
    pub says: Says,
    /// The plan of faults: what happens to each segment.
    pub plan: Plan,
    /// KEEPALIVE interval of the remote in turns; 0 for none.
    pub beat: u32,
}
