//! A router's fields.

use crate::place::Place;
use actor_configs::{Firsts, Policies};
use bgp_types::Items;
use graft_actors::Known;
use graft_edge::RouterId;
use rib_stages::Rib;
use router_tables::DueSets;
use session_places::Places;
use std::alloc::Global;

/// The fields of a router.
#[derive(Drop)]
pub struct Fields {
    pub(crate) alloc: Global,
    /// The laboratory, which is only for proofs.
    pub(crate) known: Known,
    pub(crate) number: RouterId,
    pub(crate) routers: u32,
    pub(crate) room: u32,
    /// The AS of the home network.
    pub(crate) home_as: u32,
    pub(crate) policies: Policies,
    /// The initial sequence numbers, by peering.
    pub(crate) firsts: Items<Firsts>,
    pub(crate) rib: Rib,
    /// The place for each peering.
    pub(crate) places: Places<Place>,
    /// The prefixes that are due to each router, and those that are due on each peering.
    pub(crate) due_in: DueSets,
    pub(crate) due_out: DueSets,
    /// The number of turns made. Each is a round of one second.
    pub(crate) turns: u32,
}
