//! What a session, and another router, give a router for a prefix.

use bgp_types::{PeeringId, Route, RouterId, SharedAttrs};
use route_policy::Policy;
use std::marker::Model;

/// What a session gives a router for a prefix: the BGP Identifier in the remote's OPEN, the remote's address, the import policy, and
/// the attributes as they were heard.
#[derive(Debug, Drop)]
pub struct SessionEntry {
    pub peering: PeeringId,
    pub remote_as: u32,
    pub identifier: u32,
    pub address: u32,
    pub import: Option<Policy>,
    pub heard: Option<SharedAttrs>,
}

impl Model for SessionEntry {
    ghost use Rattle.route_policy.specs.Candidates.{SessionRoute};

    ghost Value = { SessionRoute };

    ghost view = { λ s. record {
      peering = s.peering;
      remote_as = s.remote_as;
      identifier = s.identifier;
      address = s.address;
      import_rules = s.«import»;
      heard = s.heard;
    } };
}

/// What another router gives a router for a prefix: its BGP Identifier, the interior cost to it, and what it told.
#[derive(Debug, Drop)]
pub struct RouterEntry {
    pub router: RouterId,
    pub identifier: u32,
    pub cost: u32,
    pub told: Option<Route>,
}

impl Model for RouterEntry {
    ghost use Rattle.route_policy.specs.Candidates.{RouterRoute};

    ghost Value = { RouterRoute };

    ghost view = { λ q. record { router = q.router; identifier = q.identifier; cost = q.cost; told = q.told } };
}
