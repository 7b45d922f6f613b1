//! The value of an input.

ghost use Rattle.std.specs.Prelude.{◌≡◌};
ghost use Rattle.lab_tables.specs.Scripts.{is_settle_step};

use crate::expectation::Expectations;
use bgp_types::{Attrs, Items, Name, Octets, PeeringId, PrefixList, RouterId};
use link_bag::Fault;
use route_policy::Rules;

/// A laboratory and its script: routers and peerings in the order of the input, names resolved to
/// their indices in it, and defaults filled in.
#[derive(Debug, Drop)]
pub struct LabInput {
    /// The home network's AS number, at least 1.
    pub home_as: u32,
    pub routers: RouterInputs,
    pub costs: CostInputs,
    pub peerings: PeeringInputs,
    pub faults: Faults,
    /// The steps of the script, without a settle that is added at the end.
    pub steps: Steps,
    /// The addresses to which packets are followed.
    pub trace: Numbers,
    /// What is expected of the end of the run.
    pub expects: Expectations,
}

/// A home router: its BGP Identifier, the number of sessions for which it has room (0 to 32), whether capsules that are
/// sent to it go as bytes, its own networks, and its policies.
#[derive(Debug, Drop)]
pub struct RouterInput {
    pub name: Name,
    pub id: u32,
    pub sessions: u32,
    pub by_bytes: bool,
    pub networks: PrefixList,
    pub policies: PolicyInputs,
}

/// A policy of a router.
#[derive(Debug, Drop)]
pub struct PolicyInput {
    pub name: Name,
    pub rules: Rules,
}

/// The interior cost from one router to another. A cost that isn't given is 1.
#[derive(Clone, Copy, Debug, PartialEq, Eq)]
pub struct CostInput {
    pub from: RouterId,
    pub to: RouterId,
    pub cost: u32,
}

/// A peering: the router at which it starts, the remote's AS number, which isn't that of the home network, addresses
/// and identifier, the import and export policies, the initial sequence numbers of the two sides, the remote's hold
/// time in seconds, all that it says at first, whether each side supports four-octet AS numbers, the home side's hold
/// time, whether the remote sends KEEPALIVEs of its own, and whether the home side's OPEN has the capability of IPv4
/// unicast.
#[derive(Debug, Drop)]
pub struct PeeringInput {
    pub name: Name,
    pub at: RouterId,
    pub remote_as: u32,
    pub remote_address: u32,
    pub local_address: u32,
    pub remote_id: u32,
    pub import: Option<Name>,
    pub export: Option<Name>,
    pub home_seq: u32,
    pub remote_seq: u32,
    pub hold: u16,
    pub opening: Octets,
    pub as4: bool,
    pub remote_as4: bool,
    pub home_hold: u16,
    pub beats: bool,
    pub unicast: bool,
}

/// A step of the script.
#[derive(Debug, Drop)]
pub enum Step {
    /// The remote of the peering announces these prefixes, each once, with these attributes.
    Announce {
        peering: PeeringId,
        prefixes: PrefixList,
        attrs: Attrs,
    },
    /// The remote of the peering withdraws these prefixes, each once.
    Withdraw {
        peering: PeeringId,
        prefixes: PrefixList,
    },
    /// The remote of the peering says these bytes.
    Raw {
        peering: PeeringId,
        bytes: Octets,
    },
    /// The session of the peering moves to another router.
    Graft {
        peering: PeeringId,
        target: RouterId,
    },
    /// No further step begins until the world is quiet and at least `least` rounds were made, or until `rounds` rounds
    /// were made, if that is given.
    Settle {
        rounds: Option<u32>,
        least: u32,
    },
    /// The sessions at the router move to other routers.
    Evacuate {
        router: RouterId,
    },
}

impl Step {
    /// Returns whether the step ends a group.
    pub fn is_settle(&self) -> bool
        ensures { result ≡ is_settle_step self.now }
    {
        matches!(self, Step::Settle { .. })
    }
}

pub type RouterInputs = Items<RouterInput>;

pub type PolicyInputs = Items<PolicyInput>;

pub type CostInputs = Items<CostInput>;

pub type PeeringInputs = Items<PeeringInput>;

pub type Faults = Items<Fault>;

pub type Steps = Items<Step>;

pub type Numbers = Items<u32>;
