//! The plain value of a run.

use bgp_story::Story;
use bgp_types::{From, Prefix, Route};
use graft_edge::{Items, Octets, PeeringId, RouterId};
use graft_steps::{GraftLog, Pending};
use lab_tables::LabInput;
use ring_net::{Journal, Marks};

/// How a run ended.
#[derive(Clone, Copy, Debug, PartialEq, Eq, Hash)]
pub enum RunEnd {
    /// Each group of the script has begun, and nothing was left to do.
    Settled,
    /// The settle of this number, from 1, made all the rounds of its budget, and this is the first thing that was left to do.
    Unsettled {
        step: u32,
        rounds: u32,
        pending: Pending,
    },
    /// What is to be put next on the session of this peering would take its stream to this length, above 1,044,480 bytes.
    StreamFull {
        peering: PeeringId,
        length: u32,
    },
    /// The journals together have this many entries, at least 4,194,304.
    JournalFull {
        events: u64,
    },
}

/// Where the session of a peering is.
#[derive(Clone, Copy, Debug, PartialEq, Eq, Hash)]
pub enum Place {
    /// This router holds it.
    Held(RouterId),
    /// It is on its way from one router to another.
    Moving,
}

/// The story of a session, and how many prefixes have a route that was heard or told on it.
#[derive(Debug, Drop)]
pub struct SessionView {
    pub story: Story,
    pub heard: usize,
    pub told: usize,
}

/// What a remote said and received, and the router that its link points at.
#[derive(Debug, Drop)]
pub struct FarView {
    pub said: Octets,
    pub received: Octets,
    pub pointer: RouterId,
}

/// The best route to a prefix, and where it comes from.
#[derive(Debug, Drop)]
pub struct BestEntry {
    pub prefix: Prefix,
    pub from: From,
    pub route: Route,
}

/// What another router told of a prefix.
#[derive(Debug, Drop)]
pub struct ToldEntry {
    pub router: RouterId,
    pub prefix: Prefix,
    pub route: Route,
}

/// The tables of a router: its best routes, in rising prefix, and what it heard from the other routers, in rising router and prefix.
#[derive(Debug, Drop)]
pub struct RouterTable {
    pub best: Items<BestEntry>,
    pub heard: Items<ToldEntry>,
}

/// A run that came to its end: its input, how it ended, what is seen of its last world, its journal,
/// the marks behind its rounds, and how many rounds each settle that has begun made. Lists by router
/// and by peering stand in the order of the input, and the log in the order of the grafts.
#[derive(Debug, Drop)]
pub struct Lab {
    pub input: LabInput,
    pub end: RunEnd,
    pub log: GraftLog,
    pub placement: Items<Place>,
    pub sessions: Items<SessionView>,
    pub far: Items<FarView>,
    pub tables: Items<RouterTable>,
    pub journal: Journal,
    pub marks: Marks,
    pub rounds: Items<u32>,
}
