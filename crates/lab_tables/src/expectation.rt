//! What an input expects of the end of its run.

use bgp_types::{From, Items, Name, PeeringId, Prefix, RouterId, SessionState};

/// A value that is wanted of the end of a run.
#[derive(Debug, Drop)]
pub enum ExpectedValue {
    /// How the graft of this number ends, as a report writes it.
    Outcome {
        graft: u32,
        outcome: Name,
    },
    /// The router that holds the session of the peering.
    At {
        peering: PeeringId,
        router: RouterId,
    },
    /// The state of the session of the peering.
    State {
        peering: PeeringId,
        state: SessionState,
    },
    /// How many prefixes have a route that was heard on it.
    Heard {
        peering: PeeringId,
        count: u32,
    },
    /// How many prefixes have a route that was told on it.
    Told {
        peering: PeeringId,
        count: u32,
    },
    /// Where the router's best route to the prefix comes from, if it is to have one.
    Best {
        router: RouterId,
        prefix: Prefix,
        from: Option<From>,
    },
}

/// What one table of an input wants: at least one value, in the order of the table's keys.
pub type Expectation = Items<ExpectedValue>;

pub type Expectations = Items<Expectation>;
