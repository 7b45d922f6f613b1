//! The script that the operator works through.

use graft_edge::{Items, PeeringId, RouterId};

/// A step of the script.
#[derive(Clone, Copy, Debug, PartialEq, Eq, Hash)]
pub enum ScriptStep {
    /// The remote of the peering is to say the bytes of this step.
    Say {
        peering: PeeringId,
    },
    /// The session of the peering is to move to the target.
    Graft {
        peering: PeeringId,
        target: RouterId,
    },
    /// The sessions that belong at the router as the step's group begins are to move to the others.
    Evacuate {
        router: RouterId,
    },
    /// The group of steps ends.
    Settle,
}

pub type ScriptSteps = Items<ScriptStep>;

pub type RouterIds = Items<RouterId>;

pub type Rooms = Items<u32>;

/// The input of the operator: the number of places for sessions at each router, by its number; the router at which the
/// session of each peering starts, by its number; and the steps, of which the last one ends a group.
#[derive(Debug, Drop)]
pub struct Script {
    pub rooms: Rooms,
    pub starts: RouterIds,
    pub steps: ScriptSteps,
}
