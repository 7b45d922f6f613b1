//! What actors send to one another.

use crate::refusal::{Outcome, Refusal};
use bgp_types::{Prefix, Route};
use graft_edge::{PeeringId, RouterId};
use tcp_seq::Segment;

/// An item in flight from one actor to another. `C` is the capsule, which carries a session that moves.
/// `graft` is the number of a graft.
#[derive(Debug, Drop)]
pub enum Item<C> {
    /// A segment of a peering's connection, between the router that holds its session and its far side.
    Seg(Segment),
    /// From a router to a far side: the session has landed here, so send its segments here.
    PointAt {
        graft: u32,
    },
    /// From a router to another: the route to this prefix that it tells, or that it tells none.
    Told {
        prefix: Prefix,
        route: Option<Route>,
    },
    /// From the source to the target: the session itself.
    Moved {
        graft: u32,
        capsule: C,
    },
    /// From the target to the source: the session again, which the target refused.
    Back {
        graft: u32,
        capsule: C,
        refusal: Refusal,
    },
    /// From the target to a router that is neither source nor target: the target holds the session now,
    /// and has told this router the routes that it has with it. It asks whether the router has heard
    /// them.
    Asked {
        graft: u32,
        peering: PeeringId,
    },
    /// From that router to the target: it has heard all that the target told it before it asked.
    Answered {
        graft: u32,
        peering: PeeringId,
    },
    /// From the target to the source: the target holds the session now, has told the source the routes
    /// that it has with it, and all other routers have heard them.
    Done {
        graft: u32,
        peering: PeeringId,
    },
    /// From the operator to the router that holds the session: move it to the target.
    GraftOrder {
        graft: u32,
        peering: PeeringId,
        target: RouterId,
    },
    /// From the source to the operator: how the graft ended.
    Report {
        graft: u32,
        outcome: Outcome,
    },
    /// From the operator to a far side: send the bytes of this step of the script, counted from 0.
    SayOrder {
        step: u32,
    },
}

/// Requires of a type that its values may be sent to another thread.
fn goes_to_threads<T: Send>() {}

/// An item may be sent to another thread if its capsule may.
pub fn items_go_to_threads<C: Send>() {
    goes_to_threads::<Item<C>>()
}
