//! Whether a router has nothing left to do.

ghost use Rattle.std.specs.Prelude.{◌↔◌, All, IsTrue};
ghost use Rattle.graft_steps.specs.declared.rest.Pending.{Pending};
ghost use Rattle.settled_check.specs.Left.{LeftAtRouter};
ghost use Rattle.audit_router.specs.Parts.{RouterInvariant, router_part};
ghost use Rattle.audit_router.specs.Places.{RestsAt, place_of};

use crate::place::Place;
use crate::router::AuditedRouter;

impl Place {
    /// Returns whether nothing of a graft is at the place, and its session, if it has one, has read what it can and
    /// knows that its remote has received everything.
    fn is_at_rest(&self) -> bool
        ensures { IsTrue result ↔ RestsAt (place_of self.now) }
    {
        match self {
            Place::Vacant => true,
            Place::Live {
                session,
                errand: None,
            } => session.all_acked() && !session.frame_waits(),
            Place::Live { .. } | Place::Frozen { .. } | Place::Shadow { .. } => false,
        }
    }
}

impl AuditedRouter {
    /// Returns whether each place is at rest.
    fn places_rest(&self) -> bool
        ensures { IsTrue result ↔ All (λ place. RestsAt (place_of place)) self.now.places.items }
    {
        self.places.iter().all(|place| place.is_at_rest())
    }

    /// Returns whether the router has nothing left to do.
    pub fn is_at_rest(&self) -> bool
        requires { RouterInvariant self.now }
        ensures { IsTrue result ↔ ((x : Pending) → ¬ LeftAtRouter self.now.tables.number.0 (router_part self.now) x) }
    {
        self.places_rest() && self.tables.is_at_rest()
    }
}
