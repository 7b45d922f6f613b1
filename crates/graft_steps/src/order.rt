//! A graft at its source, step by step: ordered, frozen, away; and at its target: landed. Each step is
//! a type of its own, which only the step before it creates and the next one consumes, so no step is
//! skipped and none is made twice.

ghost use Rattle.std.specs.Prelude.{◌≡◌, ◌<◌, ◌+◌, ◌-◌, ◌^◌, IfOk, IfSome, IfNone, MatchBool};
ghost use Rattle.std.specs.Result.{result_err};
ghost use Rattle.graft_steps.specs.Landings.{IsNextToAsk, AreAllAsked};
ghost use Rattle.graft_steps.specs.Refusals.{freeze_refusal};

use crate::refusal::{Outcome, Refusal};
use bgp_types::SessionState;
use graft_edge::{PeeringId, RouterId};
use std::marker::Model;

/// Identifies a graft: its number, which counts the graft steps of the script from 1, the peering whose
/// session moves, the router that holds the session, and the one that is to take it.
#[derive(Clone, Copy, Debug, PartialEq, Eq, Hash)]
pub struct GraftIds {
    pub graft: u32,
    pub peering: PeeringId,
    pub source: RouterId,
    pub target: RouterId,
}

/// A graft that the source was ordered to make and hasn't begun.
#[derive(Debug, Drop)]
pub struct Ordered {
    ids: GraftIds,
}

/// A graft whose session is frozen at the source: the session neither receives nor sends until it is
/// sent away.
#[derive(Debug, Drop)]
pub struct Frozen {
    ids: GraftIds,
}

/// A graft whose session was sent to the target, and whose answer the source awaits.
#[derive(Debug, Drop)]
pub struct Away {
    ids: GraftIds,
}

/// A graft whose session has landed at its target, before the source is told of it. First each router
/// that is neither source nor target is asked, one after another, whether it has heard what the target
/// told.
#[derive(Debug, Drop)]
pub struct Landed {
    ids: GraftIds,
    next: u32,
}

impl Model for Ordered {
    ghost use Rattle.graft_steps.specs.declared.order.GraftIds.{GraftIds};

    ghost Value = { GraftIds };

    ghost view = { λ step. step.ids };
}

impl Model for Frozen {
    ghost use Rattle.graft_steps.specs.declared.order.GraftIds.{GraftIds};

    ghost Value = { GraftIds };

    ghost view = { λ step. step.ids };
}

impl Model for Away {
    ghost use Rattle.graft_steps.specs.declared.order.GraftIds.{GraftIds};

    ghost Value = { GraftIds };

    ghost view = { λ step. step.ids };
}

impl Model for Landed {
    ghost use Rattle.graft_steps.specs.Landings.{Landing};

    ghost Value = { Landing };

    ghost view = { λ step. record { ids = step.ids; next = step.next } };
}

impl Ordered {
    pub fn new(graft: u32, peering: PeeringId, source: RouterId, target: RouterId) -> Ordered
        ensures { result ≡ record { graft = graft; peering = peering; source = source; target = target } }
    {
        Ordered {
            ids: GraftIds {
                graft,
                peering,
                source,
                target,
            },
        }
    }

    pub fn ids(&self) -> GraftIds
        ensures { result ≡ self.now }
    {
        self.ids
    }

    /// Freezes the session, which is in this state and has this hold time in seconds, 0 if it has no
    /// hold timer. The result is `SameRouter` if and only if the target is the source, else
    /// `NotEstablished` if and only if the session isn't established, else `HoldTooShort` if and only
    /// if its hold time is 1 to 29. A refusal ends the graft: read its `ids` before, to report it.
    pub fn freeze(self, state: SessionState, hold: u32) -> Result<Frozen, Refusal>
        ensures refusal { result_err result ≡ freeze_refusal self.source self.target state hold }
        ensures frozen { IfOk result (λ frozen. frozen ≡ self) }
    {
        let Ordered { ids } = self;
        if ids.target == ids.source {
            return Err(Refusal::SameRouter);
        }
        if state != SessionState::Established {
            return Err(Refusal::NotEstablished(state));
        }
        if hold > 0 && hold < 30 {
            return Err(Refusal::HoldTooShort(hold));
        }
        Ok(Frozen { ids })
    }
}

impl Frozen {
    pub fn ids(&self) -> GraftIds
        ensures { result ≡ self.now }
    {
        self.ids
    }

    /// Sends the session to the target.
    pub fn leave(self) -> Away
        ensures { result ≡ self }
    {
        Away { ids: self.ids }
    }
}

impl Away {
    pub fn ids(&self) -> GraftIds
        ensures { result ≡ self.now }
    {
        self.ids
    }

    /// Ends the graft as accepted: the target took the session, so the source keeps nothing of it.
    pub fn cleared(self) -> Outcome
        ensures { result ≡ Outcome.Accepted }
    {
        Outcome::Accepted
    }

    /// Ends the graft as refused, for the reason that the target gave: the target sent the session
    /// back, so the source holds it again.
    pub fn turned_back(self, refusal: Refusal) -> Outcome
        ensures { result ≡ Outcome.Refused refusal }
    {
        Outcome::Refused(refusal)
    }
}

impl Landed {
    /// Returns a graft that has landed, before any router is asked.
    pub fn new(graft: u32, peering: PeeringId, source: RouterId, target: RouterId) -> Landed
        ensures { result ≡ record { ids = record { graft = graft; peering = peering; source = source; target = target }; next = 0 } }
    {
        Landed {
            ids: GraftIds {
                graft,
                peering,
                source,
                target,
            },
            next: 0,
        }
    }

    pub fn ids(&self) -> GraftIds
        ensures { result ≡ self.now.ids }
    {
        self.ids
    }

    /// Returns the router that is to answer next, of `routers` routers: the first that wasn't asked, or
    /// that was asked last and hasn't answered, and that is neither source nor target. Returns `None`
    /// if all have answered.
    pub fn next(&self, routers: u32) -> Option<u32>
        ensures some { IfSome result (λ q. IsNextToAsk self.now.ids.source.0 self.now.ids.target.0 routers self.now.next q) }
        ensures none { IfNone result (AreAllAsked self.now.ids.source.0 self.now.ids.target.0 routers self.now.next) }
    {
        let source = u32::from(self.ids.source.0);
        let target = u32::from(self.ids.target.0);
        for router in self.next..routers {
            if router != source && router != target {
                return Some(router);
            }
        }
        None
    }

    /// Whether this router is the one whose answer is awaited, for this graft.
    pub fn awaits(&self, graft: u32, router: u32) -> bool
        ensures { MatchBool result ((self.now.ids.graft ≡ graft) × (self.now.next ≡ router)) (¬ ((self.now.ids.graft ≡ graft) × (self.now.next ≡ router))) }
    {
        self.ids.graft == graft && self.next == router
    }

    /// Records that this router is asked.
    pub fn asked(self, router: u32) -> Landed
        ensures { result ≡ record self { next = router } }
    {
        Landed {
            next: router,
            ..self
        }
    }

    /// Records that the router that was asked has answered.
    pub fn answered(self) -> Landed
        requires { self.next < 2 ^ 32 - 1 }
        ensures { result ≡ record self { next = self.next + 1 } }
    {
        Landed {
            next: self.next + 1,
            ..self
        }
    }

    /// Ends the graft at its target: the source is told.
    pub fn confirmed(self) -> GraftIds
        ensures { result ≡ self.ids }
    {
        self.ids
    }
}
