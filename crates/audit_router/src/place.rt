//! A router's places for the sessions of the peerings.

ghost use Rattle.std.specs.Prelude.{ℕ, ◌≡◌, ◌<◌, ◌-◌, ◌^◌, Some, None, IsTrue, IfSome, IfNone, ◌↔◌, option_copied};
ghost use Rattle.bgp_session.specs.Running.{RunningSession};
ghost use Rattle.graft_steps.specs.declared.order.GraftIds.{GraftIds};
ghost use Rattle.graft_model.specs.GraftRows.{is_taken as is_taken_lem};
ghost use Rattle.graft_model.specs.TableRows.{holds_established};
ghost use Rattle.audit_router.specs.Places.{AsksNext, BeginsAs, HearsAnswer, IsOwedAt, MayConfirm, place_of};

use bgp_session::Session;
use bgp_types::SessionState;
use graft_edge::RouterId;
use graft_steps::{GraftIds, Landed, Ordered, Refusal};
use std::mem;

/// What remains to be done for a graft whose session is live here.
#[derive(Drop)]
pub(crate) enum Errand {
    /// The session is to leave for another router, as ordered.
    Leaving(GraftIds),
    /// The session has landed here. The next router is to be asked or, once all have answered, the source is to be
    /// told.
    Owing(Landed),
    /// The session has landed here, and a router that was asked hasn't answered yet.
    Asking(Landed),
}

/// The content of a router's place for the session of a peering.
#[derive(Drop)]
pub(crate) enum Place {
    Vacant,
    /// A live session, and what remains to be done for its graft.
    Live {
        session: Session,
        errand: Option<Errand>,
    },
    /// The session is frozen for a graft, and can only leave.
    Frozen {
        session: Session,
        ids: GraftIds,
    },
    /// The session has left in a graft of this number. Its routes stay candidates until the graft has ended.
    Shadow {
        graft: u32,
    },
}

impl Place {
    /// Returns whether a session is live here.
    pub(crate) fn is_live(&self) -> bool
        ensures { IsTrue result ↔ ((s : RunningSession) × (errand : _) × (self.now ≡ Place.Live s errand)) }
    {
        matches!(self, Place::Live { .. })
    }

    /// Returns whether a session is live here without an errand.
    pub(crate) fn is_free(&self) -> bool
        ensures { IsTrue result ↔ ((s : RunningSession) × (self.now ≡ Place.Live s None)) }
    {
        match self {
            Place::Live { errand, .. } => errand.is_none(),
            Place::Vacant | Place::Frozen { .. } | Place::Shadow { .. } => false,
        }
    }

    /// Returns whether a session has left from here in this graft.
    pub(crate) fn is_shadow_of(&self, graft: u32) -> bool
        ensures { IsTrue result ↔ (self.now ≡ Place.Shadow graft) }
    {
        match self {
            Place::Shadow { graft: own } => *own == graft,
            _ => false,
        }
    }

    /// Returns whether the place is taken, by a session or a shadow.
    pub(crate) fn is_taken(&self) -> bool
        ensures { result ≡ is_taken_lem (place_of self.now) }
    {
        !matches!(self, Place::Vacant)
    }

    /// Returns whether an established session is here, live or frozen.
    pub(crate) fn is_up(&self) -> bool
        ensures { result ≡ holds_established (place_of self.now) }
    {
        match self {
            Place::Live { session, .. } => session.state() == SessionState::Established,
            Place::Frozen { session, .. } => session.state() == SessionState::Established,
            Place::Vacant | Place::Shadow { .. } => false,
        }
    }

    /// Returns the first reason to refuse the graft of this number, or `Some(None)` if it may begin; `None` if it isn't
    /// stored with a live session here.
    pub(crate) fn begins(&self, graft: u32) -> Option<Option<Refusal>>
        ensures { (refusal : _) → (result ≡ Some refusal) ↔ BeginsAs graft self.now refusal }
    {
        let Place::Live { session, errand } = self else {
            return None;
        };
        let Errand::Leaving(ids) = errand.as_ref()? else {
            return None;
        };
        if ids.graft != graft {
            return None;
        }
        let ordered = Ordered::new(ids.graft, ids.peering, ids.source, ids.target);
        Some(ordered.freeze(session.state(), session.hold()).err())
    }

    /// Stores a graft with the live session, which must have no errand.
    pub(crate) fn store(&mut self, ids: GraftIds)
        ensures { (s : RunningSession) → self.old ≡ Place.Live s None → self.new ≡ Place.Live s (Some (Errand.Leaving ids)) }
    {
        if let Place::Live { errand, .. } = self {
            *errand = Some(Errand::Leaving(ids));
        }
    }

    /// Makes the live session free of its errand.
    pub(crate) fn end_errand(&mut self)
        ensures { (s : RunningSession) (errand : _) → self.old ≡ Place.Live s errand → self.new ≡ Place.Live s None }
    {
        if let Place::Live { errand, .. } = self {
            *errand = None;
        }
    }

    /// Freezes the live session for the graft that is stored with it.
    pub(crate) fn freeze(&mut self)
        ensures { (s : RunningSession) (ids : GraftIds) → self.old ≡ Place.Live s (Some (Errand.Leaving ids)) → self.new ≡ Place.Frozen s ids }
    {
        *self = match mem::replace(self, Place::Vacant) {
            Place::Live { session, errand } => match errand {
                Some(Errand::Leaving(ids)) => Place::Frozen { session, ids },
                errand => Place::Live { session, errand },
            },
            other => other,
        };
    }

    /// Returns whether a session is frozen here for the graft of this number.
    pub(crate) fn is_frozen_for(&self, graft: u32) -> bool
        ensures { IsTrue result ↔ ((s : RunningSession) × (ids : GraftIds) × (self.now ≡ Place.Frozen s ids) × (ids.graft ≡ graft)) }
    {
        match self {
            Place::Frozen { ids, .. } => ids.graft == graft,
            _ => false,
        }
    }

    /// Returns the landing of which word is owed in the graft of this number, while no answer is waited for.
    fn owed(&self, graft: u32) -> Option<&Landed>
        ensures { (landing : _) → (option_copied result ≡ Some landing) ↔ IsOwedAt graft self.now landing }
    {
        let Place::Live { errand, .. } = self else {
            return None;
        };
        let Errand::Owing(landed) = errand.as_ref()? else {
            return None;
        };
        if landed.ids().graft != graft {
            return None;
        }
        Some(landed)
    }

    /// Returns whether a router is to be asked next in the graft of this number.
    pub(crate) fn asks(&self, graft: u32, routers: u32, router: u32) -> bool
        ensures { IsTrue result ↔ AsksNext graft self.now routers router }
    {
        match self.owed(graft) {
            Some(landed) => landed.next(routers) == Some(router),
            None => false,
        }
    }

    /// Returns the source of the graft of this number, if it is owed word and all routers have answered.
    pub(crate) fn confirms(&self, graft: u32, routers: u32) -> Option<RouterId>
        ensures some { IfSome result (λ source. MayConfirm graft self.now routers source.0) }
        ensures none { IfNone result ((source : ℕ) → ¬ MayConfirm graft self.now routers source) }
    {
        let landed = self.owed(graft)?;
        match landed.next(routers) {
            Some(_) => None,
            None => Some(landed.ids().source),
        }
    }

    /// Notes that a router is asked, in the graft of which word is owed.
    pub(crate) fn ask(&mut self, router: u32)
        ensures { (s : RunningSession) (landed : _) → self.old ≡ Place.Live s (Some (Errand.Owing landed))
            → self.new ≡ Place.Live s (Some (Errand.Asking (record landed { next = router }))) }
    {
        let Place::Live { errand, .. } = self else {
            return;
        };
        *errand = match errand.take() {
            Some(Errand::Owing(landed)) => Some(Errand::Asking(landed.asked(router))),
            other => other,
        };
    }

    /// Notes that a router has answered in this graft. If the live session waits for that answer, the next router may
    /// be asked.
    pub(crate) fn hear_answer(&mut self, graft: u32, router: u32)
        requires { router < 2 ^ 32 - 1 }
        ensures { HearsAnswer graft router self.old self.new }
    {
        let Place::Live { errand, .. } = self else {
            return;
        };
        *errand = match errand.take() {
            Some(Errand::Asking(landed)) if landed.awaits(graft, router) => {
                Some(Errand::Owing(landed.answered()))
            }
            other => other,
        };
    }
}
