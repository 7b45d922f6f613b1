//! A router's places for the sessions of the peerings.

ghost use Rattle.std.specs.Prelude.{◌≡◌, ◌≢◌, ◌++◌, ◌<◌, ◌-◌, ◌^◌, Some, None, MatchBool, IfOk, OnOk};
ghost use Rattle.std.specs.Borrow.{sem};
ghost use Rattle.std.specs.Option.{option_copied_mut};
ghost use Rattle.bgp_session.specs.Running.{RunningSession};
ghost use Rattle.session_places.specs.Places.{with_place};
ghost use Rattle.router_core.specs.Confirming.{HearsAnswer};
ghost use Rattle.router_core.specs.Lends.{lends_live, live_in};
ghost use Rattle.router_core.specs.Places.{AtOne, IsLiveWithoutErrand, IsShadowOf, place_at, session_in, sessions_in};
ghost use Rattle.router_core.specs.Reading.{ArrivesAt, FitsPlace, ReadsAt};

use bgp_session::{ReadStep, Session};
use graft_edge::{Items, NoMemory};
use graft_steps::{Away, Landed, Ordered};
use session_places::Places;
use std::alloc::Global;
use tcp_seq::Segment;

/// What remains to be done for a graft whose session is live here.
#[derive(Drop)]
pub(crate) enum Errand {
    /// The session is to leave for another router, as ordered.
    Leaving(Ordered),
    /// The session has landed here. The next router is to be asked or, once all have answered, the source is to be
    /// told.
    Owing(Landed),
    /// The session has landed here, and a router that was asked hasn't answered yet.
    Asking(Landed),
}

/// The content of a router's place for the session of a peering. A session that moves is taken out of one router's
/// place and put into another's, which takes no memory.
#[derive(Drop)]
pub(crate) enum Place {
    /// A live session, and what remains to be done for its graft.
    Live {
        session: Session,
        errand: Option<Errand>,
    },
    /// The session has left in a graft. Its routes stay candidates until the graft has ended.
    Shadow {
        away: Away,
    },
}

impl Place {
    /// Stores a graft with the live session, which must have no errand.
    fn store(&mut self, ordered: Ordered)
        ensures { (s : RunningSession) → self.old ≡ Place.Live s None → self.new ≡ Place.Live s (Some (Errand.Leaving ordered)) }
    {
        if let Place::Live { errand, .. } = self {
            *errand = Some(Errand::Leaving(ordered));
        }
    }

    /// Notes that a router has answered in this graft. If the live session waits for that answer, the next router may
    /// be asked.
    fn hear_answer(&mut self, graft: u32, router: u32)
        requires { router < 2 ^ 32 - 1 }
        ensures { HearsAnswer graft router (Some self.old) (Some self.new) }
    {
        let Place::Live { errand, .. } = self else {
            return;
        };
        *errand = match errand.take() {
            Some(Errand::Asking(landed)) if landed.awaits(graft, router) => {
                Some(Errand::Owing(landed.answered()))
            }
            other => other,
        };
    }

    /// Makes a session live at the place, without an errand.
    pub(crate) fn set_live(&mut self, session: Session)
        ensures { self.new ≡ Place.Live session None }
    {
        *self = Place::Live {
            session,
            errand: None,
        };
    }

    /// Lets a segment arrive at the session, if one is live. Returns whether one is.
    fn arrive(&mut self, segment: &Segment) -> Result<bool, NoMemory>
        requires { FitsPlace (Some self.old) segment.now }
        ensures { IfOk result (λ live. ArrivesAt live (Some self.old) segment.now (Some self.new)) }
    {
        match self {
            Place::Live { session, .. } => {
                session.arrive(segment)?;
                Ok(true)
            }
            Place::Shadow { .. } => Ok(false),
        }
    }
}

/// Lends the live session at a place.
pub(crate) fn live_mut(places: &mut Places<Place>, n: usize) -> Option<&mut Session>
    ensures* writes_back { sem 𝓛 (lends_live places.entry n result) }
    ensures value { option_copied_mut result ≡ live_in (place_at places.old.places n) }
{
    match places.get_mut(n)? {
        Place::Live { session, .. } => Some(session),
        Place::Shadow { .. } => None,
    }
}

/// Returns whether a place is vacant.
pub(crate) fn is_vacant(places: &Places<Place>, n: usize) -> bool
    ensures { MatchBool result (place_at places.now.places n ≡ None) (place_at places.now.places n ≢ None) }
{
    places.get(n).is_none()
}

/// Returns whether a session without an errand is live at a place.
pub(crate) fn is_free(places: &Places<Place>, n: usize) -> bool
    ensures { MatchBool result (IsLiveWithoutErrand (place_at places.now.places n)) (¬ IsLiveWithoutErrand (place_at places.now.places n)) }
{
    match places.get(n) {
        Some(Place::Live { errand, .. }) => errand.is_none(),
        Some(Place::Shadow { .. }) | None => false,
    }
}

/// Returns whether the place is a shadow of this graft: its session has left in it.
pub(crate) fn is_away(places: &Places<Place>, n: usize, graft: u32) -> bool
    ensures { MatchBool result (IsShadowOf (place_at places.now.places n) graft) (¬ IsShadowOf (place_at places.now.places n) graft) }
{
    match places.get(n) {
        Some(Place::Shadow { away }) => away.ids().graft == graft,
        Some(Place::Live { .. }) | None => false,
    }
}

/// Stores a graft with the live session at a place, which must have no errand.
pub(crate) fn store(places: &mut Places<Place>, n: usize, ordered: Ordered)
    ensures { (s : RunningSession) → place_at places.old.places n ≡ Some (Place.Live s None)
        → places.new ≡ with_place places.old n (Some (Place.Live s (Some (Errand.Leaving ordered)))) }
{
    if let Some(place) = places.get_mut(n) {
        place.store(ordered);
    }
}

/// Notes that a router has answered in this graft. If the session at a place waits for that answer, the next router may
/// be asked.
pub(crate) fn hear_answer(places: &mut Places<Place>, n: usize, graft: u32, router: u32)
    requires { router < 2 ^ 32 - 1 }
    ensures { AtOne (HearsAnswer graft router) places.old n places.new }
{
    if let Some(place) = places.get_mut(n) {
        place.hear_answer(graft, router);
    }
}

/// Lets a segment arrive at the session at a place, if one is live there. Returns whether one is.
pub(crate) fn arrive(
    places: &mut Places<Place>,
    n: usize,
    segment: &Segment,
) -> Result<bool, NoMemory>
    requires { FitsPlace (place_at places.old.places n) segment.now }
    ensures { IfOk result (λ live. AtOne (λ old new. ArrivesAt live old segment.now new) places.old n places.new) }
{
    match places.get_mut(n) {
        Some(place) => place.arrive(segment),
        None => Ok(false),
    }
}

/// Lets the session at a place read one message, if one is live there and can.
pub(crate) fn read(places: &mut Places<Place>, n: usize) -> Result<Option<ReadStep>, NoMemory>
    ensures { IfOk result (λ step. AtOne (ReadsAt step) places.old n places.new) }
{
    match live_mut(places, n) {
        Some(session) => session.read(),
        None => Ok(None),
    }
}

/// Adds the session of a place, if one is held there.
fn push_session(sessions: &mut Items<Session>, place: Place) -> Result<(), NoMemory>
    ensures { OnOk result (sessions.new ≡ sessions.old ++ session_in (Some place)) }
{
    match place {
        Place::Live { session, .. } => sessions.push(session),
        Place::Shadow { .. } => Ok(()),
    }
}

/// Returns the sessions held at places, in the order of the places.
pub(crate) fn sessions_of(alloc: Global, places: Places<Place>) -> Result<Items<Session>, NoMemory>
    ensures { IfOk result (λ sessions. sessions ≡ sessions_in places.places) }
{
    let mut sessions = Items::new(alloc);
    for place in places.into_values(alloc)?.into_vec() {
        push_session(&mut sessions, place)?;
    }
    Ok(sessions)
}
