//! Grafts that begin at their source.

ghost use Rattle.std.specs.Prelude.{◌+◌, ◌≡◌, None, Some};
ghost use Rattle.graft_model.specs.Setups.{peerings_in, routers_in};
ghost use Rattle.bgp_session.specs.Running.{RunningSession};
ghost use Rattle.router_core.specs.Leaving.{BegunAs, TakesOrder};
ghost use Rattle.router_core.specs.Parts.{RouterInvariant};
ghost use Rattle.router_core.specs.Places.{AtOne};
ghost use Rattle.router_core.specs.declared.place.Errand.TheVariants.{Leaving};
ghost use Rattle.router_core.specs.declared.place.Place.TheVariants.{Live};
ghost use Rattle.router_core.specs.Visits.{beginning_grafts};

use super::visit::Visit;
use crate::fields::Fields;
use crate::place::{Errand, Place};
use bgp_session::Capsule;
use graft_actors::{note_router, note_router_sent};
use graft_edge::NoMemory;
use graft_model::RouterEvent;
use graft_steps::{GraftIds, Item, Ordered, Outcome, Refusal};
use ring_net::Post;
use session_places::Places;
use std::mem;

/// The outcome of the graft that was stored at a place.
#[derive(Drop)]
pub(crate) enum Begun {
    /// No graft was stored.
    Nothing,
    /// It was refused, and the session stays.
    Refused(GraftIds, Refusal),
    /// The session has left in it.
    Left(GraftIds, Capsule),
}

/// Begins a graft of the live session at a place: the graft is refused, or the session leaves.
fn begin_with(place: &mut Place, order: Ordered) -> Begun
    ensures { (s : RunningSession) → place.old ≡ Live s None → BegunAs (Some (Live s (Some (Leaving order)))) result (Some place.new) }
{
    let ids = order.ids();
    let Place::Live { session, .. } = place else {
        return Begun::Nothing;
    };
    let frozen = match order.freeze(session.state(), session.hold()) {
        Ok(frozen) => frozen,
        Err(refusal) => return Begun::Refused(ids, refusal),
    };
    let away = frozen.leave();
    match mem::replace(place, Place::Shadow { away }) {
        Place::Live { session, .. } => Begun::Left(ids, session.freeze().leave()),
        Place::Shadow { .. } => Begun::Nothing,
    }
}

/// Takes the order of the graft that is stored with the live session, if there is one.
fn take_order(place: &mut Place) -> Option<Ordered>
    ensures { TakesOrder place.old result place.new }
{
    match place {
        Place::Live { errand, .. } => match errand.take() {
            Some(Errand::Leaving(order)) => Some(order),
            other => {
                *errand = other;
                None
            }
        },
        Place::Shadow { .. } => None,
    }
}

/// Begins the graft that is stored with the live session, if there is one.
fn begin_of(place: &mut Place) -> Begun
    ensures { BegunAs (Some place.old) result (Some place.new) }
{
    match take_order(place) {
        Some(order) => begin_with(place, order),
        None => Begun::Nothing,
    }
}

/// Begins the graft that is stored at a place.
fn begin_graft(places: &mut Places<Place>, n: usize) -> Begun
    ensures { AtOne (λ old new. BegunAs old result new) places.old n places.new }
{
    match places.get_mut(n) {
        Some(place) => begin_of(place),
        None => Begun::Nothing,
    }
}

/// The number of the operator's actor.
fn operator(router: &Fields) -> usize
    requires { RouterInvariant router.now }
    ensures { result ≡ routers_in router.now.known.setup + peerings_in router.now.known.setup }
{
    router.routers as usize + router.places.len()
}

/// The stage at which each stored graft for which there is a reason is refused, and the sessions of the others are sent
/// away.
#[derive(Drop)]
pub(crate) struct BeginGrafts;

impl Visit for BeginGrafts {
    ghost stage = { λ stage. beginning_grafts };

    fn visit(
        &self,
        router: &mut Fields,
        n: usize,
        post: &mut Post<Item<Capsule>>,
    ) -> Result<(), NoMemory> {
        let operator = operator(router);
        match begin_graft(&mut router.places, n) {
            Begun::Nothing => Ok(()),
            Begun::Refused(ids, refusal) => {
                let graft = ids.graft;
                let outcome = Outcome::Refused(refusal);
                let report = Item::Report { graft, outcome };
                note_router_sent(post, RouterEvent::Refuse { graft }, operator, report)
            }
            Begun::Left(ids, capsule) => {
                let graft = ids.graft;
                router.due_out.clear(n);
                note_router(post, RouterEvent::Freeze { graft })?;
                let moved = Item::Moved { graft, capsule };
                let target = usize::from(ids.target.0);
                note_router_sent(post, RouterEvent::Leave { graft }, target, moved)
            }
        }
    }
}
