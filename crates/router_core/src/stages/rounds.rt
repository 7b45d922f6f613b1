//! The rounds that pass while hold times run (RFC 4271, sections 4.4, 6.5 and 10).

ghost use Rattle.std.specs.Prelude.{◌≡◌, IfOk};
ghost use Rattle.router_core.specs.Places.{AtOne};
ghost use Rattle.router_core.specs.Sending.{AtPlace};
ghost use Rattle.router_core.specs.Ticking.{Ticked};
ghost use Rattle.router_tables.specs.Reads.{followed as followed_lem};
ghost use Rattle.router_core.specs.Visits.{passing_rounds};

use super::visit::Visit;
use crate::fields::Fields;
use crate::place::{Place, live_mut};
use crate::takes::follow;
use bgp_session::{Capsule, ReadStep, Session, TickStep};
use graft_actors::note_router;
use graft_edge::{NoMemory, PeeringId};
use graft_model::RouterEvent;
use graft_steps::Item;
use ring_net::Post;
use session_places::Places;

/// Lets a round pass on a session, if one may.
fn tick_session(session: &mut Session, round: u32) -> Result<Option<TickStep>, NoMemory>
    ensures { IfOk result (λ step. Ticked round session.old step session.new) }
{
    if !session.may_pass(round) {
        return Ok(None);
    }
    Ok(Some(session.tick(round)?))
}

/// Lets a round pass on the live session at a place, if one may.
fn tick(places: &mut Places<Place>, n: usize, round: u32) -> Result<Option<TickStep>, NoMemory>
    ensures { IfOk result (λ step. AtOne (λ old new. AtPlace (Ticked round) old step new) places.old n places.new) }
{
    match live_mut(places, n) {
        Some(session) => tick_session(session, round),
        None => Ok(None),
    }
}

/// Returns the change that the router follows after a round: the end of the session, or none.
fn followed(step: TickStep) -> ReadStep
    ensures { result ≡ followed_lem step }
{
    match step {
        TickStep::Plain => ReadStep::Opened,
        TickStep::Beat => ReadStep::Opened,
        TickStep::Expired(prefixes) => ReadStep::Closed(prefixes),
    }
}

/// The stage at which a round of this number passes on each session on which it may. The router follows the change.
#[derive(Drop)]
pub(crate) struct PassRounds(pub(crate) u32);

impl Visit for PassRounds {
    ghost stage = { λ stage. passing_rounds stage.0 };

    fn visit(
        &self,
        router: &mut Fields,
        n: usize,
        post: &mut Post<Item<Capsule>>,
    ) -> Result<(), NoMemory> {
        let PassRounds(round) = *self;
        let Some(step) = tick(&mut router.places, n, round)? else {
            return Ok(());
        };
        let peering = n as u32;
        note_router(post, RouterEvent::Tick { peering, round })?;
        follow(router, PeeringId(n as u8), followed(step))
    }
}
