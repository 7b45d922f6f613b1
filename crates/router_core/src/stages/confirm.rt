//! For each session that has landed, the other routers are asked, one after another, whether they have heard what was
//! told. Once all have answered, the session's source is told.

ghost use Rattle.router_core.specs.Confirming.{TakesWord};
ghost use Rattle.router_core.specs.Places.{AtOne};
ghost use Rattle.router_core.specs.Visits.{confirming};

use super::visit::Visit;
use crate::fields::Fields;
use crate::place::{Errand, Place};
use bgp_session::Capsule;
use graft_actors::note_router_sent;
use graft_edge::NoMemory;
use graft_model::RouterEvent;
use graft_steps::{GraftIds, Item};
use ring_net::Post;
use session_places::Places;

/// What is to be sent for a session that has landed.
#[derive(Clone, Copy, Debug)]
pub(crate) enum Word {
    /// This router is to be asked whether it has heard what was told.
    Ask { ids: GraftIds, router: u32 },
    /// The source is to be told that the session has landed.
    Confirm(GraftIds),
}

/// Returns what is to be sent for the live session, if it has landed and waits for no answer. The next of `routers`
/// routers is to be asked, and the session then waits for its answer. If none is left to ask, the source is to be told,
/// and the session has no errand from then on.
fn word_of(place: &mut Place, routers: u32) -> Option<Word>
    ensures { TakesWord routers (Some place.old) result (Some place.new) }
{
    let Place::Live { errand, .. } = place else {
        return None;
    };
    let landed = match errand.take() {
        Some(Errand::Owing(landed)) => landed,
        other => {
            *errand = other;
            return None;
        }
    };
    let ids = landed.ids();
    let Some(router) = landed.next(routers) else {
        return Some(Word::Confirm(landed.confirmed()));
    };
    *errand = Some(Errand::Asking(landed.asked(router)));
    Some(Word::Ask { ids, router })
}

/// Returns what is to be sent for the session at a place, as `word_of` does for its content.
fn take_word(places: &mut Places<Place>, n: usize, routers: u32) -> Option<Word>
    ensures { AtOne (λ old new. TakesWord routers old result new) places.old n places.new }
{
    match places.get_mut(n) {
        Some(place) => word_of(place, routers),
        None => None,
    }
}

/// The stage at which the next router is asked, or the source is told, about each session that has landed. No prefix may
/// be dirty, and nothing may be due to another router.
#[derive(Drop)]
pub(crate) struct Confirm;

impl Visit for Confirm {
    ghost stage = { λ stage. confirming };

    fn visit(
        &self,
        router: &mut Fields,
        n: usize,
        post: &mut Post<Item<Capsule>>,
    ) -> Result<(), NoMemory> {
        let routers = router.routers;
        match take_word(&mut router.places, n, routers) {
            Some(Word::Ask { ids, router: asked }) => {
                let (graft, peering) = (ids.graft, ids.peering);
                let ask = RouterEvent::Ask {
                    graft,
                    router: asked,
                };
                let question = Item::Asked { graft, peering };
                note_router_sent(post, ask, asked as usize, question)
            }
            Some(Word::Confirm(ids)) => {
                let (graft, peering) = (ids.graft, ids.peering);
                let source = usize::from(ids.source.0);
                let done = Item::Done { graft, peering };
                note_router_sent(post, RouterEvent::Confirm { graft }, source, done)
            }
            None => Ok(()),
        }
    }
}
