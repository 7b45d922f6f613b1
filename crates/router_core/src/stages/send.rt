//! Segments that the sessions at places emit.

ghost use Rattle.std.specs.Prelude.{ℕ, ◌<◌, ◌≤◌, ◌∷◌, [], length, Some, IfOk, OnOk};
ghost use Rattle.ring_net.specs.Posts.{SameEdges};
ghost use Rattle.tcp_seq.specs.Numbers.{offset_from};
ghost use Rattle.graft_steps.specs.declared.item.Item.TheVariants as items;
ghost use Rattle.graft_model.specs.declared.event.RouterEvent.TheVariants.{Emit};
ghost use Rattle.router_core.specs.Parts.{RouterInvariant};
ghost use Rattle.router_core.specs.Places.{AtOne};
ghost use Rattle.router_core.specs.Rounds.{WritesEvent};
ghost use Rattle.router_core.specs.Sending.{AtPlace, SessionSentAgain, SentNext, SessionSentAnswer, IsOutletOf};

use crate::fields::Fields;
use crate::place::{Place, live_mut};
use bgp_session::Capsule;
use graft_actors::note_router_sent;
use graft_edge::NoMemory;
use graft_model::RouterEvent;
use graft_steps::Item;
use ring_net::Post;
use session_places::Places;
use tcp_seq::{Segment, Seq};

/// Makes the retransmission turn of the live session at a place.
pub(crate) fn again(places: &mut Places<Place>, n: usize) -> Result<Option<Segment>, NoMemory>
    ensures { IfOk result (λ answer. AtOne (λ old new. AtPlace SessionSentAgain old answer new) places.old n places.new) }
{
    match live_mut(places, n) {
        Some(session) => session.turn(),
        None => Ok(None),
    }
}

/// Emits the next new slice of the live session at a place.
pub(crate) fn next(places: &mut Places<Place>, n: usize) -> Result<Option<Segment>, NoMemory>
    ensures { IfOk result (λ answer. AtOne (λ old new. AtPlace SentNext old answer new) places.old n places.new) }
{
    match live_mut(places, n) {
        Some(session) => session.next_segment(),
        None => Ok(None),
    }
}

/// Emits the acknowledgement that the live session at a place owes.
pub(crate) fn answer(places: &mut Places<Place>, n: usize) -> Option<Segment>
    ensures { AtOne (λ old new. AtPlace SessionSentAnswer old result new) places.old n places.new }
{
    match live_mut(places, n) {
        Some(session) => session.answer(),
        None => None,
    }
}

/// The destination of the segments that are emitted on a peering: its number, the number of its far side's actor, and
/// the initial sequence number of its home side.
#[derive(Clone, Copy, Debug)]
pub(crate) struct Outlet {
    place: u32,
    to: usize,
    first: Seq,
}

/// Returns the outlet of the peering of a place.
pub(crate) fn outlet_of(router: &Fields, n: usize) -> Outlet
    requires keeps { RouterInvariant router.now }
    requires place { n < length router.now.places.places }
    ensures { IsOutletOf router.now n result }
{
    let Some(firsts) = router.firsts.get(n) else {
        unreachable!()
    };
    Outlet {
        place: n as u32,
        to: router.routers as usize + n,
        first: firsts.home,
    }
}

impl Outlet {
    /// Emits a segment of at most 1,024 bytes.
    pub(crate) fn send(
        self,
        segment: Segment,
        post: &mut Post<Item<Capsule>>,
    ) -> Result<(), NoMemory>
        requires { length segment.bytes ≤ 1024 }
        ensures edges { SameEdges post.old post.new }
        ensures sent { OnOk result (WritesEvent post.old (Emit self.place (offset_from segment.seq.0 self.first.0) (length segment.bytes))
            ((self.to, items.Seg segment) ∷ []) post.new) }
    {
        let event = RouterEvent::Emit {
            peering: self.place,
            from: segment.seq.offset_from(self.first),
            len: segment.bytes.len() as u32,
        };
        note_router_sent(post, event, self.to, Item::Seg(segment))
    }
}
