//! Segments that a router takes.

ghost use Rattle.std.specs.Prelude.{◌<◌, length, MatchBool, OnOk};
ghost use Rattle.ring_net.specs.Posts.{SameEdges};
ghost use Rattle.graft_steps.specs.declared.item.Item.TheVariants as items;
ghost use Rattle.tcp_seq.specs.declared.segment.Way.TheVariants as ways;
ghost use Rattle.graft_actors.specs.Items.{IsSegmentOf};
ghost use Rattle.router_core.specs.Parts.{RouterInvariant};
ghost use Rattle.router_core.specs.Takes.{RouterTakesIt};

use crate::fields::Fields;
use crate::place::arrive;
use crate::takes::reads::read_all;
use bgp_session::Capsule;
use graft_actors::{note_dropped, note_router};
use graft_edge::{NoMemory, PeeringId};
use graft_model::RouterEvent;
use graft_steps::Item;
use ring_net::Post;
use tcp_end::MOST_BYTES;
use tcp_seq::{Segment, Way};
/// Returns whether a segment is of this peering and goes home, with sequence numbers within its streams.
fn is_of(router: &Fields, peering: PeeringId, segment: &Segment) -> bool
    requires keeps { RouterInvariant router.now }
    requires there { peering.0 < length router.now.places.places }
    ensures { MatchBool result (IsSegmentOf router.now.known.setup peering.0 ways.Home segment.now)
        (¬ IsSegmentOf router.now.known.setup peering.0 ways.Home segment.now) }
{
    let Some(firsts) = router.firsts.get(usize::from(peering.0)) else {
        return false;
    };
    segment.peering == peering
        && segment.way == Way::Home
        && segment.bytes.len() <= MOST_BYTES
        && segment.is_in_streams(firsts.remote, firsts.home)
}

/// Takes a segment of a far side: it arrives at the live session of its peering, which then reads all that it can, or
/// it finds none and strays. A segment is dropped if it isn't of its sender's peering, goes to the remote, is too long,
/// or has sequence numbers outside the streams.
pub(crate) fn take_segment(
    router: &mut Fields,
    from: usize,
    segment: Segment,
    post: &mut Post<Item<Capsule>>,
) -> Result<(), NoMemory>
    requires { RouterInvariant router.old }
    ensures edges { SameEdges post.old post.new }
    ensures took { OnOk result (RouterTakesIt from (items.Seg segment) router.old post.old router.new post.new) }
{
    let routers = router.routers as usize;
    if from < routers {
        return note_dropped(post);
    }
    if from - routers >= router.places.len() {
        return note_dropped(post);
    }
    let peering = PeeringId((from - routers) as u8);
    if !is_of(router, peering, &segment) {
        return note_dropped(post);
    }
    let number = u32::from(peering.0);
    if !arrive(&mut router.places, usize::from(peering.0), &segment)? {
        return note_router(post, RouterEvent::Stray { peering: number });
    }
    note_router(post, RouterEvent::Arrive { peering: number })?;
    read_all(router, peering, post)
}
