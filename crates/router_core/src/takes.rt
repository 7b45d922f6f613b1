//! The items that a router takes.

mod graft;
mod mesh;
mod order;
mod reads;
mod segment;

ghost use Rattle.std.specs.Prelude.{OnOk};
ghost use Rattle.ring_net.specs.Posts.{SameEdges};
ghost use Rattle.router_core.specs.Parts.{RouterInvariant};
ghost use Rattle.router_core.specs.Takes.{RouterTakesIt};

use crate::fields::Fields;
use bgp_session::Capsule;
use graft_edge::NoMemory;
use graft_steps::Item;
pub(crate) use reads::follow;
use ring_net::Post;

/// Takes an item that the actor `from` sent.
pub(crate) fn take(
    router: &mut Fields,
    from: usize,
    item: Item<Capsule>,
    post: &mut Post<Item<Capsule>>,
) -> Result<(), NoMemory>
    requires { RouterInvariant router.old }
    ensures edges { SameEdges post.old post.new }
    ensures took { OnOk result (RouterTakesIt from item router.old post.old router.new post.new) }
{
    match item {
        Item::Seg(segment) => segment::take_segment(router, from, segment, post),
        Item::Told { prefix, route } => mesh::hear(router, from, prefix, route, post),
        Item::Moved { graft, capsule } => graft::take_moved(router, from, graft, capsule, post),
        Item::Back {
            graft,
            capsule,
            refusal,
        } => graft::take_back(router, from, graft, capsule, refusal, post),
        Item::Asked { graft, peering } => graft::take_asked(router, from, graft, peering, post),
        Item::Answered { graft, peering } => {
            graft::take_answered(router, from, graft, peering, post)
        }
        Item::Done { graft, peering } => graft::take_done(router, from, graft, peering, post),
        Item::GraftOrder {
            graft,
            peering,
            target,
        } => order::admit(router, from, graft, peering, target, post),
        other => order::drop_other(router, from, other, post),
    }
}
